//! A file that is made with its text.

use crate::{Cause, open_apart};
use std::fs::{File, OpenFile, OpenOptions, TryLockError};
use std::io::{ErrorKind, Write};
use std::os::unix::fs::OpenOptionsExt;
use std::rt::Files;
use std::{fs, io};

// What the owner may do with a file.
const OWNERS: u32 = 0o600;

/// Makes a file with a text where there is none, and gives whether it is surely on the disk. The group and all others may do with
/// it what these bits say and the process's mask leaves. Whoever looks finds no file or the whole text. Until then that stands
/// beside it, in a file that the next call removes where this one was stopped.
///
/// It is refused with `Exists` where there is a file of that name, or where another call is making one.
pub fn make_file<R: AllocGlobal + Files<File = File>>(
    rt: &R,
    path: &str,
    text: &[u8],
    bits: u32,
) -> Result<bool, Cause> {
    let (folder, name) = match path.rsplit_once('/') {
        Some((folder, name)) => (folder, name),
        None => (".", path),
    };
    let Ok(temporary) = format!(in rt.alloc(); "{folder}/.{name}.orgq") else {
        return Err(Cause::Memory);
    };
    match make_beside(rt, temporary.as_str(), path, text, OWNERS | bits) {
        Ok(()) => Ok(is_listed(rt, folder)),
        Err(error) => Err(Cause::of(&error)),
    }
}

// Makes it under the name of a temporary file first, which is gone then.
fn make_beside<R: Files<File = File>>(
    rt: &R,
    temporary: &str,
    path: &str,
    text: &[u8],
    mode: u32,
) -> io::Result<()> {
    let mut file = locked_at(rt, temporary, mode)?;
    let filled = match file.write_all(text) {
        Ok(()) => file.sync_all(),
        Err(error) => Err(error),
    };
    let placed = match filled {
        Ok(()) => place(rt, temporary, path),
        Err(error) => Err(error),
    };
    let removed = fs::remove_file(rt, temporary);
    placed?;
    match removed {
        Err(error) if error.kind() != ErrorKind::NotFound => Err(error),
        _ => Ok(()),
    }
}

// Gives a file its name, which none has.
fn place<R: Files<File = File>>(rt: &R, temporary: &str, path: &str) -> io::Result<()> {
    match fs::hard_link(rt, temporary, path) {
        Err(error) if error.kind() != ErrorKind::AlreadyExists => place_alone(rt, temporary, path),
        linked => linked,
    }
}

// The same where a file can have one name alone.
fn place_alone<R: Files<File = File>>(rt: &R, temporary: &str, path: &str) -> io::Result<()> {
    match fs::symlink_metadata(rt, path) {
        Ok(_) => Err(io::Error::from(ErrorKind::AlreadyExists)),
        Err(error) if error.kind() == ErrorKind::NotFound => fs::rename(rt, temporary, path),
        Err(error) => Err(error),
    }
}

// Makes a temporary file and locks it, after one that a program left which was stopped is removed.
fn locked_at<R: Files<File = File>>(rt: &R, path: &str, mode: u32) -> io::Result<File> {
    let mut options = OpenOptions::new();
    options.write(true).create_new(true).mode(mode);
    let file = match open_apart(rt, &options, path) {
        Err(error) if error.kind() == ErrorKind::AlreadyExists => {
            clear(rt, path)?;
            open_apart(rt, &options, path)?
        }
        made => made?,
    };
    match file.try_lock() {
        Err(TryLockError::WouldBlock) => Err(io::Error::from(ErrorKind::AlreadyExists)),
        _ => Ok(file),
    }
}

// Removes a temporary file that no program has locked.
fn clear<R: Files<File = File>>(rt: &R, path: &str) -> io::Result<()> {
    if !fs::symlink_metadata(rt, path)?.is_file() {
        return Err(io::Error::from(ErrorKind::AlreadyExists));
    }
    let file = open_apart(rt, OpenOptions::new().read(true).write(true), path)?;
    match file.try_lock() {
        Ok(()) => fs::remove_file(rt, path),
        Err(_) => Err(io::Error::from(ErrorKind::AlreadyExists)),
    }
}

// Whether a folder's names are on the disk.
fn is_listed<R: Files<File = File>>(rt: &R, folder: &str) -> bool {
    let opened = if folder.is_empty() {
        fs::open(rt, "/")
    } else {
        fs::open(rt, folder)
    };
    match opened {
        Ok(folder) => folder.sync_all().is_ok(),
        Err(_) => false,
    }
}

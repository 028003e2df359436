//! A file that is to be changed: where it lies, and who else is at it.

use crate::editors::{Editor, unsaved_in};
use crate::{Access, Cause, Disk, Paths, open_apart};
use std::alloc::{AllocError, Global};
use std::fs::{File, Metadata, OpenFile, OpenOptions, TryLockError};
use std::os::unix::fs::MetadataExt;
use std::rt::{Env, Files};
use std::thread::sleep;
use std::time::{Clock, Duration};
use std::{fs, io};

/// Why a file isn't changed, before anything is done.
#[derive(Debug, Drop)]
pub enum Unfit {
    /// There is no such file.
    Missing,
    /// It is a folder, a pipe, a device or a socket.
    Irregular,
    /// It has other names, which would keep the old text.
    Linked,
    /// Nobody may write it.
    ReadOnly,
    /// Emacs has changes of it that aren't saved; so its lock says, with who has them. The lock stands beside it, by this name.
    InEmacs(String, String),
    /// Vim or Neovim has changes of it that aren't saved; so its swap file says, which stands beside it by this name, or there.
    InVim(String),
    /// Another program of this kind is changing it.
    Busy,
    /// The system didn't say.
    Failed(Cause),
}

impl From<io::Error> for Unfit {
    fn from(error: io::Error) -> Unfit {
        match Cause::of(&error) {
            Cause::Missing => Unfit::Missing,
            cause => Unfit::Failed(cause),
        }
    }
}

impl From<AllocError> for Unfit {
    fn from(_refused: AllocError) -> Unfit {
        Unfit::Failed(Cause::Memory)
    }
}

/// A file that may be changed, and the lock that this program has on it until it is dropped.
#[derive(Drop)]
pub struct Opened<'a, R: Files<File = File>> {
    /// The file and the temporary one beside it.
    pub disk: Disk<'a, R>,
    /// The lock.
    pub lock: Option<File>,
}

// How often a lock is tried, and how long is waited between.
const TRIES: u32 = 100;

const PAUSE_MS: u64 = 10;

/// Opens the file that a path leads to for a change, once nobody else of this kind has it. Links are followed first. What a
/// program that was stopped left beside it is removed.
pub fn open<'a, R: AllocGlobal + Clock + Env + Files<File = File>>(
    rt: &'a R,
    path: &str,
) -> Result<Opened<'a, R>, Unfit> {
    let real = fs::canonicalize(rt, path)?;
    let Some((folder, name)) = real.as_str().rsplit_once('/') else {
        return Err(Unfit::Irregular);
    };
    let _unlocked = fit(rt, real.as_str())?;
    let lock = take_lock(rt, real.as_str())?;
    let paths = paths_of(rt.alloc(), folder, name)?;
    if lock.is_some() {
        // Who has the lock is the only one that may have made them.
        let _ = fs::remove_file(rt, paths.temporary.as_str());
        let _ = fs::remove_file(rt, paths.second.as_str());
    }
    let found = fit(rt, real.as_str())?;
    if found.nlink() != 1 {
        return Err(Unfit::Linked);
    }
    match unsaved_in(rt, folder, name)? {
        Some(Editor::Emacs(owner, lock)) => return Err(Unfit::InEmacs(owner, lock)),
        Some(Editor::Vim(swap)) => return Err(Unfit::InVim(swap)),
        None => {}
    }
    Ok(Opened {
        disk: Disk::new(rt, paths, Access::of(&found)),
        lock,
    })
}

fn paths_of(alloc: Global, folder: &str, name: &str) -> Result<Paths, AllocError> {
    Ok(Paths {
        target: format!(in alloc; "{folder}/{name}")?,
        temporary: format!(in alloc; "{folder}/.{name}.orgq")?,
        second: format!(in alloc; "{folder}/.{name}.orgw")?,
        rescue: rescue_front(alloc, folder, name)?,
        folder: format!(in alloc; "{folder}/")?,
    })
}

// The path of a file that keeps what was found, but for its last digit, for which there is room.
fn rescue_front(alloc: Global, folder: &str, name: &str) -> Result<String, AllocError> {
    let mut path = format!(in alloc; "{folder}/{name}.orgq")?;
    path.reserve(1)?;
    Ok(path)
}

// What the system says of a file that may be changed.
fn fit<R: Files<File = File>>(rt: &R, path: &str) -> Result<Metadata, Unfit> {
    let found = fs::symlink_metadata(rt, path)?;
    if !found.is_file() {
        return Err(Unfit::Irregular);
    }
    if found.permissions().readonly() {
        return Err(Unfit::ReadOnly);
    }
    Ok(found)
}

// The lock of the file that a path leads to; none where the file system knows no locks. It is waited for, for a while.
fn take_lock<R: Clock + Files<File = File>>(rt: &R, path: &str) -> Result<Option<File>, Unfit> {
    for _ in 0..TRIES {
        let file = open_apart(rt, OpenOptions::new().read(true).write(true), path)?;
        match file.try_lock() {
            Ok(()) => {
                if is_still(rt, &file, path)? {
                    return Ok(Some(file));
                }
            }
            Err(TryLockError::WouldBlock) => sleep(rt, Duration::from_millis(PAUSE_MS)),
            Err(TryLockError::Error(_)) => return Ok(None),
        }
    }
    Err(Unfit::Busy)
}

// Whether a path still leads to an open file, and not to one that took its place meanwhile.
fn is_still<R: Files<File = File>>(rt: &R, file: &File, path: &str) -> io::Result<bool> {
    let (here, there) = (file.metadata()?, fs::symlink_metadata(rt, path)?);
    Ok(here.dev() == there.dev() && here.ino() == there.ino())
}

//! Histories on the disk.

use crate::folder::history_path;
use crate::unkept::Unkept;
use org_history::history_at;
use org_save::{Cause, Disk, Opened, Unfit, Unsaved, Why, make_file, open, replace};
use orgq_files::real_path;
use std::alloc::Global;
use std::fs;
use std::fs::File;
use std::io::ErrorKind;
use std::rt::{Env, Files};
use std::time::Clock;

/// The bytes of the history at a path; none where there is no such file.
pub fn read_past<R: AllocGlobal + Files>(rt: &R, place: &str) -> Result<Option<Vec<u8>>, Unkept> {
    match fs::read(rt, place) {
        Ok(bytes) => Ok(Some(bytes)),
        Err(error) => match error.kind() {
            ErrorKind::NotFound | ErrorKind::NotADirectory => Ok(None),
            ErrorKind::OutOfMemory => Err(Unkept::Memory),
            _ => Err(Unkept::Because(UNREAD)),
        },
    }
}

const UNREAD: &str = "what was changed before can't be read";

/// Refuses bytes that are no history of the file with a path.
pub fn check_past(bytes: &[u8], path: &str) -> Result<(), Unkept> {
    match history_at(bytes) {
        Some(history) if history.path == path.as_bytes() => Ok(()),
        _ => Err(Unkept::Because(FOREIGN)),
    }
}

const FOREIGN: &str = "what stands in place of what was changed before is another program's";

/// The bytes of the history of the file that a name leads to, if it has one.
pub fn past_of<R: AllocGlobal + Files>(
    rt: &R,
    folder: &str,
    name: &str,
) -> Result<Option<Vec<u8>>, Unkept> {
    let path = real_path(rt, name)?;
    past_at(rt, folder, path.as_str())
}

// The same of the file with a path.
fn past_at<R: AllocGlobal + Files>(
    rt: &R,
    folder: &str,
    path: &str,
) -> Result<Option<Vec<u8>>, Unkept> {
    let place = history_path(rt.alloc(), folder, path)?;
    let Some(bytes) = read_past(rt, place.as_str())? else {
        return Ok(None);
    };
    check_past(bytes.as_slice(), path)?;
    Ok(Some(bytes))
}

/// Puts a history in the place of an older one, or where there is none.
pub fn write_past<R: AllocGlobal + Clock + Env + Files<File = File>>(
    rt: &R,
    place: &str,
    old: Option<&[u8]>,
    new: &[u8],
) -> Result<(), Unkept> {
    let Some(old) = old else {
        return match make_file(rt, place, new, 0) {
            Ok(_) => Ok(()),
            Err(cause) => Err(why_unmade(cause)),
        };
    };
    match open(rt, place) {
        Ok(mut opened) => replace_past(rt.alloc(), &mut opened, old, new),
        Err(Unfit::Failed(cause)) => Err(why_unmade(cause)),
        Err(_) => Err(Unkept::Because(UNWRITTEN)),
    }
}

fn replace_past<R: AllocGlobal + Files<File = File>>(
    alloc: Global,
    opened: &mut Opened<'_, R>,
    old: &[u8],
    new: &[u8],
) -> Result<(), Unkept> {
    let disk: &mut Disk<'_, R> = &mut opened.disk;
    match replace(alloc, disk, old, new) {
        Ok(_) => Ok(()),
        Err(unsaved) => Err(why_unreplaced(unsaved)),
    }
}

fn why_unreplaced(unsaved: Unsaved) -> Unkept {
    match unsaved.why {
        Why::Failed(_, cause) => why_unmade(cause),
        Why::Changed => Unkept::Because(UNWRITTEN),
    }
}

fn why_unmade(cause: Cause) -> Unkept {
    match cause {
        Cause::Memory => Unkept::Memory,
        Cause::Full => Unkept::Because("no room on the device of what was changed"),
        Cause::Denied => Unkept::Because("the folder of what was changed can't be written"),
        _ => Unkept::Because(UNWRITTEN),
    }
}

const UNWRITTEN: &str = "what was changed can't be written down";

//! The file with the last change.

use crate::past::past_of;
use crate::unkept::Unkept;
use org_history::{change_at, history_at, settled_changes};
use orgq_files::{LeftOut, read_text};
use orgq_messages::say_of;
use std::alloc::{AllocError, Global};
use std::rt::Files;

/// Which of some files has the newest change.
#[derive(Clone, Copy, Debug)]
pub struct Newest<'a> {
    /// Its name; none where none has any.
    pub name: Option<&'a str>,
    /// Whether one can't be read that may have a newer one.
    pub left_out: bool,
}

// When the newest change of a file was made.
#[derive(Clone, Copy)]
enum Made {
    // It has none.
    Never,
    // By the system's clock.
    At(u64),
    // What it has can't be read, which was said.
    Unread,
}

/// Which of some files has the newest change. What can't be read is said.
pub fn newest_of<'a, R: AllocGlobal + Files + Eprint>(
    rt: &R,
    folder: &str,
    names: &'a [String],
) -> Result<Newest<'a>, AllocError> {
    let mut newest = Newest {
        name: None,
        left_out: false,
    };
    let mut order = 0u64;
    for name in names {
        match made_in(rt, folder, name.as_str())? {
            Made::Never => {}
            Made::Unread => newest.left_out = true,
            Made::At(found) => {
                if newest.name.is_none() || found > order {
                    newest.name = Some(name.as_str());
                    order = found;
                }
            }
        }
    }
    Ok(newest)
}

// When the newest change of a file was made.
fn made_in<R: AllocGlobal + Files + Eprint>(
    rt: &R,
    folder: &str,
    name: &str,
) -> Result<Made, AllocError> {
    match past_of(rt, folder, name) {
        Ok(Some(bytes)) => made_by(rt, name, bytes.as_slice()),
        Ok(None) => Ok(Made::Never),
        Err(Unkept::Memory) => Err(AllocError),
        Err(Unkept::Because(why)) => {
            say_of(rt, name, why);
            Ok(Made::Unread)
        }
    }
}

// The same by the bytes of its history.
fn made_by<R: AllocGlobal + Files + Eprint>(
    rt: &R,
    name: &str,
    bytes: &[u8],
) -> Result<Made, AllocError> {
    match read_text(rt, name) {
        Ok(text) => made_of(rt.alloc(), bytes, text.as_str()),
        Err(LeftOut::Memory) => Err(AllocError),
        Err(LeftOut::Because(why)) => {
            say_of(rt, name, why);
            Ok(Made::Unread)
        }
    }
}

// The same by the text that it has. Where that was edited since, the newest change still is the last one.
fn made_of(alloc: Global, bytes: &[u8], text: &str) -> Result<Made, AllocError> {
    let Some(history) = history_at(bytes) else {
        return Ok(Made::Never);
    };
    let changes = settled_changes(alloc, &history, text.as_bytes())?.unwrap_or(history.changes);
    match change_at(changes) {
        Some((newest, _)) => Ok(Made::At(newest.order)),
        None => Ok(Made::Never),
    }
}

//! A file whose last change is to be taken back, and that change.

use crate::past::past_of;
use crate::unkept::Unkept;
use org_act::TakingBack;
use org_history::{History, KeptChange, change_at, history_at, settled_changes};
use orgq_args::Look;
use orgq_files::{LeftOut, read_text};
use orgq_messages::{LEFT_OUT, NO_MATCH, out_of_memory, say, say_of};
use std::alloc::Global;
use std::rt::Files;
use std::str;

/// The folder of histories, the name of a file, and how what is done is printed.
#[derive(Clone, Copy, Debug)]
pub struct Asked<'a> {
    pub folder: &'a str,
    pub name: &'a str,
    pub look: Look,
}

/// The text that a file has, and the bytes of its history.
#[derive(Debug, Drop)]
pub struct Found {
    pub text: String,
    pub bytes: Vec<u8>,
}

/// The text of the file that is asked, and its history. Where there is none, or one can't be read, it is said, and the exit status
/// comes.
pub fn find<R: AllocGlobal + Files + Eprint>(rt: &R, asked: &Asked<'_>) -> Result<Found, u8> {
    match past_of(rt, asked.folder, asked.name) {
        Ok(Some(bytes)) => with_text(rt, asked, bytes),
        Ok(None) => Err(say_nothing(rt)),
        Err(why) => Err(say_unread(rt, asked, why)),
    }
}

fn with_text<R: AllocGlobal + Files + Eprint>(
    rt: &R,
    asked: &Asked<'_>,
    bytes: Vec<u8>,
) -> Result<Found, u8> {
    match read_text(rt, asked.name) {
        Ok(text) => Ok(Found { text, bytes }),
        Err(LeftOut::Memory) => Err(out_of_memory(rt)),
        Err(LeftOut::Because(why)) => {
            say_of(rt, asked.name, why);
            Err(LEFT_OUT)
        }
    }
}

/// Says that there is nothing to take back, and gives the exit status.
pub fn say_nothing<R: AllocGlobal + Eprint>(rt: &R) -> u8 {
    say(
        rt,
        "no change of these files is kept that could be taken back",
    );
    NO_MATCH
}

// Says why a history can't be read, and gives the exit status.
fn say_unread<R: AllocGlobal + Eprint>(rt: &R, asked: &Asked<'_>, why: Unkept) -> u8 {
    match why {
        Unkept::Memory => out_of_memory(rt),
        Unkept::Because(why) => {
            say_of(rt, asked.name, why);
            LEFT_OUT
        }
    }
}

/// The last change of a file, and what its history has besides.
#[derive(Clone, Copy, Debug)]
pub struct Last<'a> {
    /// The act that takes it back. It is refused where the file's text isn't the one that the change left.
    pub act: TakingBack<'a>,
    /// The path in the history.
    pub path: &'a [u8],
    /// The older changes.
    pub older: &'a [u8],
}

/// The last change of a file that was found. Where there is none it is said, and the exit status comes.
pub fn last_of<'a, R: AllocGlobal + Eprint>(
    rt: &R,
    asked: &Asked<'_>,
    found: &'a Found,
) -> Result<Last<'a>, u8> {
    let Some(history) = history_at(found.bytes.as_slice()) else {
        return Err(say_nothing(rt));
    };
    match last_in(rt.alloc(), &history, found.text.as_str()) {
        Ok(Some(last)) => Ok(last),
        Ok(None) => Err(say_nothing(rt)),
        Err(why) => Err(say_unread(rt, asked, why)),
    }
}

fn last_in<'a>(
    alloc: Global,
    history: &History<'a>,
    text: &'a str,
) -> Result<Option<Last<'a>>, Unkept> {
    let (left, changes) = match settled_changes(alloc, history, text.as_bytes())? {
        Some(changes) => (text, changes),
        None => (str::from_utf8(history.left).unwrap_or(""), history.changes),
    };
    let Some((newest, older)) = change_at(changes) else {
        return Ok(None);
    };
    match act_of(&newest, left) {
        Some(act) => Ok(Some(Last {
            act,
            path: history.path,
            older,
        })),
        None => Err(Unkept::Because("what is kept of its last change is damaged")),
    }
}

// The act that takes a change back which left a text; none where the change cuts a character.
fn act_of<'a>(change: &KeptChange<'a>, left: &'a str) -> Option<TakingBack<'a>> {
    if !left.is_char_boundary(change.at as usize) {
        return None;
    }
    Some(TakingBack {
        at: change.at,
        deleted: str::from_utf8(change.deleted).ok()?,
        inserted: str::from_utf8(change.inserted).ok()?,
        left,
    })
}

//! What would be taken back.

use crate::found::Asked;
use crate::keeping::MOST_CHANGES;
use crate::lines::push_change;
use crate::past::past_of;
use crate::unkept::Unkept;
use org_answer::push_file_name;
use org_client::push_clock_minute;
use org_history::{change_at, history_at, settled_changes, text_before};
use orgq_args::Look;
use orgq_files::{LeftOut, read_text};
use orgq_messages::{print_all, say_of, status_of};
use std::alloc::{AllocError, Global};
use std::rt::Files;
use std::str;

// A change that would be taken back: when it was made, and what is printed of it.
#[derive(Drop)]
struct Listed {
    order: u64,
    lines: Vec<u8>,
}

/// Prints what would be taken back of some files, the newest first, and gives the exit status, which is 1 where there is nothing.
/// What can't be read, and which files were edited since, is said.
pub fn print_kept<R: AllocGlobal + Files + Print + Eprint>(
    rt: &R,
    folder: &str,
    names: &[String],
    look: Look,
) -> Result<u8, AllocError> {
    let mut all = Vec::new(rt.alloc());
    for name in names {
        let asked = Asked {
            folder,
            name: name.as_str(),
            look,
        };
        push_kept(rt, &mut all, &asked)?;
    }
    all.sort_by_key(|listed: &Listed| u64::MAX - listed.order)?;
    let status = status_of(!all.is_empty(), false);
    if look.is_quiet {
        return Ok(status);
    }
    let lines = joined_lines(rt.alloc(), all.as_slice())?;
    Ok(print_all(rt, lines.as_slice(), status))
}

fn joined_lines(alloc: Global, all: &[Listed]) -> Result<Vec<u8>, AllocError> {
    let mut lines = Vec::new(alloc);
    for listed in all {
        lines.extend_from_slice(listed.lines.as_slice())?;
    }
    Ok(lines)
}

// Puts the changes of a file after others.
fn push_kept<R: AllocGlobal + Files + Eprint>(
    rt: &R,
    all: &mut Vec<Listed>,
    asked: &Asked<'_>,
) -> Result<(), AllocError> {
    match past_of(rt, asked.folder, asked.name) {
        Ok(Some(bytes)) => push_past(rt, all, asked, bytes.as_slice()),
        Ok(None) => Ok(()),
        Err(Unkept::Memory) => Err(AllocError),
        Err(Unkept::Because(why)) => {
            say_of(rt, asked.name, why);
            Ok(())
        }
    }
}

// The same by the bytes of its history.
fn push_past<R: AllocGlobal + Files + Eprint>(
    rt: &R,
    all: &mut Vec<Listed>,
    asked: &Asked<'_>,
    bytes: &[u8],
) -> Result<(), AllocError> {
    match read_text(rt, asked.name) {
        Ok(text) => push_of(rt, all, asked, bytes, text.as_str()),
        Err(LeftOut::Memory) => Err(AllocError),
        Err(LeftOut::Because(why)) => {
            say_of(rt, asked.name, why);
            Ok(())
        }
    }
}

// The same by the text that it has.
fn push_of<R: AllocGlobal + Eprint>(
    rt: &R,
    all: &mut Vec<Listed>,
    asked: &Asked<'_>,
    bytes: &[u8],
    text: &str,
) -> Result<(), AllocError> {
    let Some(history) = history_at(bytes) else {
        return Ok(());
    };
    match settled_changes(rt.alloc(), &history, text.as_bytes())? {
        Some(changes) => push_changes(rt.alloc(), all, asked, text, changes),
        None => {
            say_of(rt, asked.name, EDITED);
            Ok(())
        }
    }
}

/// What is said of a file whose text isn't the one that the last act left.
pub const EDITED: &str = "it isn't as the last change by orgq left it";

// The same of changes by which a text came to be.
fn push_changes(
    alloc: Global,
    all: &mut Vec<Listed>,
    asked: &Asked<'_>,
    text: &str,
    changes: &[u8],
) -> Result<(), AllocError> {
    let mut left = Vec::from_slice(alloc, text.as_bytes())?;
    let mut rest = changes;
    for _ in 0..MOST_CHANGES {
        let Some((change, older)) = change_at(rest) else {
            break;
        };
        let Some(before) = text_before(alloc, left.as_slice(), &change)? else {
            break;
        };
        let minute = change.minute;
        let lines = change_lines(alloc, asked, minute, before.as_slice(), left.as_slice())?;
        let order = change.order;
        all.push(Listed { order, lines })?;
        left = before;
        rest = older;
    }
    Ok(())
}

// What is said of a change that was made in a minute and made the second of these texts of the first.
fn change_lines<'a>(
    alloc: Global,
    asked: &Asked<'_>,
    minute: u64,
    before: &'a [u8],
    after: &'a [u8],
) -> Result<Vec<u8>, AllocError> {
    let mut lines = head_of(alloc, asked, minute)?;
    let old = text_of(before);
    let new = text_of(after);
    push_change(alloc, &mut lines, asked, old, new)?;
    Ok(lines)
}

// The text that bytes spell; an empty one where they are none.
fn text_of(bytes: &[u8]) -> &str {
    str::from_utf8(bytes).unwrap_or("")
}

// The line that says when a change was made in which file.
fn head_of(alloc: Global, asked: &Asked<'_>, minute: u64) -> Result<Vec<u8>, AllocError> {
    let mut moment = String::new(alloc);
    push_clock_minute(&mut moment, minute)?;
    let mut head = Vec::from_slice(alloc, moment.as_bytes())?;
    head.push(b' ')?;
    push_file_name(&mut head, asked.name, asked.look.is_seen)?;
    head.push(b'\n')?;
    Ok(head)
}

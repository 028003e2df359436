//! Keeping what an act is about to change.

use crate::folder::{history_folder, history_path, make_folder};
use crate::past::{check_past, read_past, write_past};
use crate::unkept::Unkept;
use org_act::OwnedChange;
use org_history::{KeptChange, history_at, history_with, newest_changes, settled_changes};
use orgq_files::real_path;
use std::alloc::{AllocError, Global};
use std::fs::File;
use std::rt::{Env, Files};
use std::time::Clock;

/// How many changes of a file are kept.
pub const MOST_CHANGES: u32 = 100;

// How many bytes of them are.
const MOST_BYTES: usize = 16 * 1024 * 1024;

// What is about to be done to a text.
#[derive(Clone, Copy)]
struct Step<'a> {
    text: &'a str,
    change: &'a OwnedChange,
    minute: u64,
    order: u64,
}

/// Keeps the change that an act is about to make in the text of a file, so that it can be taken back. Says why it can't; nothing
/// but the history is written.
pub fn keep<R: AllocGlobal + Clock + Env + Files<File = File>>(
    rt: &R,
    name: &str,
    text: &str,
    change: &OwnedChange,
    minute: u64,
) -> Result<(), Unkept> {
    let step = Step {
        text,
        change,
        minute,
        order: order_now(rt),
    };
    let Some(folder) = history_folder(rt)? else {
        return Err(Unkept::Because("neither XDG_STATE_HOME nor HOME names a folder"));
    };
    make_folder(rt, folder.as_str())?;
    keep_in(rt, folder.as_str(), name, &step)
}

// The nanoseconds of the system's clock since 1970; none where it can't be read.
fn order_now<R: Clock>(rt: &R) -> u64 {
    match rt.since_1970() {
        Ok(since) => {
            let seconds = since.as_secs().saturating_mul(1_000_000_000);
            seconds.saturating_add(u64::from(since.subsec_nanos()))
        }
        Err(_) => 0,
    }
}

// The same in the folder of histories.
fn keep_in<R: AllocGlobal + Clock + Env + Files<File = File>>(
    rt: &R,
    folder: &str,
    name: &str,
    step: &Step<'_>,
) -> Result<(), Unkept> {
    let path = real_path(rt, name)?;
    keep_at(rt, folder, path.as_str(), step)
}

// The same of the file with a path.
fn keep_at<R: AllocGlobal + Clock + Env + Files<File = File>>(
    rt: &R,
    folder: &str,
    path: &str,
    step: &Step<'_>,
) -> Result<(), Unkept> {
    let place = history_path(rt.alloc(), folder, path)?;
    let old = read_past(rt, place.as_str())?;
    match &old {
        Some(old) => replace_with(rt, place.as_str(), path, old.as_slice(), step),
        None => make_with(rt, place.as_str(), path, step),
    }
}

// Writes a step before the changes of a history.
fn replace_with<R: AllocGlobal + Clock + Env + Files<File = File>>(
    rt: &R,
    place: &str,
    path: &str,
    old: &[u8],
    step: &Step<'_>,
) -> Result<(), Unkept> {
    check_past(old, path)?;
    let changes = changes_of(rt.alloc(), old, step.text)?;
    let new = step_bytes(rt.alloc(), path, changes, step)?;
    write_past(rt, place, Some(old), new.as_slice())
}

// Writes a step as the only change.
fn make_with<R: AllocGlobal + Clock + Env + Files<File = File>>(
    rt: &R,
    place: &str,
    path: &str,
    step: &Step<'_>,
) -> Result<(), Unkept> {
    let new = step_bytes(rt.alloc(), path, &[], step)?;
    write_past(rt, place, None, new.as_slice())
}

// The changes of a history by which a text came to be; none where it was edited since.
fn changes_of<'a>(alloc: Global, old: &'a [u8], text: &str) -> Result<&'a [u8], AllocError> {
    let Some(history) = history_at(old) else {
        return Ok(&[]);
    };
    match settled_changes(alloc, &history, text.as_bytes())? {
        Some(changes) => Ok(changes),
        None => Ok(&[]),
    }
}

// The bytes of a history with a step before these changes.
fn step_bytes(alloc: Global, path: &str, older: &[u8], step: &Step<'_>) -> Result<Vec<u8>, Unkept> {
    let at = step.change.at as usize;
    let end = at.saturating_add(step.change.del as usize);
    let Some(deleted) = step.text.get(at..end) else {
        return Err(Unkept::Because("it cuts a character"));
    };
    let inserted = step.change.ins.as_bytes();
    let size = deleted.len().saturating_add(inserted.len());
    if size > MOST_BYTES {
        return Err(Unkept::Because("it is longer than 16 MiB"));
    }
    let kept = KeptChange {
        minute: step.minute,
        order: step.order,
        at: step.change.at,
        deleted: deleted.as_bytes(),
        inserted,
    };
    let older = newest_changes(older, MOST_CHANGES - 1, MOST_BYTES - size);
    let text = step.text.as_bytes();
    Ok(history_with(alloc, path.as_bytes(), text, &kept, older)?)
}

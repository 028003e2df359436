//! Where histories lie.

use crate::unkept::Unkept;
use orgq_messages::{Problem, Variable, value_of};
use sha2::{Digest, Sha256};
use std::alloc::{AllocError, Global};
use std::fs;
use std::fs::DirBuilder;
use std::os::unix::fs::DirBuilderExt;
use std::rt::{Env, Files};

/// The folder of histories, in the state folder; none where no variable of the environment names one.
pub fn history_folder<R: AllocGlobal + Files + Env>(rt: &R) -> Result<Option<String>, Problem> {
    match value_of(rt, Variable::State)? {
        Some(state) if !state.as_str().is_empty() => {
            Ok(Some(format!(in rt.alloc(); "{state}/orgq/undo")?))
        }
        _ => home_folder(rt),
    }
}

// The same in the home folder, if there is one.
fn home_folder<R: AllocGlobal + Files + Env>(rt: &R) -> Result<Option<String>, Problem> {
    let Some(home) = value_of(rt, Variable::Home)? else {
        return Ok(None);
    };
    if !fs::metadata(rt, home.as_str()).is_ok_and(|found| found.is_dir()) {
        return Ok(None);
    }
    Ok(Some(format!(in rt.alloc(); "{home}/.local/state/orgq/undo")?))
}

// What the owner alone may do with a folder.
const OWNERS: u32 = 0o700;

/// Makes the folder of histories where it isn't there: its owner alone may look into it.
pub fn make_folder<R: Files>(rt: &R, folder: &str) -> Result<(), Unkept> {
    let mut builder = DirBuilder::new();
    builder.recursive(true).mode(OWNERS);
    match builder.create(rt, folder) {
        Ok(()) => Ok(()),
        Err(_) => Err(Unkept::Because("the folder of what was changed can't be made")),
    }
}

/// The path of the history of the file with a path: a name of its own for each path.
pub fn history_path(alloc: Global, folder: &str, path: &str) -> Result<String, AllocError> {
    let digest = Sha256::digest(path.as_bytes());
    let mut place = format!(in alloc; "{folder}/")?;
    push_digits(&mut place, digest.as_slice())?;
    Ok(place)
}

// Appends bytes by their digits, two for each.
fn push_digits(text: &mut String, bytes: &[u8]) -> Result<(), AllocError> {
    for byte in bytes {
        text.push(digit(*byte / 16))?;
        text.push(digit(*byte % 16))?;
    }
    Ok(())
}

// The digit of a number below 16.
fn digit(number: u8) -> char {
    match number {
        0..10 => char::from(b'0' + number),
        10..16 => char::from(b'a' + (number - 10)),
        _ => '-',
    }
}

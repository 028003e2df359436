//! The command `undo`.

use crate::back::take_back;
use crate::folder::history_folder;
use crate::found::say_nothing;
use crate::listing::print_kept;
use crate::newest::newest_of;
use clap::ArgMatches;
use orgq_args::{UndoWish, read_undo};
use orgq_files::{paths, push_paths};
use orgq_messages::{LEFT_OUT, Problem, say_of};
use std::alloc::AllocError;
use std::fs::File;
use std::io::ErrorKind;
use std::rt::{Env, Files};
use std::slice;
use std::time::Clock;

/// Takes the last change of a file back, or lists what would be taken back, and gives the exit status.
pub fn undo<R: AllocGlobal + Clock + Env + Files<File = File> + Print + Eprint + Clone + Drop>(
    rt: &R,
    matches: &ArgMatches<'_>,
    own: &ArgMatches<'_>,
    is_seen: bool,
) -> Result<u8, Problem> {
    let wish = read_undo(matches, own, is_seen)?;
    let asked = match own.get_str("FILE") {
        Some(file) => paths(rt, matches, slice::from_ref(&file))?,
        None => paths(rt, matches, &[])?,
    };
    let Some(folder) = history_folder(rt)? else {
        return Err(Problem::State);
    };
    let names = names_of(rt, asked.as_slice())?;
    undo_in(rt, folder.as_str(), names.as_slice(), &wish)
}

// The same by the folder of histories and the names of the files that are asked.
fn undo_in<R: AllocGlobal + Clock + Env + Files<File = File> + Print + Eprint>(
    rt: &R,
    folder: &str,
    names: &[String],
    wish: &UndoWish,
) -> Result<u8, Problem> {
    if wish.is_list {
        return Ok(print_kept(rt, folder, names, wish.look)?);
    }
    let newest = newest_of(rt, folder, names)?;
    if newest.left_out {
        return Ok(LEFT_OUT);
    }
    match newest.name {
        Some(name) => Ok(take_back(rt, folder, name, wish)),
        None => Ok(say_nothing(rt)),
    }
}

// The files that paths stand for; which can't be read is said.
fn names_of<R: AllocGlobal + Files + Eprint + Clone + Drop>(
    rt: &R,
    paths: &[String],
) -> Result<Vec<String>, AllocError> {
    let mut names = Vec::new(rt.alloc());
    for path in paths {
        match push_paths(rt, &mut names, path.as_str()) {
            Ok(_) => {}
            Err(error) if error.kind() == ErrorKind::OutOfMemory => return Err(AllocError),
            Err(_) => say_of(rt, path.as_str(), "can't be read"),
        }
    }
    Ok(names)
}

//! The configuration folder, and its list of files.

use crate::files::{LeftOut, read_whole};
use orgq_messages::{Problem, Variable, value_of};
use std::alloc::{AllocError, Global};
use std::fs;
use std::io::ErrorKind;
use std::rt::{Env, Files};

/// The path that stands for standard input.
pub const INPUT: &str = "-";

/// The configuration folder's list of files: its path, its text, and the folder that `~/` stands for in it.
#[derive(Debug, Drop)]
pub struct FileList {
    pub path: String,
    pub text: String,
    pub home: String,
}

/// The configuration folder's list of files, which is empty where there is none.
pub fn read_list<R: AllocGlobal + Files + Env>(rt: &R) -> Result<FileList, Problem> {
    let home = match value_of(rt, Variable::Home)? {
        Some(home) => home,
        None => String::new(rt.alloc()),
    };
    let path = folder_path(rt, home.as_str(), "files")?;
    let text = match text_of_list(rt, path.as_str(), Problem::List)? {
        Some(text) => text,
        None => String::new(rt.alloc()),
    };
    Ok(FileList { path, text, home })
}

/// The path of a file of the configuration folder.
pub fn folder_path<R: AllocGlobal + Env>(
    rt: &R,
    home: &str,
    name: &str,
) -> Result<String, Problem> {
    let folder = value_of(rt, Variable::Config)?;
    match folder {
        Some(folder) if !folder.as_str().is_empty() => {
            Ok(format!(in rt.alloc(); "{folder}/orgq/{name}")?)
        }
        _ => Ok(format!(in rt.alloc(); "{home}/.config/orgq/{name}")?),
    }
}

/// The text of a file, if there is such a file; where it can't be read this is the problem.
pub fn text_of_list<R: AllocGlobal + Files>(
    rt: &R,
    path: &str,
    unread: Problem,
) -> Result<Option<String>, Problem> {
    match fs::metadata(rt, path) {
        Ok(metadata) if metadata.is_file() => {}
        Ok(_) => return Err(unread),
        Err(error) => {
            return match error.kind() {
                ErrorKind::NotFound | ErrorKind::NotADirectory => Ok(None),
                _ => Err(unread),
            };
        }
    }
    let Ok(mut file) = fs::open(rt, path) else {
        return Err(unread);
    };
    match read_whole(rt.alloc(), &mut file) {
        Ok(bytes) => match String::from_utf8(bytes) {
            Ok(text) => Ok(Some(text)),
            Err(_) => Err(unread),
        },
        Err(LeftOut::Memory) => Err(Problem::from(AllocError)),
        Err(LeftOut::Because(_)) => Err(unread),
    }
}

/// Puts the paths between separators after others, but for empty ones and comments; `~/` in front of one stands for a folder.
pub fn push_listed(
    alloc: Global,
    paths: &mut Vec<String>,
    text: &str,
    separator: char,
    home: &str,
) -> Result<(), AllocError> {
    for part in text.split(separator) {
        if let Some(word) = listed_word(part) {
            paths.push(path_of(alloc, word, home)?)?;
        }
    }
    Ok(())
}

/// The word of a part of a list, if it is neither empty nor a comment.
pub fn listed_word(part: &str) -> Option<&str> {
    let word = part.trim();
    if word.is_empty() || word.starts_with('#') {
        None
    } else {
        Some(word)
    }
}

/// The path that a word of a file means: `~/` in front stands for a folder. A file names files alone, and not standard input.
pub fn path_of(alloc: Global, word: &str, home: &str) -> Result<String, AllocError> {
    match word.strip_prefix("~/") {
        Some(rest) if !home.is_empty() => format!(in alloc; "{home}/{rest}"),
        _ if word == INPUT => String::from_str(alloc, "./-"),
        _ => String::from_str(alloc, word),
    }
}

//! The files that are asked.

use crate::keywords::with_keywords;
use org_base::{Code, Fault};
use org_client::FileSet;
use org_text::{MAX_BYTES, Text, Whole};
use std::alloc::{AllocError, Global};
use std::fs::OpenFile;
use std::io::{ErrorKind, Read};
use std::os::unix::fs::MetadataExt;
use std::rt::Files;
use std::{fs, io};

/// Why a file is left out, or why nothing more is read.
#[derive(Clone, Copy, Debug)]
pub enum LeftOut {
    Memory,
    Because(&'static str),
}

impl From<AllocError> for LeftOut {
    fn from(_refused: AllocError) -> LeftOut {
        LeftOut::Memory
    }
}

impl From<Fault> for LeftOut {
    fn from(fault: Fault) -> LeftOut {
        match fault.code() {
            Code::Memory => LeftOut::Memory,
            Code::Size => LeftOut::Because(TOO_LONG),
            code => LeftOut::Because(code.name()),
        }
    }
}

/// Where a file is named, and the path by which it is told from others.
#[derive(Clone, Copy, Debug)]
pub struct Named<'a> {
    pub name: &'a str,
    pub path: &'a str,
}

/// Files that come one by one, none of them twice.
pub trait FileSink {
    /// Whether a file of this path is there.
    fn has_path(&self, path: &str) -> bool;

    /// Whether there are as many files as there may be.
    fn is_complete(&self) -> bool;

    /// Adds the text of a file under its name, with these keywords where it has none of its own. Where it can't be added
    /// the files that were there are left.
    fn take(
        &mut self,
        alloc: Global,
        named: Named<'_>,
        text: String,
        keywords: Option<&str>,
    ) -> Result<(), Fault>;
}

impl FileSink for FileSet<Whole> {
    fn has_path(&self, path: &str) -> bool {
        self.has(path)
    }

    fn is_complete(&self) -> bool {
        self.is_full()
    }

    fn take(
        &mut self,
        alloc: Global,
        named: Named<'_>,
        text: String,
        keywords: Option<&str>,
    ) -> Result<(), Fault> {
        let own = text.len();
        let text = match keywords {
            Some(words) => with_keywords(alloc, text, words)?,
            None => text,
        };
        let behind = text.len().saturating_sub(own);
        let name = String::from_str(alloc, named.name)?;
        let path = String::from_str(alloc, named.path)?;
        self.add_behind(name, path, Whole::of_string(alloc, text)?, behind)
    }
}

/// Reads a file whole and adds it to a set under its name, with these keywords where it has none of its own. Where it can't
/// be added the set has the files that it had.
pub fn load<R: AllocGlobal + Files, S: FileSink>(
    rt: &R,
    set: &mut S,
    named: Named<'_>,
    keywords: Option<&str>,
) -> Result<(), LeftOut> {
    let text = read_text(rt, named.name)?;
    Ok(set.take(rt.alloc(), named, text, keywords)?)
}

/// Reads standard input to its end and adds it to a set under a name, as [`load`] does a file.
pub fn load_input<R: AllocGlobal + Input, S: FileSink>(
    rt: &R,
    set: &mut S,
    named: Named<'_>,
    keywords: Option<&str>,
) -> Result<(), LeftOut> {
    check_name(named.name)?;
    Ok(set.take(rt.alloc(), named, read_input(rt)?, keywords)?)
}

/// Standard input, to its end.
pub fn read_input<R: AllocGlobal + Input>(rt: &R) -> Result<String, LeftOut> {
    let mut bytes = Vec::new(rt.alloc());
    let mut input = rt.reader().take(MAX_BYTES as u64 + 1);
    let bytes = as_text(input.read_to_end(&mut bytes), bytes)?;
    text_of(bytes)
}

/// The text of a file, whole.
pub fn read_text<R: AllocGlobal + Files>(rt: &R, name: &str) -> Result<String, LeftOut> {
    check_name(name)?;
    match fs::open(rt, name) {
        Ok(mut file) => text_of(read_whole(rt.alloc(), &mut file)?),
        Err(error) => Err(why_closed(error.kind())),
    }
}

fn text_of(bytes: Vec<u8>) -> Result<String, LeftOut> {
    match String::from_utf8(bytes) {
        Ok(text) => Ok(text),
        Err(_) => Err(LeftOut::Because("not UTF-8")),
    }
}

fn check_name(name: &str) -> Result<(), LeftOut> {
    if name.chars().any(|character| character.is_control()) {
        return Err(LeftOut::Because("a control character in its name"));
    }
    Ok(())
}

fn why_closed(kind: ErrorKind) -> LeftOut {
    match kind {
        ErrorKind::OutOfMemory => LeftOut::Memory,
        ErrorKind::NotFound => LeftOut::Because("no such file"),
        ErrorKind::PermissionDenied => LeftOut::Because("may not be read"),
        _ => LeftOut::Because("can't be opened"),
    }
}

const TOO_LONG: &str = "more than 64 MiB";

/// The bytes that a file has left, if they are no more than a text may have.
pub fn read_whole<F: Read + OpenFile>(alloc: Global, file: &mut F) -> Result<Vec<u8>, LeftOut> {
    let mut bytes = Vec::with_capacity(alloc, room_for(file))?;
    let read = file.take(MAX_BYTES as u64 + 1).read_to_end(&mut bytes);
    as_text(read, bytes)
}

// The bytes that were read, if the read ended well and they are no more than a text may have.
fn as_text(read: io::Result<usize>, bytes: Vec<u8>) -> Result<Vec<u8>, LeftOut> {
    match read {
        Ok(_) if bytes.len() > MAX_BYTES => Err(LeftOut::Because(TOO_LONG)),
        Ok(_) => Ok(bytes),
        Err(error) if error.kind() == ErrorKind::OutOfMemory => Err(LeftOut::Memory),
        Err(_) => Err(LeftOut::Because("can't be read")),
    }
}

// Room for as many bytes as a file has, if a text may have so many, and for one more, so that the read that finds the end
// needs no other room.
fn room_for<F: OpenFile>(file: &F) -> usize {
    let length = file.metadata().map_or(0, |metadata| metadata.len());
    length.min(MAX_BYTES as u64) as usize + 1
}

/// The numbers by which the system knows a file, whatever its names: those of its device and of it there.
#[derive(Clone, Copy, Debug, PartialEq, Eq)]
pub struct FileNumber {
    device: u64,
    file: u64,
}

/// The numbers of the file that a path leads to, if it is a regular one and the system says them.
pub fn file_number<R: Files>(rt: &R, path: &str) -> Option<FileNumber> {
    match fs::metadata(rt, path) {
        Ok(found) if found.is_file() => Some(FileNumber {
            device: found.dev(),
            file: found.ino(),
        }),
        _ => None,
    }
}

/// The path by which a file is told from others: without links and dots, where the system can say it.
pub fn real_path<R: AllocGlobal + Files>(rt: &R, path: &str) -> Result<String, AllocError> {
    match fs::canonicalize(rt, path) {
        Ok(real) => Ok(real.into_string()),
        Err(error) if error.kind() == ErrorKind::OutOfMemory => Err(AllocError),
        Err(_) => String::from_str(rt.alloc(), path),
    }
}

/// Puts the files that a path stands for after others: itself, or of a folder its files `*.org` by their names, but for
/// hidden ones and what is no file. Gives how many names of the folder aren't UTF-8, and so are passed over.
pub fn push_paths<R: AllocGlobal + Files + Clone + Drop>(
    rt: &R,
    paths: &mut Vec<String>,
    path: &str,
) -> io::Result<u64> {
    if !fs::metadata(rt, path).is_ok_and(|metadata| metadata.is_dir()) {
        paths.push(String::from_str(rt.alloc(), path)?)?;
        return Ok(0);
    }
    let folder = path.trim_end_matches('/');
    let mut passed = 0u64;
    for entry in fs::read_dir(rt, path)? {
        match entry {
            Ok(entry) => push_entry(rt, paths, folder, entry.file_name())?,
            Err(error) if error.kind() == ErrorKind::InvalidFilename => {
                passed = passed.saturating_add(1);
            }
            Err(error) => return Err(error),
        }
    }
    paths.sort()?;
    Ok(passed)
}

// Puts a name of a folder after others, if it is one of a file that is meant; where a link leads nowhere, it is one.
fn push_entry<R: AllocGlobal + Files>(
    rt: &R,
    paths: &mut Vec<String>,
    folder: &str,
    name: &str,
) -> Result<(), AllocError> {
    if !name.ends_with(".org") || name.starts_with('.') {
        return Ok(());
    }
    let path = format!(in rt.alloc(); "{folder}/{name}")?;
    if fs::metadata(rt, path.as_str()).is_ok_and(|metadata| !metadata.is_file()) {
        return Ok(());
    }
    paths.push(path)?;
    Ok(())
}

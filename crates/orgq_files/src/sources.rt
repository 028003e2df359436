//! Which files are asked, and what comes of loading them.

use crate::file_list::{INPUT, push_listed, read_list};
use crate::files::{
    FileNumber, FileSink, LeftOut, Named, file_number, load, load_input, push_paths, real_path,
};
use clap::ArgMatches;
use org_base::{Fault, Texts};
use org_client::FileSet;
use org_text::Whole;
use orgq_messages::{Problem, Variable, nearest_command, say, say_of, value_of};
use std::alloc::{AllocError, Global};
use std::io::ErrorKind;
use std::rt::{Env, Files};

/// The paths that the arguments name, those of the command's own words last; without any those of `ORGQ_FILES`, else those of
/// the configuration folder's list.
pub fn paths<R: AllocGlobal + Files + Env>(
    rt: &R,
    matches: &ArgMatches<'_>,
    own: &[&str],
) -> Result<Vec<String>, Problem> {
    refuse_words(rt.alloc(), matches)?;
    let bare = matches.get_strs("PATH").unwrap_or(&[]);
    let named = matches.get_strs("file").unwrap_or(&[]);
    let has_input = named.contains(&INPUT) || own.contains(&INPUT);
    if matches.get_str("name").is_some() && !has_input {
        return Err(Problem::Name);
    }
    let paths = if named.is_empty() && bare.is_empty() && own.is_empty() {
        configured_paths(rt)?
    } else {
        join_paths(rt.alloc(), named, bare, own)?
    };
    if paths.is_empty() {
        return Err(Problem::Files);
    }
    Ok(paths)
}

/// Refuses words before a command that name neither a file nor a folder.
pub fn refuse_words(alloc: Global, matches: &ArgMatches<'_>) -> Result<(), Problem> {
    let bare = matches.get_strs("PATH").unwrap_or(&[]);
    match bare.iter().find(|word| !is_path(word)) {
        Some(word) => Err(Problem::Command(nearest_command(alloc, word)?)),
        None => Ok(()),
    }
}

fn join_paths(
    alloc: Global,
    named: &[&str],
    bare: &[&str],
    own: &[&str],
) -> Result<Vec<String>, AllocError> {
    let mut paths = Vec::new(alloc);
    push_each(alloc, &mut paths, named)?;
    push_each(alloc, &mut paths, bare)?;
    push_each(alloc, &mut paths, own)?;
    Ok(paths)
}

fn push_each(alloc: Global, paths: &mut Vec<String>, part: &[&str]) -> Result<(), AllocError> {
    for path in part {
        paths.push(String::from_str(alloc, path)?)?;
    }
    Ok(())
}

// The paths of `ORGQ_FILES`, else of the configuration folder's list.
fn configured_paths<R: AllocGlobal + Files + Env>(rt: &R) -> Result<Vec<String>, Problem> {
    let mut paths = Vec::new(rt.alloc());
    match value_of(rt, Variable::Files)? {
        Some(value) => push_listed(rt.alloc(), &mut paths, value.as_str(), ':', "")?,
        None => {
            let list = read_list(rt)?;
            push_listed(
                rt.alloc(),
                &mut paths,
                list.text.as_str(),
                '\n',
                list.home.as_str(),
            )?;
        }
    }
    Ok(paths)
}

/// How files are read: the keywords of those that have none of their own, and the name of the text on standard input.
#[derive(Clone, Copy, Debug)]
pub struct Reading<'a> {
    pub keywords: Option<&'a str>,
    pub name: &'a str,
}

impl<'a> Reading<'a> {
    /// What the arguments say of it.
    pub fn of(matches: &ArgMatches<'a>) -> Reading<'a> {
        Reading {
            keywords: matches.get_str("keywords"),
            name: matches.get_str("name").unwrap_or(INPUT),
        }
    }
}

// What came of files so far: by which numbers the system knows those that were loaded, whether some are left out, and how many
// past those that there may be.
#[derive(Drop)]
struct Progress {
    loaded: Vec<FileNumber>,
    is_some: bool,
    past: u64,
}

/// Loads the files that paths stand for, each once; says which can't be loaded, and gives whether there are such.
pub fn load_all<R: AllocGlobal + Files + Input + Eprint + Clone + Drop, S: FileSink>(
    rt: &R,
    set: &mut S,
    paths: &[String],
    reading: &Reading<'_>,
) -> Result<bool, AllocError> {
    let mut progress = Progress {
        loaded: Vec::new(rt.alloc()),
        is_some: false,
        past: 0,
    };
    for path in paths {
        load_path(rt, set, path.as_str(), reading, &mut progress)?;
    }
    let past = progress.past;
    if past > 0 {
        let text = format!(in rt.alloc(); "{past} files are left out: no more than 256 are read")?;
        say(rt, text.as_str());
    }
    Ok(progress.is_some || past > 0)
}

/// The files that are asked, and whether one was left out.
#[derive(Debug, Drop)]
pub struct Asked {
    pub file_set: FileSet<Whole>,
    pub left_out: bool,
}

/// The files that the arguments name, each read once; says which can't be read.
pub fn asked_files<R: AllocGlobal + Files + Env + Input + Eprint + Clone + Drop>(
    rt: &R,
    matches: &ArgMatches<'_>,
) -> Result<Asked, Problem> {
    let inherited = texts(rt.alloc(), matches.get_strs("inherit"))?;
    let mut file_set = FileSet::new(rt.alloc(), inherited);
    let paths = paths(rt, matches, &[])?;
    let left_out = load_all(rt, &mut file_set, paths.as_slice(), &Reading::of(matches))?;
    Ok(Asked { file_set, left_out })
}

/// The words of an option that may stand several times.
pub fn texts(alloc: Global, words: Option<&[&str]>) -> Result<Texts, Fault> {
    let mut texts = Texts::new(alloc);
    if let Some(words) = words {
        for word in words {
            texts.push(word.as_bytes())?;
        }
    }
    Ok(texts)
}

// Loads the files that a path stands for.
fn load_path<R: AllocGlobal + Files + Input + Eprint + Clone + Drop, S: FileSink>(
    rt: &R,
    set: &mut S,
    path: &str,
    reading: &Reading<'_>,
    progress: &mut Progress,
) -> Result<(), AllocError> {
    if path == INPUT {
        return load_file(rt, set, path, reading, progress);
    }
    let mut files = Vec::new(rt.alloc());
    match push_paths(rt, &mut files, path) {
        Ok(0) => {}
        Ok(passed) => {
            let why = format!(in rt.alloc(); "names that aren't UTF-8 are passed over: {passed}")?;
            leave_out(rt, path, why.as_str(), progress);
        }
        Err(error) if error.kind() == ErrorKind::OutOfMemory => return Err(AllocError),
        Err(_) => leave_out(rt, path, "can't be read", progress),
    }
    for file in files.as_slice() {
        load_file(rt, set, file.as_str(), reading, progress)?;
    }
    Ok(())
}

// Loads a file or standard input, unless it is there.
fn load_file<R: AllocGlobal + Files + Input + Eprint, S: FileSink>(
    rt: &R,
    set: &mut S,
    name: &str,
    reading: &Reading<'_>,
    progress: &mut Progress,
) -> Result<(), AllocError> {
    let path = real_path_of(rt, name)?;
    let number = number_of(rt, name);
    if set.has_path(path.as_str()) || is_loaded(progress, number) {
        return Ok(());
    }
    if set.is_complete() {
        progress.past = progress.past.saturating_add(1);
        return Ok(());
    }
    match load_one(rt, set, name, path.as_str(), reading) {
        Ok(()) => note_loaded(progress, number),
        Err(LeftOut::Memory) => Err(AllocError),
        Err(LeftOut::Because(why)) => {
            leave_out(rt, name, why, progress);
            Ok(())
        }
    }
}

// The number of a file; standard input is none.
fn number_of<R: Files>(rt: &R, name: &str) -> Option<FileNumber> {
    if name == INPUT {
        return None;
    }
    file_number(rt, name)
}

// Whether a file of this number was loaded, perhaps by another of its names.
fn is_loaded(progress: &Progress, number: Option<FileNumber>) -> bool {
    match number {
        Some(number) => progress.loaded.as_slice().contains(&number),
        None => false,
    }
}

fn note_loaded(progress: &mut Progress, number: Option<FileNumber>) -> Result<(), AllocError> {
    if let Some(number) = number {
        progress.loaded.push(number)?;
    }
    Ok(())
}

// The path by which a file is told from others; no file's is that of standard input.
fn real_path_of<R: AllocGlobal + Files>(rt: &R, name: &str) -> Result<String, AllocError> {
    if name == INPUT {
        return String::from_str(rt.alloc(), INPUT);
    }
    real_path(rt, name)
}

fn load_one<R: AllocGlobal + Files + Input, S: FileSink>(
    rt: &R,
    set: &mut S,
    name: &str,
    path: &str,
    reading: &Reading<'_>,
) -> Result<(), LeftOut> {
    let keywords = reading.keywords;
    if name == INPUT {
        let name = reading.name;
        return load_input(rt, set, Named { name, path }, keywords);
    }
    load(rt, set, Named { name, path }, keywords)
}

fn leave_out<R: Eprint + AllocGlobal>(rt: &R, path: &str, why: &str, progress: &mut Progress) {
    say_of(rt, path, why);
    progress.is_some = true;
}

/// Whether a word of the command line can't be mistaken: it names a file or a folder.
pub fn is_path(word: &str) -> bool {
    word.contains('/') || word.ends_with(".org")
}

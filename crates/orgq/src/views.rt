//! The views of one's own, and the command that lists them.

use crate::session::{wants_color, without_front};
use clap::ArgMatches;
use org_answer::{Form, push_seen};
use orgq_answers::Call;
use orgq_args::form;
use orgq_files::{ViewFile, read_view_files};
use orgq_messages::{BAD_ARGUMENTS, NO_MATCH, Problem, out_of_memory, print_all, say_of};
use orgq_views::{Block, Refusal, View, read_views};
use std::alloc::{AllocError, Global};

/// The views of the file of a path.
#[derive(Drop)]
pub struct Named {
    pub path: String,
    pub views: Vec<View>,
}

/// The views that there are, by their files, or the exit status where a file is refused, which is said.
#[derive(Drop)]
pub enum Found {
    Views(Vec<Named>),
    Refused(u8),
}

/// Prints the views that there are, and gives the exit status.
pub fn print_views(rt: &HostRuntime, matches: &ArgMatches<'_>, call: &Call) -> Result<u8, Problem> {
    without_front(rt.alloc(), matches)?;
    let is_seen = call.on_terminal || wants_color(rt, matches, call.on_terminal)?;
    if form(matches)? != Form::Plain {
        return Err(Problem::ViewForm);
    }
    let named = match load_views(rt)? {
        Found::Views(named) => named,
        Found::Refused(status) => return Ok(status),
    };
    let is_none = named.iter().all(|file| file.views.is_empty());
    let status = if is_none { NO_MATCH } else { 0 };
    if matches.get_flag("quiet") {
        return Ok(status);
    }
    let lines = view_lines(rt.alloc(), named.as_slice(), is_seen)?;
    Ok(print_all(rt, lines.as_slice(), status))
}

/// The views of the configuration folder's files, each name once.
pub fn load_views(rt: &HostRuntime) -> Result<Found, Problem> {
    let files = read_view_files(rt)?;
    let mut named: Vec<Named> = Vec::new(rt.alloc());
    for file in files.as_slice() {
        match views_of(rt.alloc(), named.as_slice(), file) {
            Ok(own) => named.push(own).map_err(AllocError::from)?,
            Err(refusal) => {
                return Ok(Found::Refused(refuse_file(rt, file.path.as_str(), refusal)));
            }
        }
    }
    Ok(Found::Views(named))
}

// The views of a file, none of which has the name of one before it.
fn views_of(alloc: Global, before: &[Named], file: &ViewFile) -> Result<Named, Refusal> {
    let views = read_views(alloc, file.text.as_str())?;
    let mut known: usize = 0;
    for named in before {
        known = known.saturating_add(named.views.len());
    }
    if known.saturating_add(views.len()) > MOST_VIEWS {
        return Err(Refusal::Line(1, MANY));
    }
    if let Some(line) = known_line(before, views.as_slice()) {
        return Err(Refusal::Line(line, TWICE));
    }
    let Ok(path) = String::from_str(alloc, file.path.as_str()) else {
        return Err(Refusal::Memory);
    };
    Ok(Named { path, views })
}

// The line of the first of some views whose name stands in a file before.
fn known_line(before: &[Named], views: &[View]) -> Option<usize> {
    for view in views {
        if before.iter().any(|named| view_of(
            named.views.as_slice(),
            view.name.as_str(),
        ).is_some())
        {
            return Some(view.line);
        }
    }
    None
}

/// The view of a name.
pub fn view_of<'a>(views: &'a [View], name: &str) -> Option<&'a View> {
    views.iter().find(|view| view.name.as_str() == name)
}

// The most views of all files.
const MOST_VIEWS: usize = 200;

const MANY: &str = "with those of this file there are more than 200 views";

const TWICE: &str = "a view of this name stands in another file";

// Says why a file of views is refused, and gives the status.
fn refuse_file(rt: &HostRuntime, path: &str, refusal: Refusal) -> u8 {
    match refusal {
        Refusal::Memory => out_of_memory(rt),
        Refusal::Line(number, why) => {
            say_at(rt, path, number, why);
            BAD_ARGUMENTS
        }
    }
}

/// Says something of a line of a file.
pub fn say_at(rt: &HostRuntime, path: &str, number: usize, why: &str) {
    match format!(in rt.alloc(); "{path}:{number}") {
        Ok(place) => say_of(rt, place.as_str(), why),
        Err(_) => say_of(rt, path, why),
    }
}

// A line for each view: its name, and what it is for, or else what it shows.
fn view_lines(alloc: Global, named: &[Named], is_seen: bool) -> Result<Vec<u8>, AllocError> {
    let mut lines = Vec::new(alloc);
    for file in named {
        for view in &file.views {
            push_view(&mut lines, view, is_seen)?;
        }
    }
    Ok(lines)
}

// How wide the names of views stand.
const NAME_COLUMNS: usize = 14;

fn push_view(lines: &mut Vec<u8>, view: &View, is_seen: bool) -> Result<(), AllocError> {
    lines.extend_from_slice(view.name.as_bytes())?;
    lines.push(b' ')?;
    for _ in view.name.len()..NAME_COLUMNS {
        lines.push(b' ')?;
    }
    if view.about.is_empty() {
        push_blocks(lines, view.blocks.as_slice(), is_seen)?;
    } else {
        push_seen(lines, view.about.as_str(), is_seen)?;
    }
    lines.push(b'\n')?;
    Ok(())
}

fn push_blocks(lines: &mut Vec<u8>, blocks: &[Block], is_seen: bool) -> Result<(), AllocError> {
    for (place, block) in blocks.iter().enumerate() {
        if place > 0 {
            lines.extend_from_slice(b"; ")?;
        }
        push_words(lines, block.words.as_slice(), is_seen)?;
    }
    Ok(())
}

/// Appends words with a space between them.
pub fn push_words(lines: &mut Vec<u8>, words: &[String], is_seen: bool) -> Result<(), AllocError> {
    for (place, word) in words.iter().enumerate() {
        if place > 0 {
            lines.push(b' ')?;
        }
        push_seen(lines, word.as_str(), is_seen)?;
    }
    Ok(())
}

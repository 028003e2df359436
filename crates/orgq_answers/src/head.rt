//! What stands in front of one of several answers: a line with its title, or members of its objects.

use org_answer::push_seen;
use org_client::OneLine;
use std::alloc::{AllocError, Global};
use std::str;
use unicode_width::UnicodeWidthStr;

/// What stands in front of an answer.
#[derive(Drop)]
pub struct Head {
    // A line, or members of JSON, which stand in each object.
    text: Vec<u8>,
    is_json: bool,
    hides_empty: bool,
}

/// Where an answer stands: in which view, below which title, in how many columns, and as what.
#[derive(Clone, Copy, Debug)]
pub struct Place<'a> {
    pub view: &'a str,
    pub title: &'a str,
    pub columns: usize,
    pub is_json: bool,
    pub is_seen: bool,
}

impl Head {
    /// The head of an answer at a place.
    pub fn of(alloc: Global, place: &Place<'_>, hides_empty: bool) -> Result<Head, AllocError> {
        let text = if place.is_json {
            members(alloc, place)?
        } else {
            title_line(alloc, place)?
        };
        Ok(Head {
            text,
            is_json: place.is_json,
            hides_empty,
        })
    }

    /// Whether an answer without rows isn't printed.
    pub fn hides_empty(&self) -> bool {
        self.hides_empty
    }

    /// An answer below this head; an empty line stands between it and one before it.
    pub fn above(
        &self,
        alloc: Global,
        answer: &[u8],
        is_later: bool,
    ) -> Result<Vec<u8>, AllocError> {
        let mut out = Vec::new(alloc);
        if self.is_json {
            push_objects(&mut out, answer, self.text.as_slice())?;
            return Ok(out);
        }
        if is_later {
            out.push(b'\n')?;
        }
        out.extend_from_slice(self.text.as_slice())?;
        out.extend_from_slice(answer)?;
        Ok(out)
    }
}

// The members that say where a row stands.
fn members(alloc: Global, place: &Place<'_>) -> Result<Vec<u8>, AllocError> {
    let mut line = OneLine::new(alloc);
    line.text("view", place.view.as_bytes())?;
    line.text("block", place.title.as_bytes())?;
    Vec::from_slice(alloc, line.as_slice())
}

// Appends the objects of some lines, each with members more.
fn push_objects(out: &mut Vec<u8>, lines: &[u8], members: &[u8]) -> Result<(), AllocError> {
    for line in lines.split(|byte| *byte == b'\n') {
        if let Some(front) = line.strip_suffix(b"}") {
            push_object(out, front, members)?;
        }
    }
    Ok(())
}

fn push_object(out: &mut Vec<u8>, front: &[u8], members: &[u8]) -> Result<(), AllocError> {
    out.extend_from_slice(front)?;
    out.extend_from_slice(members)?;
    out.extend_from_slice(b"}\n")?;
    Ok(())
}

// A title between lines, as wide as there are columns.
fn title_line(alloc: Global, place: &Place<'_>) -> Result<Vec<u8>, AllocError> {
    let mut out = Vec::new(alloc);
    push_seen(&mut out, "── ", true)?;
    push_seen(&mut out, place.title, place.is_seen)?;
    out.push(b' ')?;
    for _ in width_of(out.as_slice())..place.columns {
        push_seen(&mut out, "─", true)?;
    }
    out.push(b'\n')?;
    Ok(out)
}

// How many columns a line takes.
fn width_of(line: &[u8]) -> usize {
    str::from_utf8(line).unwrap_or("").width()
}

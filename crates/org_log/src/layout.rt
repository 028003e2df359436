//! The front of a section: its heading, its planning line and its property drawer.

use crate::words::{is_drawer_line, line_at};
use org_drawer::is_node;
use org_stamp::{PlanningKeyword, is_planning, next_pair};
use std::alloc::{AllocError, Global};

// How many lines the parts of a section's front have. The heading has the first line.
#[derive(Clone, Copy)]
pub(crate) struct Layout {
    // One where there is a planning line, else none.
    pub(crate) planning: usize,
    // Those of the property drawer, its ends included; none where there is none.
    pub(crate) drawer: usize,
}

impl Layout {
    // Where the property drawer begins, or would.
    pub(crate) fn drawer_at(&self) -> usize {
        self.planning.saturating_add(1)
    }

    // Where the front ends.
    pub(crate) fn end(&self) -> usize {
        self.drawer_at().saturating_add(self.drawer)
    }
}

// The layout of a section's lines.
pub(crate) fn layout_of(lines: &[&str]) -> Layout {
    let planning = if is_planning(line_at(lines, 1).as_bytes()) {
        1
    } else {
        0
    };
    let at = 1usize.saturating_add(planning);
    Layout {
        planning,
        drawer: drawer_lines(lines, at),
    }
}

// How many lines the property drawer has that begins at a place.
pub(crate) fn drawer_lines(lines: &[&str], at: usize) -> usize {
    if !is_drawer_line(line_at(lines, at), "PROPERTIES") {
        return 0;
    }
    let mut count = 1usize;
    for line in lines.iter().skip(at.saturating_add(1)) {
        count = count.saturating_add(1);
        if is_drawer_line(line, "END") {
            return count;
        }
        if !is_node(line.as_bytes()) {
            return 0;
        }
    }
    0
}

// A pair of a planning line: where its keyword begins, where it ends, and whether the keyword is `CLOSED:`.
#[derive(Clone, Copy)]
struct PairPlace {
    from: usize,
    to: usize,
    is_closed: bool,
}

// Where the first pair of `CLOSED:` stands in a planning line.
fn closed_place(line: &str) -> Option<PairPlace> {
    let mut at = 0usize;
    for _ in 0..line.len() {
        let place = pair_place(line, at)?;
        if place.is_closed {
            return Some(place);
        }
        at = place.to;
    }
    None
}

// The first pair of a planning line from a place on.
fn pair_place(line: &str, from: usize) -> Option<PairPlace> {
    if from > line.len() {
        return None;
    }
    match next_pair(line.as_bytes(), from) {
        Some(pair) => Some(PairPlace {
            from: keyword_place(line, pair.at),
            to: pair.end,
            is_closed: matches!(pair.word, PlanningKeyword::Closed),
        }),
        None => None,
    }
}

// Where `CLOSED:` begins that stands before a stamp.
fn keyword_place(line: &str, stamp: usize) -> usize {
    let front = line.get(..stamp).unwrap_or("");
    front.trim_end().len().saturating_sub("CLOSED:".len())
}

/// A planning line without the stamps of `CLOSED:`, each with the white space before it, or behind it where it is the first.
pub fn without_closed(alloc: Global, line: &str) -> Result<String, AllocError> {
    let mut left = String::new(alloc);
    let mut rest = line;
    for _ in 0..line.len() {
        match closed_place(rest) {
            Some(place) => rest = push_front(&mut left, rest, &place)?,
            None => break,
        }
    }
    left.push_str(rest)?;
    Ok(left)
}

// Puts what stands before a stamp of `CLOSED:` behind what is left so far, and gives what stands behind the stamp.
fn push_front<'a>(
    left: &mut String,
    line: &'a str,
    place: &PairPlace,
) -> Result<&'a str, AllocError> {
    let front = line.get(..place.from).unwrap_or("");
    let back = line.get(place.to..).unwrap_or("");
    if left.is_empty() && front.trim().is_empty() {
        left.push_str(front)?;
        return Ok(back.trim_start_matches(|c| c == ' ' || c == '\t'));
    }
    left.push_str(front.trim_end_matches(|c| c == ' ' || c == '\t'))?;
    Ok(back)
}

//! What is printed of properties and notes that headings get.

use crate::heading::HeadingText;
use crate::told::{TextFrom, push_line};
use org_cal::Moment;
use org_class::{begins_heading, is_drawer_end, is_drawer_open};
use org_stamp::{is_planning, read_single};
use std::alloc::{AllocError, Global};

// Appends the line of a property of a heading, if it has that.
pub(crate) fn push_property(
    alloc: Global,
    lines: &mut Vec<u8>,
    heading: &HeadingText,
    name: &str,
    now: TextFrom<'_>,
) -> Result<(), AllocError> {
    let from = if is_planning(now.next_line().as_bytes()) {
        now.behind(2)
    } else {
        now.behind(1)
    };
    if !is_drawer_open(from.line().as_bytes()) {
        return Ok(());
    }
    let nodes = from.behind(1);
    let mut number = nodes.number;
    for line in nodes.text.lines() {
        if is_drawer_end(line.as_bytes()) {
            return Ok(());
        }
        if is_node_for(line, name) {
            return push_line(alloc, lines, heading, line, number);
        }
        number = number.saturating_add(1);
    }
    Ok(())
}

// Whether a line gives a value to a name.
fn is_node_for(line: &str, name: &str) -> bool {
    let word = line.split_whitespace().next().unwrap_or("");
    match word.strip_prefix(':') {
        Some(word) => match word.strip_suffix(':') {
            Some(own) => own.eq_ignore_ascii_case(name),
            None => false,
        },
        None => false,
    }
}

// Appends the lines of a note that a heading got.
pub(crate) fn push_note(
    alloc: Global,
    lines: &mut Vec<u8>,
    heading: &HeadingText,
    note: &str,
    now: TextFrom<'_>,
) -> Result<(), AllocError> {
    let below = now.behind(1);
    let mut from = below;
    for line in below.text.lines() {
        if begins_heading(line.as_bytes()) {
            return Ok(());
        }
        if is_taken_at(line, &heading.moment) {
            if let Some(count) = note_lines(from.text, note) {
                return push_lines(alloc, lines, heading, from, count);
            }
        }
        from = from.behind(1);
    }
    Ok(())
}

// Whether a line says that a note was taken at a moment.
fn is_taken_at(line: &str, moment: &Moment) -> bool {
    let Some(stamp) = line.trim().strip_prefix("- Note taken on ") else {
        return false;
    };
    match read_single(stamp.as_bytes(), 0) {
        Some((stamp, _)) => match stamp.time {
            Some(time) => stamp.day == moment.day && time == moment.minute,
            None => false,
        },
        None => false,
    }
}

// How many lines a note has whose first line is that of a text; none where another note stands there.
fn note_lines(text: &str, note: &str) -> Option<usize> {
    let mut own = text.lines().skip(1);
    let mut count = 1usize;
    for line in note.lines().filter(|line| !line.trim().is_empty()) {
        if own.next()?.trim() != line.trim() {
            return None;
        }
        count = count.saturating_add(1);
    }
    Some(count)
}

// Appends so many lines of a text.
fn push_lines(
    alloc: Global,
    lines: &mut Vec<u8>,
    heading: &HeadingText,
    from: TextFrom<'_>,
    count: usize,
) -> Result<(), AllocError> {
    let mut number = from.number;
    for line in from.text.lines().take(count) {
        push_line(alloc, lines, heading, line, number)?;
        number = number.saturating_add(1);
    }
    Ok(())
}

//! Changed lines, as they are printed.

use crate::differing::{Differing, differing_lines};
use crate::found::Asked;
use org_answer::{push_file_name, push_seen};
use std::alloc::{AllocError, Global};

/// Appends the first line that goes and the first one that comes where a text becomes another: each behind a sign, and behind its
/// place, if that is wanted.
pub fn push_change(
    alloc: Global,
    lines: &mut Vec<u8>,
    asked: &Asked<'_>,
    before: &str,
    after: &str,
) -> Result<(), AllocError> {
    let found = differing_lines(before, after);
    let place = place_of(alloc, asked, found.line)?;
    push_first(lines, asked, place.as_slice(), b'-', found.before)?;
    push_first(lines, asked, place.as_slice(), b'+', found.after)
}

// Appends the first of some lines behind a place and a sign, if there is one.
fn push_first(
    lines: &mut Vec<u8>,
    asked: &Asked<'_>,
    place: &[u8],
    sign: u8,
    text: &str,
) -> Result<(), AllocError> {
    let Some(line) = text.lines().next() else {
        return Ok(());
    };
    lines.extend_from_slice(place)?;
    lines.push(sign)?;
    push_seen(lines, line, asked.look.is_seen)?;
    lines.push(b'\n')?;
    Ok(())
}

// The place of a line; nothing where it isn't wanted.
fn place_of(alloc: Global, asked: &Asked<'_>, number: u64) -> Result<Vec<u8>, AllocError> {
    let mut place = Vec::new(alloc);
    if asked.look.has_place {
        push_file_name(&mut place, asked.name, asked.look.is_seen)?;
        let number = format!(in alloc; ":{number}:")?;
        place.extend_from_slice(number.as_bytes())?;
    }
    Ok(place)
}

// How many lines of each text are said.
const MOST_LINES: usize = 5;

/// The lines in which a text differs from the one that was left, for a person: those that are gone, and those that came.
pub fn edited_text(alloc: Global, left: &str, now: &str) -> Result<String, AllocError> {
    let found: Differing<'_> = differing_lines(left, now);
    let number = found.line;
    let mut text = format!(in alloc; "from line {number} on it had, and has\n")?;
    push_signed(&mut text, found.before, '-')?;
    push_signed(&mut text, found.after, '+')?;
    Ok(text)
}

fn push_signed(text: &mut String, lines: &str, sign: char) -> Result<(), AllocError> {
    for line in lines.lines().take(MOST_LINES) {
        text.push(sign)?;
        text.push_str(line)?;
        text.push('\n')?;
    }
    if lines.lines().nth(MOST_LINES).is_some() {
        text.push(sign)?;
        text.push_str("...\n")?;
    }
    Ok(())
}

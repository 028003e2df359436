//! Where a heading stands, as it is typed.

use org_amend::TypedDate;
use org_answer::seems_placed;
use org_cal::Day;
use org_ids::is_id;
use orgq_messages::Problem;
use std::alloc::{AllocError, Global};

/// A heading of a file.
#[derive(Debug, Drop)]
pub struct HeadingPlace {
    /// The file's name.
    pub name: String,
    /// The heading's line. Lines count from 1.
    pub line: u64,
    /// The text in which it was found, if it was looked for.
    pub found_in: Option<String>,
}

/// A heading, as it is typed.
#[derive(Debug, Drop)]
pub enum TypedPlace {
    /// `FILE:LINE`: what stands there.
    At(HeadingPlace),
    /// `FILE:LINE@ID`: what stands there, if it has that short id, else the one heading of the file that has it.
    AtWithId(HeadingPlace, String),
    /// A short id: the one heading of all files that has it.
    Id(String),
}

/// The place that a word spells: a short id, `FILE:LINE` or `FILE:LINE@ID`; a colon may follow, as it does in front of rows, and
/// FILE may stand between quotation marks, where it does so there.
pub fn read_place(alloc: Global, word: &str) -> Result<TypedPlace, Problem> {
    if is_id(word.as_bytes()) {
        return Ok(TypedPlace::Id(String::from_str(alloc, word)?));
    }
    match spelled_place(word) {
        Some(place) => Ok(typed_place(alloc, &place)?),
        None => Err(Problem::Place),
    }
}

/// Whether a word spells a place, and no date.
pub fn is_place(word: &str) -> bool {
    spelled_place(word).is_some() || (is_id(word.as_bytes()) && !is_date(word))
}

// Whether a word says a day. On which day it is asked doesn't matter.
pub(crate) fn is_date(word: &str) -> bool {
    match Day::of_number(1000) {
        Some(day) => TypedDate::of_text(word.as_bytes(), day).is_some(),
        None => false,
    }
}

// A file, a line and perhaps a short id, as they are spelled.
#[derive(Clone, Copy)]
struct SpelledPlace<'a> {
    name: &'a str,
    line: u64,
    id: Option<&'a str>,
}

fn typed_place(alloc: Global, spelled: &SpelledPlace<'_>) -> Result<TypedPlace, AllocError> {
    let place = HeadingPlace {
        name: String::from_str(alloc, spelled.name)?,
        line: spelled.line,
        found_in: None,
    };
    match spelled.id {
        Some(id) => Ok(TypedPlace::AtWithId(place, String::from_str(alloc, id)?)),
        None => Ok(TypedPlace::At(place)),
    }
}

// The place that a word spells.
fn spelled_place(word: &str) -> Option<SpelledPlace<'_>> {
    let word = word.strip_suffix(':').unwrap_or(word);
    let (name, number) = word.rsplit_once(':')?;
    let name = meant_name(name);
    if name.is_empty() {
        return None;
    }
    let (digits, id) = match number.split_once('@') {
        Some((digits, id)) if is_id(id.as_bytes()) => (digits, Some(id)),
        Some(_) => return None,
        None => (number, None),
    };
    let line = read_number(digits)?;
    Some(SpelledPlace { name, line, id })
}

// The name of a file that is typed, or printed in front of rows. Quotation marks that stand there because a place seems to stand
// in the name are no part of it.
fn meant_name(name: &str) -> &str {
    match between_marks(name) {
        Some(inner) if seems_placed(inner) => inner,
        _ => name,
    }
}

fn between_marks(name: &str) -> Option<&str> {
    name.strip_prefix('"')?.strip_suffix('"')
}

// The number of a line, in digits alone.
fn read_number(digits: &str) -> Option<u64> {
    if !digits.bytes().all(|byte| byte.is_ascii_digit()) {
        return None;
    }
    match digits.parse::<u64>() {
        Ok(0) | Err(_) => None,
        Ok(line) => Some(line),
    }
}

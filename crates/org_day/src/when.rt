//! When rows are.

use crate::clock::push_hours;
use crate::columns::Breadth;
use crate::draft::Draft;
use crate::page::Frame;
use crate::role::Role;
use crate::section::Section;
use crate::stand::{Kind, Stand};
use crate::words::Words;
use std::alloc::{AllocError, Global};

/// Appends when a row is, as it is said in its section.
pub(crate) fn push_when(
    alloc: Global,
    draft: &mut Draft,
    stand: &Stand,
    words: &Words,
    frame: &Frame<'_>,
) -> Result<(), AllocError> {
    match frame.section {
        Section::AllDay => push_range(alloc, draft, stand.kind),
        Section::ByTheClock => push_hours(alloc, draft, stand, words, frame),
        Section::Due | Section::Late | Section::Planned | Section::DueSoon | Section::Habits => {
            let (role, mark) = mark_of(stand.kind, words.is_done, frame);
            draft.push(role, mark)?;
            draft.push(Role::Plain, " ")?;
            let text = day_text(alloc, stand.kind, words, frame)?;
            draft.push(day_role(stand.kind, words.is_done), text.as_str())
        }
    }
}

// Appends which day of a range it is.
fn push_range(alloc: Global, draft: &mut Draft, kind: Kind) -> Result<(), AllocError> {
    let Kind::Range(day, of) = kind else {
        return Ok(());
    };
    let text = format!(in alloc; "{day} of {of}")?;
    draft.push(Role::Plain, text.as_str())
}

// The mark of a row with its role.
fn mark_of(kind: Kind, is_done: bool, frame: &Frame<'_>) -> (Role, &'static str) {
    if is_done {
        return (Role::Dim, frame.look.signs.done_sign());
    }
    match kind {
        Kind::LateDue(_) => (Role::Late, "!"),
        Kind::LatePlanned(_) => (Role::Late, frame.look.signs.planned_sign()),
        Kind::DueIn(days) if days > SOON => (Role::Dim, "!"),
        Kind::Due | Kind::DueIn(_) => (Role::Due, "!"),
        Kind::Planned | Kind::Stamp | Kind::Range(..) => {
            (Role::Plain, frame.look.signs.planned_sign())
        }
    }
}

// The days within which what is due stands out.
const SOON: u32 = 2;

fn day_role(kind: Kind, is_done: bool) -> Role {
    if is_done {
        return Role::Dim;
    }
    match kind {
        Kind::LateDue(_) | Kind::LatePlanned(_) => Role::Late,
        Kind::DueIn(days) if days > SOON => Role::Plain,
        Kind::Due | Kind::DueIn(_) => Role::Due,
        Kind::Planned | Kind::Stamp | Kind::Range(..) => Role::Plain,
    }
}

// The day of a row in words.
fn day_text(
    alloc: Global,
    kind: Kind,
    words: &Words,
    frame: &Frame<'_>,
) -> Result<String, AllocError> {
    let is_narrow = frame.columns.breadth == Breadth::Narrow;
    match kind {
        Kind::LateDue(days) | Kind::LatePlanned(days) => late_text(alloc, days, frame),
        Kind::DueIn(days) if is_narrow => format!(in alloc; "{days} d"),
        Kind::DueIn(_) => String::from_str(alloc, words.date.as_str()),
        Kind::Due | Kind::Planned if frame.says_today(kind) => String::from_str(alloc, "today"),
        Kind::Due | Kind::Planned | Kind::Stamp | Kind::Range(..) => Ok(String::new(alloc)),
    }
}

// How long ago a day was.
fn late_text(alloc: Global, days: u32, frame: &Frame<'_>) -> Result<String, AllocError> {
    let (number, unit) = late_number(days);
    let digits = frame.late_digits;
    let mut text = format!(in alloc; "{number:>digits$} {unit}")?;
    if frame.columns.breadth != Breadth::Narrow {
        text.push_str(" late")?;
    }
    Ok(text)
}

/// Days, or years where they are many.
pub(crate) fn late_number(days: u32) -> (u32, char) {
    if days < 1000 {
        (days, 'd')
    } else {
        (days / 365, 'y')
    }
}

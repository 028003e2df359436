//! What a line says of the other rows of its heading.

use crate::page::DayHead;
use crate::placed::Placed;
use crate::sign::Signs;
use crate::stand::Kind;
use crate::words::DayRows;
use std::alloc::{AllocError, Global};

/// The note of a line, with the sign in front of it; nothing where the line has its row alone.
pub(crate) fn note_of(
    alloc: Global,
    rows: &DayRows,
    line: &[Placed],
    head: &DayHead<'_>,
    signs: Signs,
) -> Result<String, AllocError> {
    let mut note = String::new(alloc);
    for row in line {
        if row.is_note {
            note.push_str(if note.is_empty() {
                signs.note_sign()
            } else {
                ", "
            })?;
            push_note(&mut note, rows, row.place, head.now.is_some())?;
        }
    }
    Ok(note)
}

fn push_note(
    note: &mut String,
    rows: &DayRows,
    place: usize,
    is_today: bool,
) -> Result<(), AllocError> {
    let Some(stand) = rows.stands.as_slice().get(place) else {
        return Ok(());
    };
    match stand.kind {
        Kind::Stamp | Kind::Planned => note.push_str(if is_today {
            "also today"
        } else {
            "also that day"
        }),
        Kind::Range(day, of) => write!(note, "{day} of {of}"),
        Kind::Due => note.push_str(if is_today {
            "due today"
        } else {
            "due that day"
        }),
        Kind::LatePlanned(days) => write!(note, "planned {days} d ago"),
        Kind::LateDue(days) => write!(note, "due {days} d ago"),
        Kind::DueIn(_) => {
            note.push_str("due ")?;
            note.push_str(date_at(rows, place))
        }
    }
}

/// The day on which a row is due, in words.
pub(crate) fn date_at(rows: &DayRows, place: usize) -> &str {
    match rows.words.as_slice().get(place) {
        Some(words) => words.date.as_str(),
        None => "",
    }
}

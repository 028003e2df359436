//! Days in a list below a small month, where a grid has no room.
ghost use Rattle.std.specs.Prelude.{◌≡◌};

use crate::day::GridDay;
use crate::entry::{Entry, Stand};
use crate::fill::cut;
use crate::plan::notes_of;
use crate::sheet::{Sheet, Tone};
use crate::sign::Signs;
use std::alloc::{AllocError, Global};

/// How a list is written: the most columns of a line, and the signs.
#[derive(Clone, Copy, Debug)]
pub struct Narrow {
    pub columns: usize,
    pub signs: Signs,
}

/// Appends a week of a small month: its number, and the numbers of its days, today's in brackets, with a dot behind each other
/// one that has rows of its own.
pub fn push_small_week(
    out: &mut Sheet,
    number: &str,
    days: &[GridDay],
    signs: Signs,
) -> Result<(), AllocError> {
    out.push(Tone::Plain, number)?;
    out.text.push(' ')?;
    for day in days {
        push_small_day(out, day, signs)?;
    }
    out.text.push('\n')
}

fn push_small_day(out: &mut Sheet, day: &GridDay, signs: Signs) -> Result<(), AllocError> {
    let first = out.text.len();
    let (before, after) = if day.is_today {
        ('[', ']')
    } else {
        (' ', mark_of(day, signs))
    };
    let number = day.of_month;
    write!(out.text, "{before}{number:>2}{after}")?;
    if day.is_today {
        out.stain(first, Tone::Today)?;
    }
    Ok(())
}

fn mark_of(day: &GridDay, signs: Signs) -> char {
    if !day.entries.iter().any(is_of_day) {
        return ' ';
    }
    match signs {
        Signs::Drawn => '·',
        Signs::Ascii => '.',
    }
}

// Whether a row is of its day: neither late nor a warning.
fn is_of_day(entry: &Entry) -> bool {
    match entry.stand {
        Stand::Own | Stand::Range(..) => true,
        Stand::Late | Stand::Soon => false,
    }
}

/// Appends a day with its rows, each in a line, and the numbers of those that are late and due soon; nothing of a day that has
/// none of its own.
pub fn push_listed_day(
    alloc: Global,
    out: &mut Sheet,
    day: &GridDay,
    look: &Narrow,
) -> Result<(), AllocError> {
    if !day.is_of_month || !day.entries.iter().any(is_of_day) {
        return Ok(());
    }
    out.push(Tone::Strong, day.name.as_str())?;
    out.text.push('\n')?;
    for entry in &day.entries {
        if is_of_day(entry) {
            push_listed(alloc, out, entry, look)?;
        }
    }
    for note in &notes_of(alloc, day.entries.as_slice(), false)? {
        push_indented(alloc, out, note.text.as_str(), note.tone, look)?;
    }
    Ok(())
}

fn push_listed(
    alloc: Global,
    out: &mut Sheet,
    entry: &Entry,
    look: &Narrow,
) -> Result<(), AllocError> {
    let mut label = String::new(alloc);
    label.push_str(entry.label.as_str())?;
    if let Stand::Range(day, of) = entry.stand {
        write!(label, " ({day}/{of})")?;
    }
    push_indented(alloc, out, label.as_str(), entry.tone, look)
}

fn push_indented(
    alloc: Global,
    out: &mut Sheet,
    text: &str,
    tone: Tone,
    look: &Narrow,
) -> Result<(), AllocError> {
    let line = cut(alloc, text, look.columns.saturating_sub(2), look.signs)?;
    out.push(Tone::Plain, "  ")?;
    out.push(tone, line.as_str())?;
    out.text.push('\n')
}

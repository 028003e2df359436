//! Where clock lines stand.
ghost use Rattle.std.specs.Prelude.{◌+◌, ◌≤◌, length};

use crate::clocks::ClockRow;
use crate::file_set::FileSet;
use crate::rows::ShownClock;
use org_base::{Fault, Meter, Span};
use org_class::{Class, classify};
use org_drawer::read_clock;
use org_lines::Lines;
use org_store::Place;
use org_text::Text;
use std::alloc::{AllocError, Global};

/// Where the clock lines of a section begin, in order; the section begins with a line of that number.
pub(crate) fn clock_places<T: Text>(
    alloc: Global,
    text: &T,
    section: Span,
    first: u32,
) -> Result<Vec<Place>, Fault>
    requires within { section.at + section.len ≤ length (T.content text.now) }
{
    let classes = classify(alloc, &mut Meter::new(), text, section)?;
    let mut places = Vec::new(alloc);
    let mut number = first;
    for (line, class) in Lines::new(alloc, text, section).zip(classes.as_slice()) {
        let line = line?;
        if *class == Class::Clock && read_clock(line.bytes.as_slice()).is_some() {
            places.push(Place {
                at: line.span.at,
                line: number,
            })?;
        }
        number = number.saturating_add(1);
    }
    Ok(places)
}

/// Rows of clock lines with the places of their lines.
pub fn shown_clocks<T: Text>(
    alloc: Global,
    file_set: &FileSet<T>,
    rows: &[ClockRow],
) -> Result<Vec<ShownClock>, Fault> {
    let mut shown = Vec::new(alloc);
    let mut places = Vec::new(alloc);
    let mut known = None;
    for row in rows {
        if known != Some((row.file, row.heading)) {
            places = places_of(alloc, file_set, row)?;
            known = Some((row.file, row.heading));
        }
        push_clock(&mut shown, row, places.as_slice())?;
    }
    Ok(shown)
}

// Where the clock lines of a row's heading stand.
fn places_of<T: Text>(
    alloc: Global,
    file_set: &FileSet<T>,
    row: &ClockRow,
) -> Result<Vec<Place>, Fault> {
    if row.file >= file_set.count() {
        return Ok(Vec::new(alloc));
    }
    file_set.file(row.file).clock_places(alloc, row.heading)
}

// Puts a row after others, if its line is among those of its heading.
fn push_clock(
    shown: &mut Vec<ShownClock>,
    row: &ClockRow,
    places: &[Place],
) -> Result<(), AllocError> {
    if let Some(place) = places.get(row.number) {
        shown.push(ShownClock {
            row: *row,
            place: *place,
        })?;
    }
    Ok(())
}

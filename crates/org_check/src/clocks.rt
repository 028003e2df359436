//! Clocks that count nothing, and clocks that overlap.
ghost use Rattle.std.specs.Prelude.{◌≡◌};
ghost use Rattle.org_check.specs.Clocks.{counts_nothing};

use crate::beside_kinds::BesideKind;
use crate::finding::{Cause, LinePart};
use crate::here::Here;
use crate::looks::looks_like_stamp;
use crate::notes::{Note, Notes};
use crate::unread_kinds::MinutesKind;
use crate::unread_lines::past_spaces;
use org_base::words::{first_word, trim};
use org_cal::{MINUTES_PER_DAY, Minute};
use org_class::begins_with;
use org_drawer::{ClockLine, read_clock};
use org_stamp::leading_spaces;
use std::alloc::{AllocError, Global};

// A clock that ends after it begins, by its minutes, and where it stands.
#[derive(Clone, Copy, PartialEq, Eq, PartialOrd, Ord)]
struct Closed {
    from: u64,
    to: u64,
    part: LinePart,
}

// The clocks of a file that count.
#[derive(Drop)]
pub(crate) struct Clocks {
    list: Vec<Closed>,
}

impl Clocks {
    // None.
    pub(crate) fn new(alloc: Global) -> Clocks {
        Clocks {
            list: Vec::new(alloc),
        }
    }

    // Keeps the clock of a clock line, if it ends after it begins.
    pub(crate) fn push(&mut self, here: Here, line: &[u8]) -> Result<(), AllocError> {
        let Some(clock) = closed_clock(here, line) else {
            return Ok(());
        };
        self.list.push(clock)?;
        Ok(())
    }

    // Puts each clock that begins before an earlier one has ended.
    pub(crate) fn push_overlaps(&mut self, notes: &mut Notes) -> Result<(), AllocError> {
        self.list.sort()?;
        let mut end = 0;
        let mut end_line = 0;
        for clock in self.list.as_slice() {
            if clock.from < end {
                notes.push(overlap(*clock, end_line))?;
            }
            if clock.to > end {
                end = clock.to;
                end_line = clock.part.line;
            }
        }
        Ok(())
    }
}

// The clock of a clock line, if it ends after it begins.
fn closed_clock(here: Here, line: &[u8]) -> Option<Closed> {
    let clock = read_clock(line)?;
    let to = clock.to?.number();
    let from = clock.from.number();
    if to <= from {
        return None;
    }
    Some(Closed {
        from,
        to,
        part: here.part(leading_spaces(line), trim(line).len()),
    })
}

fn overlap(clock: Closed, other: u32) -> Note {
    Note {
        part: clock.part,
        kind: BesideKind::OverlappingClocks,
        cause: Some(Cause::Other(other)),
    }
}

/// Whether a clock has no minute in any period: it runs still, or ends no later than it begins.
pub fn counts_nothing(clock: &ClockLine) -> bool
    ensures value { result ≡ counts_nothing clock.now }
{
    let ClockLine { from, to } = *clock;
    match to {
        None => true,
        Some(to) => to.number() <= from.number(),
    }
}

// Why the clock of a clock line counts nothing.
pub(crate) fn minutes_kind(line: &[u8], now: Option<Minute>) -> MinutesKind {
    let Some(clock) = read_clock(line) else {
        return MinutesKind::EmptyClock;
    };
    let from = clock.from.number();
    match clock.to {
        None => running_kind(from, now),
        Some(to) if to.number() < from => MinutesKind::ReversedClock,
        Some(_) => MinutesKind::EmptyClock,
    }
}

// Whether a running clock has run for more than a day, as it is taken to have where no moment is known.
fn running_kind(from: u64, now: Option<Minute>) -> MinutesKind {
    match now {
        Some(now) if now.number() <= from.saturating_add(MINUTES_PER_DAY) => MinutesKind::OpenClock,
        _ => MinutesKind::RunningClock,
    }
}

// Puts a clock in a list.
pub(crate) fn push_clock_item(
    notes: &mut Notes,
    here: Here,
    line: &[u8],
) -> Result<(), AllocError> {
    if !is_clock_item(line) {
        return Ok(());
    }
    notes.push(here.note(
        BesideKind::ClockInList,
        leading_spaces(line),
        trim(line).len(),
    ))
}

// Whether a clock stands after the bullet of a list.
fn is_clock_item(line: &[u8]) -> bool {
    let text = past_spaces(line);
    let [b'-' | b'+' | b'*', rest @ ..] = text else {
        return false;
    };
    first_word(text).len() == 1 && read_clock(rest).is_some()
}

// Puts a clock whose word isn't in capitals.
pub(crate) fn push_clock_case(
    notes: &mut Notes,
    here: Here,
    line: &[u8],
) -> Result<(), AllocError> {
    let text = past_spaces(line);
    if text.len() < 6 || !begins_with(text, b"CLOCK:") || text.starts_with(b"CLOCK:") {
        return Ok(());
    }
    if !looks_like_stamp(past_spaces(&text[6..])) {
        return Ok(());
    }
    notes.push(here.note(
        BesideKind::ClockCase,
        leading_spaces(line),
        trim(line).len(),
    ))
}

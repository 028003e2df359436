//! What stamps that are read say and don't do.

use crate::beside_kinds::BesideKind;
use crate::day_names::is_name_of_other;
use crate::here::Here;
use crate::notes::Notes;
use crate::quotes::{Quotes, counts_inactive, is_fixed_width};
use memchr::memchr2;
use org_base::words::{first_word, trim};
use org_cal::TimeOfDay;
use org_stamp::{Found, Stamp, read_single, stamps_in};
use std::alloc::AllocError;

// Puts what the stamps of a line say and don't do; answers whether an active one may stand in it.
pub(crate) fn push_read_stamps(
    notes: &mut Notes,
    here: Here,
    line: &[u8],
) -> Result<bool, AllocError> {
    if line.starts_with(b"%%(") {
        notes.push(here.note(BesideKind::DiarySexp, 0, trim(line).len()))?;
        return Ok(false);
    }
    if memchr2(b'<', b'[', line).is_none() || is_fixed_width(line) {
        return Ok(false);
    }
    let mut has_active = false;
    let counts = counts_inactive(here.class, line);
    for found in stamps_in(line) {
        if found.stamp.active || counts {
            push_names(notes, here, line, &found)?;
        }
        if found.stamp.active {
            has_active = true;
            push_read(notes, here, line, &found)?;
        }
    }
    push_sexp(notes, here, line)?;
    Ok(has_active)
}

// Puts the names of days that aren't those of the stamp's dates.
fn push_names(notes: &mut Notes, here: Here, line: &[u8], found: &Found) -> Result<(), AllocError> {
    let Some(len) = push_name(notes, here, line, found.at)? else {
        return Ok(());
    };
    if found.stamp.last.is_none() {
        return Ok(());
    }
    // The second stamp of a range comes after two dashes.
    let second = found.at.saturating_add(len).saturating_add(2);
    push_name(notes, here, line, second)?;
    Ok(())
}

// Puts the name of the stamp at a place, if it isn't that of its day. Answers the stamp's length.
fn push_name(
    notes: &mut Notes,
    here: Here,
    line: &[u8],
    at: usize,
) -> Result<Option<usize>, AllocError> {
    if at > line.len() {
        return Ok(None);
    }
    let Some((stamp, len)) = read_single(line, at) else {
        return Ok(None);
    };
    if len >= 13 && at + len <= line.len() {
        // After the bracket stand ten bytes of the date.
        let name = first_word(&line[at + 11..at + len - 1]);
        if is_name_of_other(name, stamp.day) {
            notes.push(here.note(BesideKind::WrongDayName, at, len))?;
        }
    }
    Ok(Some(len))
}

fn push_read(notes: &mut Notes, here: Here, line: &[u8], found: &Found) -> Result<(), AllocError> {
    if found.at > line.len() || found.len > line.len() - found.at {
        return Ok(());
    }
    let (_, rest) = line.split_at(found.at);
    match read_kind(found.stamp, &rest[..found.len]) {
        Some(kind) => notes.push(here.note(kind, found.at, found.len)),
        None => Ok(()),
    }
}

fn read_kind(stamp: Stamp, bytes: &[u8]) -> Option<BesideKind> {
    let Stamp {
        day,
        time,
        end_time,
        repeater,
        last,
        ..
    } = stamp;
    let repeats = repeater.is_some();
    if let Some((last_day, end)) = last {
        let starts_late = is_before(end, time);
        return range_kind(day.number(), last_day.number(), starts_late, repeats);
    }
    if is_before(end_time, time) {
        Some(BesideKind::ReversedTimes)
    } else if !repeats && bytes.iter().any(|b| *b == b'+') {
        Some(BesideKind::ZeroRepeater)
    } else {
        None
    }
}

// What a range from one day to another says and doesn't do, where its times alone perhaps are reversed.
fn range_kind(first: u32, last: u32, starts_late: bool, repeats: bool) -> Option<BesideKind> {
    if last < first {
        Some(BesideKind::ReversedRange)
    } else if last == first && starts_late {
        Some(BesideKind::ReversedTimes)
    } else if repeats {
        Some(BesideKind::RangeWithRepeater)
    } else {
        None
    }
}

fn is_before(a: Option<TimeOfDay>, b: Option<TimeOfDay>) -> bool {
    match (a, b) {
        (Some(a), Some(b)) => a.minutes() < b.minutes(),
        _ => false,
    }
}

// Puts the first expression of the diary in a line, which isn't evaluated.
fn push_sexp(notes: &mut Notes, here: Here, line: &[u8]) -> Result<(), AllocError> {
    let mut quotes = Quotes::new(here.class);
    for at in 0..line.len() {
        if line[at] == b'<' && line[at..].starts_with(b"<%%(") && !quotes.holds(line, at) {
            let len = trim(&line[at..]).len();
            return notes.push(here.note(BesideKind::DiarySexp, at, len));
        }
    }
    Ok(())
}

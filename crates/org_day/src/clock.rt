//! Rows with a time, and the time of now.

use crate::columns::Breadth;
use crate::draft::Draft;
use crate::page::Frame;
use crate::role::Role;
use crate::stand::{Hours, Kind, Stand};
use crate::words::Words;
use std::alloc::{AllocError, Global};

/// How a row with a time stands to now.
#[derive(Clone, Copy, PartialEq, Eq)]
pub(crate) enum Phase {
    Over,
    Running,
    Ahead,
}

/// How a row with a time stands to now; on another day than today all is ahead.
pub(crate) fn phase_of(hours: &Hours, now: Option<u16>) -> Phase {
    let Some(now) = now else {
        return Phase::Ahead;
    };
    if hours.over() <= u32::from(now) {
        Phase::Over
    } else if hours.start <= now {
        Phase::Running
    } else {
        Phase::Ahead
    }
}

/// Whether a row has a time, and is over.
pub(crate) fn is_over(stand: &Stand, now: Option<u16>) -> bool {
    match stand.hours {
        Some(hours) => phase_of(&hours, now) == Phase::Over,
        None => false,
    }
}

/// Appends a time of day.
pub(crate) fn push_time(out: &mut String, minute: u16) -> Result<(), AllocError> {
    let (hour, minute) = (minute / 60, minute % 60);
    write!(out, "{hour:02}:{minute:02}")
}

/// Appends when a row with a time begins and ends, and the mark of what is planned or due.
pub(crate) fn push_hours(
    alloc: Global,
    draft: &mut Draft,
    stand: &Stand,
    words: &Words,
    frame: &Frame<'_>,
) -> Result<(), AllocError> {
    let Some(hours) = stand.hours else {
        return Ok(());
    };
    let mut text = String::new(alloc);
    push_time(&mut text, hours.start)?;
    if let Some(end) = hours.end {
        if frame.columns.breadth != Breadth::Narrow {
            text.push_str(frame.look.signs.until_sign())?;
            push_time(&mut text, end)?;
        }
    }
    let role = match phase_of(&hours, frame.head.now) {
        Phase::Over => Role::Dim,
        Phase::Running => Role::Head,
        Phase::Ahead => Role::Plain,
    };
    draft.push(role, text.as_str())?;
    push_mark(draft, stand.kind, words.is_done, frame)
}

fn push_mark(
    draft: &mut Draft,
    kind: Kind,
    is_done: bool,
    frame: &Frame<'_>,
) -> Result<(), AllocError> {
    let (role, mark) = match kind {
        Kind::Planned | Kind::Due if is_done => (Role::Dim, frame.look.signs.done_sign()),
        Kind::Due => (Role::Due, "!"),
        Kind::Planned => (Role::Plain, frame.look.signs.planned_sign()),
        _ => return Ok(()),
    };
    draft.push(Role::Plain, " ")?;
    draft.push(role, mark)
}

/// The line of now.
pub(crate) fn now_line(alloc: Global, now: u16, frame: &Frame<'_>) -> Result<Draft, AllocError> {
    let mut time = String::new(alloc);
    push_time(&mut time, now)?;
    let mut draft = Draft::new(alloc);
    draft.push(Role::Plain, "  ")?;
    draft.push(Role::NowHead, time.as_str())?;
    draft.push(Role::Plain, " ")?;
    let level = level_text(
        alloc,
        frame.columns.whole.saturating_sub(12),
        frame.look.signs.level_sign(),
    )?;
    draft.push(Role::Now, level.as_str())?;
    draft.push(Role::Now, " now")?;
    Ok(draft)
}

fn level_text(alloc: Global, columns: usize, sign: &str) -> Result<String, AllocError> {
    let mut level = String::new(alloc);
    for _column in 0..columns {
        level.push_str(sign)?;
    }
    Ok(level)
}

/// When the next row begins, and in how long.
pub(crate) fn next_words(alloc: Global, start: u16, now: u16) -> Result<String, AllocError> {
    let mut words = String::from_str(alloc, "next at ")?;
    push_time(&mut words, start)?;
    let ahead = start.saturating_sub(now);
    if ahead < 60 {
        write!(words, ", in {ahead} min")?;
    } else {
        let (hours, minutes) = (ahead / 60, ahead % 60);
        write!(words, ", in {hours}:{minutes:02} h")?;
    }
    Ok(words)
}

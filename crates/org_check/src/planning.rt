//! Planning that isn't read, or says something else.

use crate::beside_kinds::BesideKind;
use crate::here::{Here, State};
use crate::looks::looks_like_stamp;
use crate::notes::Notes;
use crate::unread_kinds::PlanningKind;
use crate::unread_lines::past_spaces;
use memchr::memchr2;
use org_base::words::trim;
use org_class::begins_with;
use org_stamp::{Pair, PlanningKeyword, leading_spaces, next_pair, planning_word, stamps_in};
use std::alloc::AllocError;

// Which planning words a line has had.
#[derive(Clone, Copy, Default)]
struct Words {
    scheduled: bool,
    deadline: bool,
    closed: bool,
}

impl Words {
    // Whether the word was there before.
    fn has(self, word: PlanningKeyword) -> bool {
        match word {
            PlanningKeyword::Scheduled => self.scheduled,
            PlanningKeyword::Deadline => self.deadline,
            PlanningKeyword::Closed => self.closed,
        }
    }

    // The same with one word more.
    fn with(self, word: PlanningKeyword) -> Words {
        match word {
            PlanningKeyword::Scheduled => Words {
                scheduled: true,
                ..self
            },
            PlanningKeyword::Deadline => Words {
                deadline: true,
                ..self
            },
            PlanningKeyword::Closed => Words {
                closed: true,
                ..self
            },
        }
    }
}

// Puts what a planning line says and doesn't do.
pub(crate) fn push_planning(notes: &mut Notes, here: Here, line: &[u8]) -> Result<(), AllocError> {
    let mut words = Words::default();
    let mut at = 0;
    while at < line.len() {
        let Some(pair) = next_pair(line, at) else {
            return push_rest(notes, here, line, at);
        };
        if let Some(kind) = pair_kind(&pair, words.has(pair.word), here.above.state) {
            notes.push(here.note(kind, pair.at, pair.len))?;
        }
        words = words.with(pair.word);
        at = pair.end;
    }
    Ok(())
}

fn pair_kind(pair: &Pair, repeated: bool, state: State) -> Option<BesideKind> {
    let stamp = pair.stamp;
    if repeated {
        return Some(BesideKind::RepeatedPlanning);
    }
    if matches!(pair.word, PlanningKeyword::Closed) {
        return None;
    }
    if !stamp.active {
        return Some(BesideKind::InactivePlanning);
    }
    if pair.end.saturating_sub(pair.at) > pair.len {
        return Some(BesideKind::PlanningRange);
    }
    if state == State::Done && stamp.repeater.is_some() {
        return Some(BesideKind::RepeaterOnDone);
    }
    None
}

// Puts what comes after the last pair and looks planned.
fn push_rest(notes: &mut Notes, here: Here, line: &[u8], at: usize) -> Result<(), AllocError> {
    if at >= line.len() {
        return Ok(());
    }
    let rest = &line[at..];
    if !has_planning_word(rest) && !has_active_stamp(rest) {
        return Ok(());
    }
    let place = at.saturating_add(leading_spaces(rest));
    notes.push(here.note(BesideKind::PlanningRest, place, trim(rest).len()))
}

fn has_active_stamp(text: &[u8]) -> bool {
    for found in stamps_in(text) {
        if found.stamp.active {
            return true;
        }
    }
    false
}

fn has_planning_word(text: &[u8]) -> bool {
    for at in 0..text.len() {
        if begins_any_planning_word(&text[at..]) {
            return true;
        }
    }
    false
}

// Whether a planning word stands at the front, in letters of any case.
fn begins_any_planning_word(bytes: &[u8]) -> bool {
    begins_with(bytes, b"SCHEDULED:")
        || begins_with(bytes, b"DEADLINE:")
        || begins_with(bytes, b"CLOSED:")
}

// What comes after the first colon and white space.
fn after_colon(text: &[u8]) -> &[u8] {
    match text.iter().position(|b| *b == b':') {
        Some(colon) if colon < text.len() => past_spaces(&text[colon + 1..]),
        _ => &[],
    }
}

// Why a line whose first word is a planning word is no planning line.
pub(crate) fn stray_planning(here: Here, line: &[u8]) -> PlanningKind {
    if !looks_like_stamp(after_colon(past_spaces(line))) {
        PlanningKind::PlanningWithoutStamp
    } else if here.above.first.is_none() {
        // It stands where it should, and what is found of its stamp says why it isn't read.
        PlanningKind::PlanningUnread
    } else {
        PlanningKind::StrayPlanning
    }
}

// Puts planning in small letters.
pub(crate) fn push_planning_case(
    notes: &mut Notes,
    here: Here,
    line: &[u8],
) -> Result<(), AllocError> {
    let text = past_spaces(line);
    if !begins_any_planning_word(text)
        || planning_word(text).is_some()
        || !looks_like_stamp(after_colon(text))
    {
        return Ok(());
    }
    let note = here.note(
        BesideKind::PlanningCase,
        leading_spaces(line),
        trim(text).len(),
    );
    notes.push(note.with_cause(here.above.first))
}

// Puts planning that stands in a heading line, where it begins.
pub(crate) fn push_heading_planning(
    notes: &mut Notes,
    here: Here,
    line: &[u8],
) -> Result<(), AllocError> {
    if memchr2(b'<', b'[', line).is_none() {
        return Ok(());
    }
    for at in 0..line.len() {
        if !matches!(line[at], b'S' | b'D' | b'C') {
            continue;
        }
        let text = &line[at..];
        if planning_word(text).is_some() && looks_like_stamp(after_colon(text)) {
            let len = trim(text).len();
            return notes.push(here.note(BesideKind::PlanningInHeading, at, len));
        }
    }
    Ok(())
}

//! Giving headings notes, and taking their keywords away, with what Org logs of it.

use crate::act::Refusal;
use crate::acts::text_after;
use crate::head_act::HeadAct;
use crate::trace::{Trace, logged_text};
use org_base::{Code, Fault};
use org_log::{NoteLog, note_log, removal_log};
use std::alloc::Global;

/// A text whose headings on some lines get a note, one after the other. Where one is refused, all are.
///
/// Who puts the lowest line first is sure that no heading leaves its line before it is reached.
pub fn traced_notes(
    alloc: Global,
    text: &str,
    lines: &[u64],
    trace: &Trace<'_>,
) -> Result<String, Refusal> {
    let mut new = String::from_str(alloc, text)?;
    for line in lines {
        match traced_note(alloc, new.as_str(), *line, trace) {
            Ok(next) => new = next,
            Err(why) => return Err(why),
        }
    }
    Ok(new)
}

// The same of one heading.
fn traced_note(alloc: Global, text: &str, line: u64, trace: &Trace<'_>) -> Result<String, Refusal> {
    match note_log(alloc, text, line, &trace.settings)? {
        Some(log) => noted_text(alloc, text, line, &log, trace),
        None => Err(Refusal::Fault(Fault::Plain(Code::Heading))),
    }
}

// A text with what is logged of the heading on a line.
fn noted_text(
    alloc: Global,
    text: &str,
    line: u64,
    log: &NoteLog,
    trace: &Trace<'_>,
) -> Result<String, Refusal> {
    logged_text(alloc, text, line, trace.moment, &log.entry(trace.note))
}

/// A text whose headings on some lines lose their keywords, one after the other, with what is logged of it: where a file logs when
/// headings are closed, their `CLOSED:` goes. Where one is refused, all are.
pub fn traced_removals(
    alloc: Global,
    text: &str,
    lines: &[u64],
    act: &HeadAct<'_>,
    trace: &Trace<'_>,
) -> Result<String, Refusal> {
    let mut new = String::from_str(alloc, text)?;
    for line in lines {
        match traced_removal(alloc, new.as_str(), *line, act, trace) {
            Ok(next) => new = next,
            Err(why) => return Err(why),
        }
    }
    Ok(new)
}

// The same of one heading.
fn traced_removal(
    alloc: Global,
    text: &str,
    line: u64,
    act: &HeadAct<'_>,
    trace: &Trace<'_>,
) -> Result<String, Refusal> {
    let left = text_after(alloc, text, act, line)?;
    match removal_log_of(alloc, text, line, act, trace)? {
        Some(log) => noted_text(alloc, left.as_str(), line, &log, trace),
        None => Ok(left),
    }
}

// What is logged of a keyword that goes.
fn removal_log_of(
    alloc: Global,
    text: &str,
    line: u64,
    act: &HeadAct<'_>,
    trace: &Trace<'_>,
) -> Result<Option<NoteLog>, Fault> {
    let mut whole = String::from_str(alloc, text)?;
    whole.push_str(act.behind)?;
    removal_log(alloc, whole.as_str(), line, &trace.settings)
}

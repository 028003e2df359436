//! Completing headings, and planning them, with what Org logs of it.

use crate::act::{Act, Refusal};
use crate::acts::text_after;
use crate::change::with_change;
use crate::clock_act::{ClockAct, ClockStep};
use crate::completion::Completion;
use crate::kept::{keeps_others, section_end};
use crate::lines::heading_at;
use crate::planning::Planning;
use org_base::{Code, Fault, Span};
use org_cal::Moment;
use org_drawer::read_planning;
use org_log::{
    DateChange, KeywordChange, KeywordLog, LogEntry, LogSettings, date_log, keyword_log,
    logged_section,
};
use org_stamp::PlanningKeyword;
use org_text::MAX_BYTES;
use std::alloc::Global;

/// What is logged where files say nothing else, and the note that is written.
#[derive(Clone, Copy, Debug)]
pub struct Trace<'a> {
    pub settings: LogSettings<'a>,
    /// When it is logged.
    pub moment: Moment,
    /// The note; it may be empty.
    pub note: &'a str,
}

impl<'a> Trace<'a> {
    fn has_note(&self) -> bool {
        !self.note.trim().is_empty()
    }
}

/// A text whose headings on some lines are completed, one after the other, with what is logged of it: `CLOSED:`, a state line,
/// `LAST_REPEAT`; the clock that runs on a heading that is done ends. Where one is refused, all are.
///
/// Who puts the lowest line first is sure that no heading leaves its line before it is reached.
pub fn traced_completions(
    alloc: Global,
    text: &str,
    lines: &[u64],
    act: &Completion<'_>,
    trace: &Trace<'_>,
) -> Result<String, Refusal> {
    let mut new = String::from_str(alloc, text)?;
    for line in lines {
        match traced_completion(alloc, new.as_str(), *line, act, trace) {
            Ok(next) => new = next,
            Err(why) => return Err(why),
        }
    }
    Ok(new)
}

// The same of one heading.
fn traced_completion(
    alloc: Global,
    text: &str,
    line: u64,
    act: &Completion<'_>,
    trace: &Trace<'_>,
) -> Result<String, Refusal> {
    let done = text_after(alloc, text, act, line)?;
    match completion_log(alloc, text, line, act, trace) {
        Ok(Some(log)) => logged_completion(alloc, done.as_str(), line, &log, trace),
        Ok(None) => Ok(done),
        Err(why) => Err(why),
    }
}

// What is logged of a completion.
fn completion_log(
    alloc: Global,
    text: &str,
    line: u64,
    act: &Completion<'_>,
    trace: &Trace<'_>,
) -> Result<Option<KeywordLog>, Refusal> {
    let word = act.word_on(alloc, text, line)?;
    let mut whole = String::from_str(alloc, text)?;
    whole.push_str(act.behind)?;
    let change = KeywordChange {
        line,
        to: word.as_str(),
        has_note: trace.has_note(),
    };
    Ok(keyword_log(alloc, whole.as_str(), &change, &trace.settings)?)
}

// A text whose heading on a line is completed, with what is logged of it.
fn logged_completion(
    alloc: Global,
    text: &str,
    line: u64,
    log: &KeywordLog,
    trace: &Trace<'_>,
) -> Result<String, Refusal> {
    let entry = log.entry(trace.note);
    if !log.ends_clock {
        return logged_text(alloc, text, line, trace.moment, &entry);
    }
    let ended = text_with_clock_ended(alloc, text, line, trace.moment)?;
    logged_text(alloc, ended.as_str(), line, trace.moment, &entry)
}

// A text whose heading on a line has no running clock any more.
fn text_with_clock_ended(
    alloc: Global,
    text: &str,
    line: u64,
    moment: Moment,
) -> Result<String, Refusal> {
    let end = ClockAct {
        line,
        step: ClockStep::Out(moment),
    };
    match end.plan(alloc, text) {
        Ok(change) => {
            let new = with_change(alloc, text.as_bytes(), &change)?;
            match String::from_utf8(new) {
                Ok(new) => Ok(new),
                Err(_) => Err(Refusal::Misread),
            }
        }
        Err(Refusal::NoClock) => Ok(String::from_str(alloc, text)?),
        Err(why) => Err(why),
    }
}

// A text with what is logged in the section of the heading on a line. All else of it stays, which is looked at before it is
// given.
pub(crate) fn logged_text(
    alloc: Global,
    text: &str,
    line: u64,
    moment: Moment,
    entry: &LogEntry<'_>,
) -> Result<String, Refusal> {
    let Some(at) = heading_at(text.as_bytes(), line) else {
        return Err(Refusal::Fault(Fault::Plain(Code::Heading)));
    };
    let own = text.get(at..).unwrap_or("");
    let len = section_end(own.as_bytes());
    let section = logged_section(alloc, own.get(..len).unwrap_or(""), moment, entry)?;
    let mut new = String::from_str(alloc, text.get(..at).unwrap_or(""))?;
    new.push_str(section.as_str())?;
    new.push_str(own.get(len..).unwrap_or(""))?;
    checked_text(text, line, new)
}

// A new text, unless it is too long or lacks anything that the old one has beside the section of the heading on a line.
fn checked_text(text: &str, line: u64, new: String) -> Result<String, Refusal> {
    if new.len() > MAX_BYTES {
        return Err(Refusal::Fault(Fault::Plain(Code::Size)));
    }
    if !keeps_others(text.as_bytes(), new.as_bytes(), line) {
        return Err(Refusal::Misread);
    }
    Ok(new)
}

/// A text whose headings on some lines get a date under a planning keyword, or lose the stamps there, one after the other, with
/// what is logged of it. Where one is refused, all are.
pub fn traced_plannings(
    alloc: Global,
    text: &str,
    lines: &[u64],
    act: &Planning,
    trace: &Trace<'_>,
) -> Result<String, Refusal> {
    let mut new = String::from_str(alloc, text)?;
    for line in lines {
        match traced_planning(alloc, new.as_str(), *line, act, trace) {
            Ok(next) => new = next,
            Err(why) => return Err(why),
        }
    }
    Ok(new)
}

// The same of one heading.
pub(crate) fn traced_planning(
    alloc: Global,
    text: &str,
    line: u64,
    act: &Planning,
    trace: &Trace<'_>,
) -> Result<String, Refusal> {
    let planned = text_after(alloc, text, act, line)?;
    let change = DateChange {
        line,
        keyword: act.keyword,
        old: stamp_on(text, line, act.keyword),
        new: stamp_on(planned.as_str(), line, act.keyword),
    };
    match date_log(alloc, text, &change, &trace.settings, trace.has_note())? {
        Some(log) => logged_text(
            alloc,
            planned.as_str(),
            line,
            trace.moment,
            &log.entry(trace.note),
        ),
        None => Ok(String::from_str(alloc, planned.as_str())?),
    }
}

// The stamp under a planning keyword of the heading on a line; empty where there is none.
pub(crate) fn stamp_on(text: &str, line: u64, keyword: PlanningKeyword) -> &str {
    let Some(at) = heading_at(text.as_bytes(), line) else {
        return "";
    };
    let section = text.get(at..).unwrap_or("");
    let below = section.split_inclusive('\n').nth(1).unwrap_or("");
    if below.len() > MAX_BYTES {
        return "";
    }
    let Some(planning) = read_planning(below.as_bytes()) else {
        return "";
    };
    match planning.part(keyword) {
        Some(part) => part_of(below, part),
        None => "",
    }
}

fn part_of(line: &str, part: Span) -> &str {
    let from = part.at as usize;
    line.get(from..from.saturating_add(part.len as usize))
        .unwrap_or("")
}

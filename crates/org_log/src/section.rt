//! What is written in a section where its heading changes.

use crate::entry::{LogEntry, LogLine, Repeats};
use crate::layout::{Layout, layout_of, without_closed};
use crate::place::{LogPlace, SectionLines};
use crate::words::{indent_of, is_blank, line_at, lines_of, property_of};
use org_base::{Fault, Meter, Span};
use org_cal::Moment;
use org_class::{Class, classify};
use org_stamp::{Stamp, is_clock, is_planning, print_stamp};
use org_text::{Text, Whole};
use std::alloc::{AllocError, Global};

/// A section, which begins with its heading, with what is logged of it at a moment. All else of it stays.
pub fn logged_section(
    alloc: Global,
    section: &str,
    moment: Moment,
    entry: &LogEntry<'_>,
) -> Result<String, Fault> {
    let stamp = moment_text(alloc, moment)?;
    let closed = closed_section(alloc, section, entry, stamp.as_str())?;
    let repeated = repeated_section(alloc, closed.as_str(), entry.repeats, stamp.as_str())?;
    match entry.line {
        Some(line) => noted_section(alloc, repeated.as_str(), line, entry, stamp.as_str()),
        None => Ok(repeated),
    }
}

// The text of a moment's stamp.
fn moment_text(alloc: Global, moment: Moment) -> Result<String, Fault> {
    print_stamp(alloc, &moment_stamp(moment))
}

// The inactive stamp of a moment.
fn moment_stamp(moment: Moment) -> Stamp {
    Stamp {
        active: false,
        day: moment.day,
        time: Some(moment.minute),
        end_time: None,
        repeater: None,
        delay: None,
        last: None,
    }
}

// How new lines of a section end: as its heading does.
fn break_of(section: &str) -> &'static str {
    let heading = section.split_inclusive('\n').next().unwrap_or("");
    if heading.ends_with("\r\n") {
        "\r\n"
    } else {
        "\n"
    }
}

// The section with `CLOSED:` written or gone.
fn closed_section(
    alloc: Global,
    section: &str,
    entry: &LogEntry<'_>,
    stamp: &str,
) -> Result<String, AllocError> {
    if !entry.is_closed && !entry.is_reopened {
        return String::from_str(alloc, section);
    }
    let lines = lines_of(alloc, section)?;
    let layout = layout_of(lines.as_slice());
    let old = if layout.planning > 0 {
        line_at(lines.as_slice(), 1)
    } else {
        ""
    };
    let next = line_at(lines.as_slice(), layout.drawer_at());
    let ends = break_of(section);
    let new = if entry.is_closed {
        closed_line(alloc, old, stamp, ends)?
    } else {
        reopened_line(alloc, old, next)?
    };
    with_lines(
        alloc,
        lines.as_slice(),
        LinePart {
            at: 1,
            count: layout.planning,
        },
        new.as_str(),
        ends,
    )
}

// The planning line with `CLOSED:` first, and no other; a new one where there is none.
fn closed_line(alloc: Global, old: &str, stamp: &str, ends: &str) -> Result<String, AllocError> {
    if old.is_empty() {
        return format!(in alloc; "CLOSED: {stamp}{ends}");
    }
    let left = without_closed(alloc, old)?;
    let indent = indent_of(left.as_str());
    let pairs = left.as_str().get(indent.len()..).unwrap_or("");
    let gap = if is_blank(pairs) { "" } else { " " };
    format!(in alloc; "{indent}CLOSED: {stamp}{gap}{pairs}")
}

// The planning line without `CLOSED:`; nothing where nothing is left of it, but an empty line where the next one would then be
// read as planning.
fn reopened_line(alloc: Global, old: &str, next: &str) -> Result<String, AllocError> {
    let left = without_closed(alloc, old)?;
    if old.is_empty() || !is_blank(left.as_str()) {
        return Ok(left);
    }
    if !is_planning(next.as_bytes()) {
        return Ok(String::new(alloc));
    }
    let body = old.trim_end();
    String::from_str(alloc, old.get(body.len()..).unwrap_or(""))
}

// Some lines, by the place of the first one.
#[derive(Clone, Copy)]
struct LinePart {
    at: usize,
    count: usize,
}

// Lines of which some are replaced by a text of whole lines. A line before it that isn't ended gets an end,
// and then the text has none at its own.
fn with_lines(
    alloc: Global,
    lines: &[&str],
    part: LinePart,
    new: &str,
    ends: &str,
) -> Result<String, AllocError> {
    let mut text = String::new(alloc);
    push_lines(&mut text, lines.get(..part.at).unwrap_or(lines))?;
    let is_ended = text.as_str().is_empty() || text.as_str().ends_with('\n');
    if is_ended || new.is_empty() {
        text.push_str(new)?;
    } else {
        text.push_str(ends)?;
        text.push_str(new.trim_end_matches(|c| c == '\n' || c == '\r'))?;
    }
    push_lines(
        &mut text,
        lines
            .get(part.at.saturating_add(part.count)..)
            .unwrap_or(&[]),
    )?;
    Ok(text)
}

fn push_lines(text: &mut String, lines: &[&str]) -> Result<(), AllocError> {
    for line in lines {
        text.push_str(line)?;
    }
    Ok(())
}

// The section with the property `LAST_REPEAT`, where it is to be written.
fn repeated_section(
    alloc: Global,
    section: &str,
    repeats: Repeats,
    stamp: &str,
) -> Result<String, AllocError> {
    let is_written = match repeats {
        Repeats::Not => false,
        Repeats::WithClock => has_clock(section),
        Repeats::Always => true,
    };
    if !is_written {
        return String::from_str(alloc, section);
    }
    let lines = lines_of(alloc, section)?;
    let layout = layout_of(lines.as_slice());
    with_last_repeat(alloc, lines.as_slice(), layout, stamp, break_of(section))
}

// Whether a clock line stands in a section.
fn has_clock(section: &str) -> bool {
    section
        .split_inclusive('\n')
        .any(|line| is_clock(line.as_bytes()))
}

fn with_last_repeat(
    alloc: Global,
    lines: &[&str],
    layout: Layout,
    stamp: &str,
    ends: &str,
) -> Result<String, AllocError> {
    let at = layout.drawer_at();
    if layout.drawer == 0 {
        let drawer = format!(in alloc; ":PROPERTIES:{ends}:LAST_REPEAT: {stamp}{ends}:END:{ends}")?;
        return with_lines(
            alloc,
            lines,
            LinePart { at, count: 0 },
            drawer.as_str(),
            ends,
        );
    }
    let indent = indent_of(line_at(lines, at));
    let line = format!(in alloc; "{indent}:LAST_REPEAT: {stamp}{ends}")?;
    let part = match last_repeat(lines, layout) {
        Some(place) => LinePart {
            at: place,
            count: 1,
        },
        None => LinePart {
            at: layout.end().saturating_sub(1),
            count: 0,
        },
    };
    with_lines(alloc, lines, part, line.as_str(), ends)
}

// The line of a property drawer that gives `LAST_REPEAT`.
fn last_repeat(lines: &[&str], layout: Layout) -> Option<usize> {
    for place in layout.drawer_at()..layout.end() {
        if property_of(line_at(lines, place), "LAST_REPEAT").is_some() {
            return Some(place);
        }
    }
    None
}

// The section with a log line.
fn noted_section(
    alloc: Global,
    section: &str,
    line: LogLine<'_>,
    entry: &LogEntry<'_>,
    stamp: &str,
) -> Result<String, Fault> {
    let lines = lines_of(alloc, section)?;
    let whole = Whole::of(alloc, section)?;
    let span = Span {
        at: 0,
        len: whole.len() as u32,
    };
    let classes = classify(alloc, &mut Meter::new(), &whole, span)?;
    let section_lines = SectionLines {
        lines: lines.as_slice(),
        classes: classes.as_slice(),
        layout: layout_of(lines.as_slice()),
    };
    let place = section_lines.log_place(entry.drawer, entry.is_newest_first);
    let ends = break_of(section);
    let text = log_text(alloc, line, entry, &place, Written { stamp, ends })?;
    let part = LinePart {
        at: place.before,
        count: taken_lines(lines.as_slice(), &place),
    };
    Ok(with_lines(alloc, lines.as_slice(), part, text.as_str(), ends)?)
}

// How many lines a log line takes the place of: as in Org a blank one, where it comes to stand before one.
fn taken_lines(lines: &[&str], place: &LogPlace<'_>) -> usize {
    let line = line_at(lines, place.before);
    if !place.is_new_drawer && line.ends_with('\n') && is_blank(line) {
        1
    } else {
        0
    }
}

// The stamp of a log line, and how lines end.
#[derive(Clone, Copy)]
struct Written<'a> {
    stamp: &'a str,
    ends: &'a str,
}

// The lines of a log line at a place, with its note and its drawer.
fn log_text(
    alloc: Global,
    line: LogLine<'_>,
    entry: &LogEntry<'_>,
    place: &LogPlace<'_>,
    written: Written<'_>,
) -> Result<String, AllocError> {
    let Written { stamp, ends } = written;
    let mut text = String::new(alloc);
    if place.is_new_drawer {
        push_drawer_line(&mut text, entry.drawer, ends)?;
    }
    text.push_str(place.indent)?;
    text.push_str("- ")?;
    push_heading(alloc, &mut text, line, stamp)?;
    push_note(&mut text, entry.note, place.indent, ends)?;
    if place.is_new_drawer {
        push_drawer_line(&mut text, "END", ends)?;
    }
    Ok(text)
}

fn push_drawer_line(text: &mut String, name: &str, ends: &str) -> Result<(), AllocError> {
    write!(text, ":{name}:{ends}")
}

// Puts the first line of what is logged at the end.
fn push_heading(
    alloc: Global,
    text: &mut String,
    line: LogLine<'_>,
    stamp: &str,
) -> Result<(), AllocError> {
    match line {
        LogLine::State(to, from) => push_state(alloc, text, to, from, stamp),
        LogLine::Closing => write!(text, "CLOSING NOTE {stamp}"),
        LogLine::Rescheduled(old) => push_dated(alloc, text, "Rescheduled from", old, stamp),
        LogLine::Unscheduled(old) => push_dated(alloc, text, "Not scheduled, was", old, stamp),
        LogLine::NewDeadline(old) => push_dated(alloc, text, "New deadline from", old, stamp),
        LogLine::NoDeadline(old) => push_dated(alloc, text, "Removed deadline, was", old, stamp),
        LogLine::Note => write!(text, "Note taken on {stamp}"),
    }
}

// A state line: both keywords are between quotation marks and take twelve columns at least.
fn push_state(
    alloc: Global,
    text: &mut String,
    to: &str,
    from: Option<&str>,
    stamp: &str,
) -> Result<(), AllocError> {
    text.push_str("State ")?;
    push_word(alloc, text, Some(to))?;
    text.push_str(" from ")?;
    push_word(alloc, text, from)?;
    text.push_str(" ")?;
    text.push_str(stamp)
}

// How many columns a keyword of a state line takes at least.
const KEYWORD_COLUMNS: usize = 12;

fn push_word(alloc: Global, text: &mut String, word: Option<&str>) -> Result<(), AllocError> {
    let quoted = match word {
        Some(word) => format!(in alloc; "\"{word}\"")?,
        None => String::new(alloc),
    };
    text.push_str(quoted.as_str())?;
    for _ in quoted.as_str().chars().count()..KEYWORD_COLUMNS {
        text.push_str(" ")?;
    }
    Ok(())
}

fn push_dated(
    alloc: Global,
    text: &mut String,
    words: &str,
    old: &str,
    stamp: &str,
) -> Result<(), AllocError> {
    let inner = old.trim_matches(|c| c == '<' || c == '>' || c == '[' || c == ']');
    write!(text, "{words} \"[{inner}]\" on {stamp}")
}

// Puts the note below what is logged, and the end of the line.
fn push_note(text: &mut String, note: &str, indent: &str, ends: &str) -> Result<(), AllocError> {
    if note.trim().is_empty() {
        return text.push_str(ends);
    }
    text.push_str(" \\\\")?;
    text.push_str(ends)?;
    for line in note.trim_end().lines() {
        if !is_blank(line) {
            write!(text, "{indent}  {line}{ends}")?;
        }
    }
    Ok(())
}

//! What is printed of changes of headings: their lines, and the stamps that moved.
ghost use Rattle.std.specs.Prelude.{string_bytes};
ghost use Rattle.org_act.specs.Changes.{LiesIn};

use crate::heading::HeadingText;
use crate::text_ids::{id_at, ids_on_lines};
use crate::told_parts::{push_note, push_property};
use org_act::{ClockStep, OwnedChange, moved_pairs, with_change};
use org_answer::{push_file_name, push_seen};
use org_base::Texts;
use org_cal::Day;
use org_class::begins_heading;
use org_log::without_closed;
use org_stamp::{Pair, PlanningKeyword, is_planning};
use orgq_args::WishedAct;
use std::alloc::{AllocError, Global};
use std::str;

/// What is printed of a change: nothing, or its lines.
pub fn shown_lines(
    alloc: Global,
    heading: &HeadingText,
    change: &OwnedChange,
) -> Result<Vec<u8>, AllocError>
    requires within { LiesIn (string_bytes heading.now.text) change.now }
{
    if heading.look.is_quiet {
        return Ok(Vec::new(alloc));
    }
    change_lines(alloc, heading, change)
}

fn change_lines(
    alloc: Global,
    heading: &HeadingText,
    change: &OwnedChange,
) -> Result<Vec<u8>, AllocError>
    requires within { LiesIn (string_bytes heading.now.text) change.now }
{
    let new = with_change(alloc, heading.text.as_bytes(), change)?;
    let new = str::from_utf8(&new).unwrap_or("");
    let mut lines = Vec::new(alloc);
    let old = heading.text.as_str();
    match &heading.act {
        WishedAct::Addition(_) => push_added(alloc, &mut lines, heading, change, new)?,
        // The line that goes is one of the old text.
        WishedAct::Clock(ClockStep::Cancel) => {
            push_titled(alloc, &mut lines, heading, new)?;
            push_clock(alloc, &mut lines, heading, old, change)?;
        }
        WishedAct::Clock(_) => {
            push_titled(alloc, &mut lines, heading, new)?;
            push_clock(alloc, &mut lines, heading, new, change)?;
        }
        _ => push_changed(alloc, &mut lines, heading, new)?,
    }
    Ok(lines)
}

// Appends what is printed of a heading whose file gets a new text.
fn push_changed(
    alloc: Global,
    lines: &mut Vec<u8>,
    heading: &HeadingText,
    new: &str,
) -> Result<(), AllocError> {
    let ids = shown_ids(alloc, heading, new, &[heading.line])?;
    let before = from_line(heading.text.as_str(), heading.line);
    let now = from_line(new, heading.line).with_id(id_at(&ids, 0));
    push_heading(alloc, lines, heading, before, now)
}

// The short ids of headings on lines of a new text, where places are printed.
fn shown_ids(
    alloc: Global,
    heading: &HeadingText,
    new: &str,
    lines: &[u64],
) -> Result<Texts, AllocError> {
    if !heading.look.has_place {
        return Ok(Texts::new(alloc));
    }
    ids_on_lines(alloc, heading, new, lines)
}

/// What is printed of headings whose file gets a new text: nothing, or their lines from the highest on. The lowest one is named
/// first.
pub fn told_lines(
    alloc: Global,
    heading: &HeadingText,
    lines: &[u64],
    new: &str,
) -> Result<Vec<u8>, AllocError> {
    let mut told = Vec::new(alloc);
    if heading.look.is_quiet {
        return Ok(told);
    }
    let numbers = new_lines(alloc, heading, lines, new)?;
    let ids = shown_ids(alloc, heading, new, numbers.as_slice())?;
    let mut before = from_line(heading.text.as_str(), 1);
    let mut now = from_line(new, 1);
    for (place, line) in lines.iter().rev().enumerate() {
        let passed = line.saturating_sub(before.number);
        now = now
            .at_heading(before.headings(passed))
            .with_id(id_at(&ids, place));
        before = before.behind(passed);
        push_heading(alloc, &mut told, heading, before, now)?;
    }
    Ok(told)
}

// The lines on which headings stand in a new text, from the highest on.
fn new_lines(
    alloc: Global,
    heading: &HeadingText,
    lines: &[u64],
    new: &str,
) -> Result<Vec<u64>, AllocError> {
    let mut numbers = Vec::new(alloc);
    let mut before = from_line(heading.text.as_str(), 1);
    let mut now = from_line(new, 1);
    for line in lines.iter().rev() {
        let passed = line.saturating_sub(before.number);
        now = now.at_heading(before.headings(passed));
        before = before.behind(passed);
        numbers.push(now.number)?;
    }
    Ok(numbers)
}

// A text from the line of a number on, with the short id of the heading there, where it is printed.
#[derive(Clone, Copy)]
pub(crate) struct TextFrom<'a> {
    pub(crate) text: &'a str,
    pub(crate) number: u64,
    id: &'a [u8],
}

// A text from the line of a number on; lines count from 1.
fn from_line(text: &str, number: u64) -> TextFrom<'_> {
    let whole = TextFrom {
        text,
        number: 1,
        id: &[],
    };
    whole.behind(number.saturating_sub(1))
}

impl<'a> TextFrom<'a> {
    // Its first line.
    pub(crate) fn line(&self) -> &'a str {
        self.text.lines().next().unwrap_or("")
    }

    // The line behind that.
    pub(crate) fn next_line(&self) -> &'a str {
        self.text.lines().nth(1).unwrap_or("")
    }

    // The same behind so many lines.
    pub(crate) fn behind(&self, count: u64) -> TextFrom<'a> {
        TextFrom {
            text: behind_lines(self.text, count),
            number: self.number.saturating_add(count),
            id: &[],
        }
    }

    // The same with an id.
    fn with_id(&self, id: &'a [u8]) -> TextFrom<'a> {
        TextFrom {
            text: self.text,
            number: self.number,
            id,
        }
    }

    // How many of so many lines are headings.
    fn headings(&self, count: u64) -> usize {
        self.text
            .lines()
            .take(count as usize)
            .filter(|line| begins_heading(line.as_bytes()))
            .count()
    }

    // The same from the first heading on before which so many stand.
    fn at_heading(&self, count: usize) -> TextFrom<'a> {
        self.behind(lines_before(self.text, count))
    }
}

// How many lines stand before the first heading that has so many headings before it.
fn lines_before(text: &str, count: usize) -> u64 {
    let mut left = count;
    let mut before = 0u64;
    for line in text.lines() {
        if begins_heading(line.as_bytes()) {
            if left == 0 {
                return before;
            }
            left -= 1;
        }
        before = before.saturating_add(1);
    }
    before
}

// What a text has behind so many lines.
fn behind_lines(text: &str, count: u64) -> &str {
    let mut left = count;
    for (place, byte) in text.bytes().enumerate() {
        if left == 0 {
            return text.get(place..).unwrap_or("");
        }
        if byte == b'\n' {
            left -= 1;
        }
    }
    ""
}

// Appends what is printed of a heading, of the texts from its line on as they were and as they are.
fn push_heading(
    alloc: Global,
    lines: &mut Vec<u8>,
    heading: &HeadingText,
    before: TextFrom<'_>,
    now: TextFrom<'_>,
) -> Result<(), AllocError> {
    match &heading.act {
        WishedAct::Keyword(_) => {
            push_own(alloc, lines, heading, before)?;
            push_own(alloc, lines, heading, now)?;
            push_moved(alloc, lines, heading, before.next_line(), now)
        }
        WishedAct::Tags(_) | WishedAct::Priority(_) => {
            push_own(alloc, lines, heading, before)?;
            push_own(alloc, lines, heading, now)
        }
        WishedAct::Property(property) => {
            push_own(alloc, lines, heading, now)?;
            push_property(alloc, lines, heading, property.name.as_str(), now)
        }
        WishedAct::Note(note) => {
            push_own(alloc, lines, heading, now)?;
            push_note(alloc, lines, heading, note.as_str(), now)
        }
        _ => {
            push_own(alloc, lines, heading, now)?;
            push_planning(alloc, lines, heading, now)
        }
    }
}

// Appends the planning line of a heading, if it has one.
fn push_planning(
    alloc: Global,
    lines: &mut Vec<u8>,
    heading: &HeadingText,
    now: TextFrom<'_>,
) -> Result<(), AllocError> {
    let below = now.next_line();
    if is_planning(below.as_bytes()) {
        push_line(alloc, lines, heading, below, now.number.saturating_add(1))?;
    }
    Ok(())
}

// Appends a line for each stamp that moved in the planning line below a heading, of which the line as it was is given.
fn push_moved(
    alloc: Global,
    lines: &mut Vec<u8>,
    heading: &HeadingText,
    before: &str,
    now: TextFrom<'_>,
) -> Result<(), AllocError> {
    let before = without_closed(alloc, before)?;
    let below = without_closed(alloc, now.next_line())?;
    let number = now.number.saturating_add(1);
    let moved = moved_pairs(alloc, before.as_bytes(), below.as_bytes())?;
    for pair in moved.as_slice() {
        let text = moved_text(alloc, below.as_str(), pair, heading.moment.day)?;
        push_line(alloc, lines, heading, text.as_str(), number)?;
    }
    Ok(())
}

// A stamp of a planning line with its keyword, and how far it is from a day.
fn moved_text(alloc: Global, line: &str, pair: &Pair, today: Day) -> Result<String, AllocError> {
    let keyword = keyword_name(pair.word);
    let stamp = line
        .get(pair.at..pair.at.saturating_add(pair.len))
        .unwrap_or("");
    let mut text = format!(in alloc; "  {keyword}: {stamp}, next ")?;
    push_distance(&mut text, today, pair.stamp.day)?;
    Ok(text)
}

fn keyword_name(keyword: PlanningKeyword) -> &'static str {
    match keyword {
        PlanningKeyword::Scheduled => "SCHEDULED",
        PlanningKeyword::Deadline => "DEADLINE",
        PlanningKeyword::Closed => "CLOSED",
    }
}

// Appends how far a day is from today, in words.
fn push_distance(text: &mut String, today: Day, day: Day) -> Result<(), AllocError> {
    let (from, to) = (today.number(), day.number());
    let (ahead, ago) = (to.saturating_sub(from), from.saturating_sub(to));
    match (ahead, ago) {
        (0, 0) => text.push_str("today"),
        (1, _) => text.push_str("tomorrow"),
        (_, 1) => text.push_str("yesterday"),
        (0, ago) => write!(text, "{ago} days ago"),
        (ahead, _) => write!(text, "in {ahead} days"),
    }
}

// Appends the place and the line of a heading that was added.
fn push_added(
    alloc: Global,
    lines: &mut Vec<u8>,
    heading: &HeadingText,
    change: &OwnedChange,
    new: &str,
) -> Result<(), AllocError> {
    let front = heading
        .text
        .as_str()
        .get(..change.at as usize)
        .unwrap_or("");
    let inserted = change.ins.as_str();
    let entry = inserted.trim_start_matches('\n');
    let feeds = inserted.len().saturating_sub(entry.len());
    let before = count_feeds(front).saturating_add(feeds);
    let number = before.saturating_add(1) as u64;
    let ids = ids_on_lines(alloc, heading, new, &[number])?;
    push_place(alloc, lines, heading, number, id_at(&ids, 0))?;
    let line = from_line(entry, 1).line();
    push_seen(lines, line, heading.look.is_seen)?;
    lines.push(b'\n')?;
    Ok(())
}

// How many lines end in a text.
fn count_feeds(text: &str) -> usize {
    text.bytes().filter(|byte| *byte == b'\n').count()
}

// Appends the heading's line, with the id that it has in a new text.
fn push_titled(
    alloc: Global,
    lines: &mut Vec<u8>,
    heading: &HeadingText,
    new: &str,
) -> Result<(), AllocError> {
    let ids = shown_ids(alloc, heading, new, &[heading.line])?;
    let old = from_line(heading.text.as_str(), heading.line).with_id(id_at(&ids, 0));
    push_own(alloc, lines, heading, old)
}

// Appends the clock line of a text that a change of it is of.
fn push_clock(
    alloc: Global,
    lines: &mut Vec<u8>,
    heading: &HeadingText,
    text: &str,
    change: &OwnedChange,
) -> Result<(), AllocError> {
    match clock_line(text, change.at as usize) {
        Some(number) => push_line(
            alloc,
            lines,
            heading,
            from_line(text, number).line(),
            number,
        ),
        None => Ok(()),
    }
}

// Appends the first line of a text, with its place in front, if that is wanted.
fn push_own(
    alloc: Global,
    lines: &mut Vec<u8>,
    heading: &HeadingText,
    from: TextFrom<'_>,
) -> Result<(), AllocError> {
    let look = heading.look;
    if look.has_place {
        push_place(alloc, lines, heading, from.number, from.id)?;
    }
    push_seen(lines, from.line(), look.is_seen)?;
    lines.push(b'\n')?;
    Ok(())
}

// Appends a line of a number, with its place in front, if that is wanted.
pub(crate) fn push_line(
    alloc: Global,
    lines: &mut Vec<u8>,
    heading: &HeadingText,
    line: &str,
    number: u64,
) -> Result<(), AllocError> {
    let look = heading.look;
    if look.has_place {
        push_place(alloc, lines, heading, number, &[])?;
    }
    push_seen(lines, line, look.is_seen)?;
    lines.push(b'\n')?;
    Ok(())
}

// Appends the place of a line, as it stands in front of rows, with the short id of a heading, if there is one.
fn push_place(
    alloc: Global,
    lines: &mut Vec<u8>,
    heading: &HeadingText,
    number: u64,
    id: &[u8],
) -> Result<(), AllocError> {
    push_file_name(lines, heading.name.as_str(), heading.look.is_seen)?;
    let number = format!(in alloc; ":{number}")?;
    lines.extend_from_slice(number.as_bytes())?;
    if !id.is_empty() {
        lines.push(b'@')?;
        lines.extend_from_slice(id)?;
    }
    lines.push(b':')?;
    Ok(())
}

// The number of the first clock line from that line on which has the byte at a place.
fn clock_line(text: &str, at: usize) -> Option<u64> {
    let bytes = text.as_bytes();
    let front = &bytes[..at.min(bytes.len())];
    let before = front.iter().filter(|byte| **byte == b'\n').count();
    let mut number = before as u64;
    for line in text.lines().skip(before) {
        number = number.saturating_add(1);
        if line.trim_start().starts_with("CLOCK:") {
            return Some(number);
        }
    }
    None
}

//! The lines of a day.

ghost use Rattle.org_day.specs.Lines.{KeepsLines};

use crate::clock::{next_words, now_line};
use crate::columns::{Breadth, Columns, line_at};
use crate::draft::Draft;
use crate::fit::Counts;
use crate::line::Line;
use crate::placed::{Placed, placed_rows};
use crate::role::Role;
use crate::row_line::row_line;
use crate::section::Section;
use crate::sign::Signs;
use crate::stand::{Kind, Stand};
use crate::when::late_number;
use crate::words::DayRows;
use std::alloc::{AllocError, Global};
use unicode_width::UnicodeWidthStr;

/// What a day is called, its week, and the minute of now, where it is today.
#[derive(Clone, Copy, Debug)]
pub struct DayHead<'a> {
    pub name: &'a str,
    pub week: &'a str,
    pub now: Option<u16>,
}

/// What a day is drawn on: the most columns of a line, how many lines there are room for, if that is known, and the signs.
#[derive(Clone, Copy, Debug)]
pub struct DayLook {
    pub columns: usize,
    pub lines: Option<usize>,
    pub signs: Signs,
}

/// What all lines of a section have: the day, what it is drawn on, the columns, the digits of the number of late days, and the
/// section.
#[derive(Clone, Copy)]
pub(crate) struct Frame<'a> {
    pub(crate) head: &'a DayHead<'a>,
    pub(crate) look: &'a DayLook,
    pub(crate) columns: Columns,
    pub(crate) late_digits: usize,
    pub(crate) section: Section,
}

impl Frame<'_> {
    /// Whether a row of a kind says that it is of today: what is due does, and a habit.
    pub(crate) fn says_today(&self, kind: Kind) -> bool {
        self.head.now.is_some() && (kind == Kind::Due || self.section == Section::Habits)
    }
}

// The sections in their order.
const SECTIONS: [Section; 7] = [
    Section::AllDay,
    Section::ByTheClock,
    Section::Due,
    Section::Late,
    Section::Planned,
    Section::DueSoon,
    Section::Habits,
];

/// The lines of a day: its name, and each section that has a row.
pub fn day_lines(
    alloc: Global,
    rows: &DayRows,
    head: &DayHead<'_>,
    look: &DayLook,
) -> Result<Vec<Line>, AllocError> {
    let placed = placed_rows(alloc, rows.stands.as_slice())?;
    let columns = Columns::of(alloc, rows, placed.as_slice(), head, look)?;
    let base = Frame {
        head,
        look,
        columns,
        late_digits: 0,
        section: Section::AllDay,
    };
    let mut out = Vec::new(alloc);
    let title = title_line(alloc, rows, placed.as_slice(), &base)?;
    push_line(&mut out, title, &base)?;
    let day = SortedDay {
        rows,
        placed: placed.as_slice(),
        counts: Counts::of(placed.as_slice(), look.lines, head.now.is_some()),
    };
    for section in SECTIONS.iter() {
        let frame = Frame {
            section: *section,
            ..base
        };
        push_section(alloc, &mut out, &day, &frame)?;
    }
    Ok(out)
}

// The rows of a day, the same by sections, and how many of these are shown.
#[derive(Drop)]
struct SortedDay<'a> {
    rows: &'a DayRows,
    placed: &'a [Placed],
    counts: Counts,
}

// The rows that stand in a section.
fn rows_in(placed: &[Placed], section: Section) -> &[Placed] {
    let rank = section.rank();
    let first = placed.partition_point(|row| row.rank < rank);
    let behind = placed.partition_point(|row| row.rank <= rank);
    match placed.get(first..behind) {
        Some(own) => own,
        None => &[],
    }
}

// Appends a line, when it is done.
#[tactic(auto, using(crate::proofs::LineLemmas::one_line_more))]
fn push_line(out: &mut Vec<Line>, draft: Draft, frame: &Frame<'_>) -> Result<(), AllocError>
    ensures lines { KeepsLines frame.now.look.now.columns result out.old out.new }
{
    let line = draft.finish(frame.look.columns)?;
    out.push(line)?;
    Ok(())
}

// Appends a section, if it has a row.
fn push_section(
    alloc: Global,
    out: &mut Vec<Line>,
    day: &SortedDay<'_>,
    frame: &Frame<'_>,
) -> Result<(), AllocError> {
    let own = rows_in(day.placed, frame.section);
    if own.is_empty() {
        return Ok(());
    }
    let frame = Frame {
        late_digits: late_digits(day.rows, own, frame.section),
        ..*frame
    };
    let all = day.counts.all_of(frame.section);
    let shown = day.counts.shown_of(frame.section);
    push_line(out, Draft::new(alloc), &frame)?;
    push_line(out, name_line(alloc, all, &frame)?, &frame)?;
    push_rows(alloc, out, day.rows, first_lines(own, shown), &frame)?;
    if shown < all {
        let others = others_line(alloc, all.saturating_sub(shown), &frame)?;
        push_line(out, others, &frame)?;
    }
    Ok(())
}

// The first so many lines of a section.
fn first_lines(own: &[Placed], count: usize) -> &[Placed] {
    let mut lines: usize = 0;
    for (place, row) in own.iter().enumerate() {
        if !row.is_note {
            if lines == count {
                return front_of(own, place);
            }
            lines = lines.saturating_add(1);
        }
    }
    own
}

// The first so many of some rows.
fn front_of(own: &[Placed], count: usize) -> &[Placed] {
    match own.split_at_checked(count) {
        Some((first, _)) => first,
        None => own,
    }
}

// The most digits of the days of late rows, three at most; none in other sections.
fn late_digits(rows: &DayRows, own: &[Placed], section: Section) -> usize {
    let mut digits: usize = 0;
    if section != Section::Late {
        return digits;
    }
    for row in own {
        if let (false, Some(stand)) = (row.is_note, rows.stands.as_slice().get(row.place)) {
            digits = digits.max(digits_of(stand.kind));
        }
    }
    digits
}

fn digits_of(kind: Kind) -> usize {
    let (Kind::LateDue(days) | Kind::LatePlanned(days)) = kind else {
        return 0;
    };
    match late_number(days).0 {
        0..=9 => 1,
        10..=99 => 2,
        _ => 3,
    }
}

// The line of a section's name, with how many lines it has.
fn name_line(alloc: Global, count: usize, frame: &Frame<'_>) -> Result<Draft, AllocError> {
    let (role, name) = name_of(frame.section, frame.head.now.is_some());
    let count = format!(in alloc; " {count}")?;
    let mut draft = Draft::new(alloc);
    draft.push(role, name)?;
    draft.push(Role::Dim, count.as_str())?;
    Ok(draft)
}

fn name_of(section: Section, is_today: bool) -> (Role, &'static str) {
    match section {
        Section::AllDay => (Role::Head, "All day"),
        Section::ByTheClock => (Role::Head, "By the clock"),
        Section::Due if is_today => (Role::DueHead, "Due today"),
        Section::Due => (Role::DueHead, "Due"),
        Section::Late => (Role::LateHead, "Late"),
        Section::Planned if is_today => (Role::Head, "Planned today"),
        Section::Planned => (Role::Head, "Planned"),
        Section::DueSoon => (Role::Head, "Due soon"),
        Section::Habits => (Role::Head, "Habits"),
    }
}

// The line that says how many others a section has.
fn others_line(alloc: Global, count: usize, frame: &Frame<'_>) -> Result<Draft, AllocError> {
    let sign = frame.look.signs.cut_sign();
    let text = format!(in alloc; "{sign} {count} more")?;
    let mut draft = Draft::new(alloc);
    draft.push(Role::Plain, "  ")?;
    draft.push(Role::Dim, text.as_str())?;
    Ok(draft)
}

// Appends the lines of rows of a section, the line of now in front of the first one that begins later or behind them all.
fn push_rows(
    alloc: Global,
    out: &mut Vec<Line>,
    rows: &DayRows,
    own: &[Placed],
    frame: &Frame<'_>,
) -> Result<(), AllocError> {
    let mut now = now_in(frame);
    for place in 0..own.len() {
        let row = &own[place];
        if row.is_note {
            continue;
        }
        if let (Some(minute), Some(start)) = (now, start_of(rows, row)) {
            if start > minute {
                push_line(out, now_line(alloc, minute, frame)?, frame)?;
                now = None;
            }
        }
        let line = row_line(alloc, rows, line_at(own, place), frame)?;
        push_line(out, line, frame)?;
    }
    if let Some(minute) = now {
        push_line(out, now_line(alloc, minute, frame)?, frame)?;
    }
    Ok(())
}

// The minute of now, in the section that has a line for it.
fn now_in(frame: &Frame<'_>) -> Option<u16> {
    match frame.section {
        Section::ByTheClock => frame.head.now,
        _ => None,
    }
}

// The name of the day with its week, and when the next row begins.
fn title_line(
    alloc: Global,
    rows: &DayRows,
    placed: &[Placed],
    frame: &Frame<'_>,
) -> Result<Draft, AllocError> {
    let mut draft = Draft::new(alloc);
    draft.push(Role::Head, frame.head.name)?;
    draft.push(Role::Plain, "  ")?;
    draft.push(Role::Dim, frame.head.week)?;
    if frame.columns.breadth != Breadth::Narrow {
        let next = next_of(alloc, rows, placed, frame)?;
        draft.push_right(Role::Dim, next.as_str(), frame.columns.whole)?;
    }
    Ok(draft)
}

// When the next row with a time begins today; nothing where none does.
fn next_of(
    alloc: Global,
    rows: &DayRows,
    placed: &[Placed],
    frame: &Frame<'_>,
) -> Result<String, AllocError> {
    let Some(now) = frame.head.now else {
        return Ok(String::new(alloc));
    };
    for row in placed {
        if let Some(start) = start_of(rows, row) {
            if start > now {
                return next_words(alloc, start, now);
            }
        }
    }
    Ok(String::new(alloc))
}

// The start of a row that stands in its section by its time.
fn start_of(rows: &DayRows, row: &Placed) -> Option<u16> {
    if row.rank != Section::ByTheClock.rank() {
        return None;
    }
    let stand: &Stand = rows.stands.as_slice().get(row.place)?;
    let hours = stand.hours?;
    Some(hours.start)
}

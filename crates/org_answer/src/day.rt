//! A day in sections, over files that were read.
ghost use Rattle.org_client.specs.Files.{AreRead};

use crate::day_words::row_words;
use crate::view::{Chosen, Days, agenda_over};
use org_agenda::{Row, RowKind};
use org_base::Fault;
use org_cal::{Day, TimeOfDay};
use org_client::{KeptHeadings, full_day_name, month_name};
use org_day::{Background, DayHead, DayLook, DayRows, Hours, Kind, Stand, day_lines, paint_lines};
use org_inherit::{Heading, Inherits};
use std::alloc::{AllocError, Global};

/// What a day in sections is drawn on, the background of its colours, where it has any, and how many of its rows are shown at
/// most.
#[derive(Clone, Copy, Debug)]
pub struct DayCanvas {
    pub look: DayLook,
    pub background: Option<Background>,
    pub limit: Option<u32>,
}

/// A day in sections as it is printed, and whether it has a row.
#[derive(Debug, Drop)]
pub struct DayText {
    pub bytes: Vec<u8>,
    pub has_row: bool,
}

/// The first of some days in sections, over the stamps that are chosen; of its rows the first so many, where a limit is named. One
/// without a row is said to have none.
pub fn day_text(
    alloc: Global,
    inherits: &Inherits<'_>,
    chosen: &Chosen<'_>,
    days: Days,
    canvas: &DayCanvas,
) -> Result<DayText, Fault>
    requires read { AreRead inherits.now }
{
    let mut rows = first_day(alloc, inherits, chosen, days)?;
    if let Some(limit) = canvas.limit {
        rows.truncate(limit as usize);
    }
    let (name, week) = names_of(alloc, days.first)?;
    let minute = chosen.moment.minute.minutes();
    let head = DayHead {
        name: name.as_str(),
        week: week.as_str(),
        now: (days.first == chosen.as_of.today).then_some(minute),
    };
    let bytes = if rows.is_empty() {
        nothing(alloc, &head)?
    } else {
        let values = day_rows(alloc, inherits, rows.as_slice(), days.first)?;
        let lines = day_lines(alloc, &values, &head, &canvas.look)?;
        paint_lines(alloc, lines.as_slice(), canvas.background)?
    };
    let has_row = !rows.is_empty();
    Ok(DayText { bytes, has_row })
}

// The rows of the first of some days.
fn first_day(
    alloc: Global,
    inherits: &Inherits<'_>,
    chosen: &Chosen<'_>,
    days: Days,
) -> Result<Vec<Row>, Fault>
    requires read { AreRead inherits.now }
{
    let agenda = agenda_over(alloc, inherits, chosen, days)?;
    if agenda.count() > 0 {
        agenda.rows(alloc, 0)
    } else {
        Ok(Vec::new(alloc))
    }
}

// What a day and its week are called.
fn names_of(alloc: Global, day: Day) -> Result<(String, String), AllocError> {
    let (year, month, of_month) = day.parts();
    let (_, week) = day.iso_week();
    let (weekday, month) = (full_day_name(day), month_name(month));
    let name = format!(in alloc; "{weekday} {of_month} {month} {year}")?;
    Ok((name, format!(in alloc; "week {week}")?))
}

// What is said of a day without a row.
fn nothing(alloc: Global, head: &DayHead<'_>) -> Result<Vec<u8>, AllocError> {
    let said = if head.now.is_some() {
        String::from_str(alloc, "Nothing today.\n")?
    } else {
        let name = head.name;
        format!(in alloc; "Nothing on {name}.\n")?
    };
    Ok(said.into_bytes())
}

// How the rows of a day stand on it, and what they say.
fn day_rows(
    alloc: Global,
    inherits: &Inherits<'_>,
    rows: &[Row],
    day: Day,
) -> Result<DayRows, Fault> {
    let titles = KeptHeadings::new(alloc, inherits)?;
    let firsts = first_numbers(alloc, inherits)?;
    let mut values = DayRows {
        stands: Vec::new(alloc),
        words: Vec::new(alloc),
    };
    for row in rows {
        values
            .stands
            .push(stand_of(inherits, firsts.as_slice(), row)?)?;
        values.words.push(row_words(alloc, &titles, row, day)?)?;
    }
    Ok(values)
}

// The numbers of the first headings of files, where all headings of all files are counted.
fn first_numbers(alloc: Global, inherits: &Inherits<'_>) -> Result<Vec<usize>, AllocError> {
    let mut firsts = Vec::new(alloc);
    let mut first: usize = 0;
    for file in 0..inherits.count() {
        firsts.push(first)?;
        first = first.saturating_add(inherits.get(file).outline().count());
    }
    Ok(firsts)
}

fn stand_of(inherits: &Inherits<'_>, firsts: &[usize], row: &Row) -> Result<Stand, Fault> {
    let first = firsts.get(row.file).copied().unwrap_or(0);
    let mut stand = Stand {
        heading: first.saturating_add(row.heading),
        kind: kind_of(row),
        hours: hours_of(row.start, row.end),
        is_habit: false,
        urgency: 0,
    };
    if let Some(heading) = Heading::find(inherits, row.file, row.heading) {
        stand.is_habit = is_habit(&heading)?;
        stand.urgency = heading.priority_number();
    }
    Ok(stand)
}

fn kind_of(row: &Row) -> Kind {
    match row.kind {
        RowKind::Listed | RowKind::OnDay => Kind::Stamp,
        RowKind::InRange => Kind::Range(row.number, row.of),
        RowKind::OnSchedule => Kind::Planned,
        RowKind::OnDeadline => Kind::Due,
        RowKind::LateSchedule => Kind::LatePlanned(row.number),
        RowKind::LateDeadline => Kind::LateDue(row.number),
        RowKind::Warning => Kind::DueIn(row.number),
    }
}

fn hours_of(start: Option<TimeOfDay>, end: Option<TimeOfDay>) -> Option<Hours> {
    let start = start?.minutes();
    let end = match end {
        Some(end) => Some(end.minutes()),
        None => None,
    };
    Some(Hours { start, end })
}

// The style of habits.
const HABIT: &[u8] = b"habit";

// Whether a heading is a habit (Org manual 9.6, "Tracking your habits").
fn is_habit(heading: &Heading<'_, '_>) -> Result<bool, Fault> {
    match heading.inherit.value(heading.place, b"STYLE")? {
        Some(style) => Ok(style.as_slice() == HABIT),
        None => Ok(false),
    }
}

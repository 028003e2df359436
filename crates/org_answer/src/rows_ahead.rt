//! What comes next, line by line.
ghost use Rattle.std.specs.Prelude.{◌≡◌, filter};
ghost use Rattle.org_base.specs.Results.{Adds, GivesItems};
ghost use Rattle.org_client.specs.Reminders.{rows_between};
ghost use Rattle.org_answer.specs.Ahead.{ShowsNext, ShowsRows, begins_soon, lines_of_days, lines_under, rows_on};

use crate::view::Answer;
use org_agenda::{Agenda, Row};
use org_base::Fault;
use org_cal::{Day, Moment};
use org_client::{Upcoming, Window, next_rows, rows_between};
use org_layout::{Line, push_day_lines};
use std::alloc::{AllocError, Global};

/// Of each stamp of an agenda its first row that isn't before the moment, day by day; where minutes are named, only those
/// that begin within them.
pub(crate) fn rows_ahead(
    alloc: Global,
    agenda: &Agenda,
    now: &Moment,
    within: Option<u32>,
) -> Result<Answer, Fault>
    ensures value { ShowsNext result agenda.now now.now within }
{
    let next = next_rows(alloc, agenda, now)?;
    match within {
        Some(minutes) => {
            let some = rows_within(alloc, next.as_slice(), now, minutes)?;
            by_days(alloc, agenda, some.as_slice())
        }
        None => by_days(alloc, agenda, next.as_slice()),
    }
}

/// The rows of an agenda that begin within a window, day by day.
pub(crate) fn rows_since(alloc: Global, agenda: &Agenda, window: &Window) -> Result<Answer, Fault>
    ensures value { ShowsRows result agenda.now (rows_between window.now agenda.now) }
{
    let rows = rows_between(alloc, agenda, window)?;
    by_days(alloc, agenda, rows.as_slice())
}

// Some rows under the days of an agenda that have any.
fn by_days(alloc: Global, agenda: &Agenda, all: &[Upcoming]) -> Result<Answer, Fault>
    ensures { ShowsRows result agenda.now all.now }
{
    Ok(Answer {
        lines: lines_by_days(alloc, agenda, all)?,
        with_effort: false,
    })
}

fn lines_by_days(alloc: Global, agenda: &Agenda, all: &[Upcoming]) -> Result<Vec<Line>, AllocError>
    ensures { GivesItems result (lines_of_days all.now agenda.now.first agenda.now.count) }
{
    let mut lines = Vec::new(alloc);
    for ahead in 0..agenda.count() {
        let day = agenda.day(ahead);
        let rows = rows_on(alloc, all, day)?;
        push_day(&mut lines, day, rows.as_slice())?;
    }
    Ok(lines)
}

// Appends the lines of a day, if it has rows.
fn push_day(lines: &mut Vec<Line>, day: Day, rows: &[Row]) -> Result<(), AllocError>
    ensures { Adds result lines.old lines.new (lines_under day rows.now) }
{
    if rows.is_empty() {
        return Ok(());
    }
    push_day_lines(lines, day, rows)
}

// The rows of a day.
fn rows_on(alloc: Global, all: &[Upcoming], day: Day) -> Result<Vec<Row>, AllocError>
    ensures { GivesItems result (rows_on all.now day) }
{
    let mut rows = Vec::new(alloc);
    for upcoming in all {
        if upcoming.day == day {
            rows.push(upcoming.row)?;
        }
    }
    Ok(rows)
}

// Those of some rows that begin in so many minutes.
fn rows_within(
    alloc: Global,
    all: &[Upcoming],
    now: &Moment,
    minutes: u32,
) -> Result<Vec<Upcoming>, AllocError>
    ensures { GivesItems result (filter (begins_soon now.now minutes) all.now) }
{
    let mut rows = Vec::new(alloc);
    for upcoming in all {
        if begins_soon(upcoming, now, minutes) {
            rows.push(*upcoming)?;
        }
    }
    Ok(rows)
}

fn begins_soon(upcoming: &Upcoming, now: &Moment, minutes: u32) -> bool
    ensures { result ≡ begins_soon now.now minutes upcoming.now }
{
    let Some(start) = upcoming.row.start else {
        return false;
    };
    let begins = Moment {
        day: upcoming.day,
        minute: start,
    };
    begins.minute().number() <= now.minute().number() + u64::from(minutes)
}

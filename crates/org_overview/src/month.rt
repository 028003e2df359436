//! The month.
ghost use Rattle.std.specs.Prelude.{◌≡◌, ◌+◌, ◌*◌, ◌<◌, ◌≤◌, IfOk, IsOkUnless};
ghost use Rattle.org_base.specs.Codes.{memory_fault};
ghost use Rattle.org_overview.specs.Cells.{ShowsCell, ShowsCells, ShowsMonth, ShowsParts, ShowsWeek, ShowsWeeks};

use crate::asked::Wish;
use crate::part::Part;
use crate::rows::{Linked, part_rows};
use crate::words::{cell_words, date_of, month_words};
use org_agenda::{Agenda, Row};
use org_base::Fault;
use org_cal::Day;
use org_page::{Month, MonthDay, Row as PageRow, Week};
use org_text::Text;
use std::alloc::{AllocError, Global};

/// The month of a page: the first weeks of an agenda.
pub(crate) fn shown_month<T: Text>(
    alloc: Global,
    seen: &Linked<'_, '_, T>,
    agenda: &Agenda,
) -> Result<Month, Fault>
    requires within { 7 * seen.now.wish.now.weeks ≤ agenda.now.count }
    ensures value { ShowsMonth result seen.now.files.now.files agenda.now seen.now.wish.now.weeks }
    ensures memory { IsOkUnless result memory_fault }
{
    let title = month_words(alloc, seen.wish.moment.day)?;
    let weeks = weeks_of(alloc, seen, agenda)?;
    Ok(Month { title, weeks })
}

fn weeks_of<T: Text>(
    alloc: Global,
    seen: &Linked<'_, '_, T>,
    agenda: &Agenda,
) -> Result<Vec<Week>, Fault>
    requires within { 7 * seen.now.wish.now.weeks ≤ agenda.now.count }
    ensures value { ShowsWeeks result seen.now.files.now.files agenda.now seen.now.wish.now.weeks }
    ensures memory { IsOkUnless result memory_fault }
{
    // For the proof alone: there are no more days than a number holds.
    let _count = agenda.count();
    let mut weeks = Vec::new(alloc);
    for week in 0..seen.wish.weeks {
        let week = week_of(alloc, seen, agenda, 7 * week)?;
        weeks.push(week)?;
    }
    Ok(weeks)
}

// The week whose first day is so many days after the first of an agenda.
fn week_of<T: Text>(
    alloc: Global,
    seen: &Linked<'_, '_, T>,
    agenda: &Agenda,
    first: u32,
) -> Result<Week, Fault>
    requires within { first + 7 ≤ agenda.now.count }
    ensures value { ShowsWeek result seen.now.files.now.files agenda.now first }
    ensures memory { IsOkUnless result memory_fault }
{
    let days = week_days(alloc, seen, agenda, first)?;
    let (_, number) = agenda.day(first).iso_week();
    Ok(Week {
        number: u32::from(number),
        days,
    })
}

fn week_days<T: Text>(
    alloc: Global,
    seen: &Linked<'_, '_, T>,
    agenda: &Agenda,
    first: u32,
) -> Result<Vec<MonthDay>, Fault>
    requires within { first + 7 ≤ agenda.now.count }
    ensures value { ShowsCells result seen.now.files.now.files agenda.now first }
    ensures memory { IsOkUnless result memory_fault }
{
    // For the proof alone: there are no more days than a number holds.
    let _count = agenda.count();
    let mut days = Vec::new(alloc);
    for column in 0..7 {
        let day = month_day(alloc, seen, agenda, first + column)?;
        days.push(day)?;
    }
    Ok(days)
}

fn month_day<T: Text>(
    alloc: Global,
    seen: &Linked<'_, '_, T>,
    agenda: &Agenda,
    ahead: u32,
) -> Result<MonthDay, Fault>
    requires within { ahead < agenda.now.count }
    ensures value { ShowsCell result seen.now.files.now.files agenda.now ahead }
    ensures memory { IsOkUnless result memory_fault }
{
    let rows = agenda.rows(alloc, ahead)?;
    let cell = cell_of(alloc, seen, rows.as_slice())?;
    let day = named_cell(alloc, seen.wish, agenda.day(ahead), cell)?;
    Ok(day)
}

// What a day of a month has: its days of ranges, and its other rows.
#[derive(Debug, Drop)]
pub struct Cell {
    ranges: Vec<PageRow>,
    rows: Vec<PageRow>,
}

fn cell_of<T: Text>(alloc: Global, seen: &Linked<'_, '_, T>, rows: &[Row]) -> Result<Cell, Fault>
    ensures value { ShowsParts result seen.now.files.now.files rows.now }
    ensures memory { IsOkUnless result memory_fault }
{
    let ranges = part_rows(alloc, seen, rows, Part::Ranges)?;
    let rows = part_rows(alloc, seen, rows, Part::Single)?;
    Ok(Cell { ranges, rows })
}

// A day of a month with what it has.
fn named_cell(alloc: Global, wish: &Wish<'_>, day: Day, cell: Cell) -> Result<MonthDay, AllocError>
    ensures ranges { IfOk result (λ day. day.ranges ≡ cell.ranges) }
    ensures rows { IfOk result (λ day. day.rows ≡ cell.rows) }
{
    let date = date_of(alloc, day)?;
    let number = cell_words(alloc, day)?;
    Ok(MonthDay {
        date,
        number,
        is_weekend: (day.number() + 6) % 7 > 4,
        is_other: day.number() < wish.month.first.number()
            || day.number() > wish.month.last.number(),
        is_today: day.number() == wish.moment.day.number(),
        ranges: cell.ranges,
        rows: cell.rows,
    })
}

//! The days that come.
ghost use Rattle.std.specs.Prelude.{◌≡◌, ◌+◌, ◌<◌, ◌≤◌, IfOk, IsOkUnless};
ghost use Rattle.org_base.specs.Codes.{memory_fault};
ghost use Rattle.org_overview.specs.Days.{ShowsComing, ShowsDay, ShowsOwn};

use crate::part::Part;
use crate::rows::{Linked, part_rows};
use crate::words::{date_of, day_words};
use org_agenda::Agenda;
use org_base::Fault;
use org_cal::Day;
use org_page::{Day as PageDay, Row as PageRow};
use org_text::Text;
use std::alloc::{AllocError, Global};

/// So many days of an agenda from one on, each with the rows that are of it.
pub(crate) fn coming_days<T: Text>(
    alloc: Global,
    seen: &Linked<'_, '_, T>,
    agenda: &Agenda,
    from: u32,
    count: u32,
) -> Result<Vec<PageDay>, Fault>
    requires within { from + count ≤ agenda.now.count }
    ensures value { ShowsComing result seen.now.files.now.files agenda.now from count }
    ensures memory { IsOkUnless result memory_fault }
{
    // For the proof alone: there are no more days than a number holds.
    let _count = agenda.count();
    let mut days = Vec::new(alloc);
    for place in 0..count {
        let day = coming_day(alloc, seen, agenda, from + place)?;
        days.push(day)?;
    }
    Ok(days)
}

fn coming_day<T: Text>(
    alloc: Global,
    seen: &Linked<'_, '_, T>,
    agenda: &Agenda,
    ahead: u32,
) -> Result<PageDay, Fault>
    requires within { ahead < agenda.now.count }
    ensures value { ShowsDay result seen.now.files.now.files agenda.now ahead }
    ensures memory { IsOkUnless result memory_fault }
{
    let rows = own_rows(alloc, seen, agenda, ahead)?;
    let day = named_day(alloc, agenda.day(ahead), rows)?;
    Ok(day)
}

fn own_rows<T: Text>(
    alloc: Global,
    seen: &Linked<'_, '_, T>,
    agenda: &Agenda,
    ahead: u32,
) -> Result<Vec<PageRow>, Fault>
    requires within { ahead < agenda.now.count }
    ensures value { ShowsOwn result seen.now.files.now.files agenda.now ahead }
    ensures memory { IsOkUnless result memory_fault }
{
    let rows = agenda.rows(alloc, ahead)?;
    part_rows(alloc, seen, rows.as_slice(), Part::Own)
}

// A day with its rows.
fn named_day(alloc: Global, day: Day, rows: Vec<PageRow>) -> Result<PageDay, AllocError>
    ensures rows { IfOk result (λ day. day.rows ≡ rows) }
{
    let date = date_of(alloc, day)?;
    let name = day_words(alloc, day)?;
    Ok(PageDay { date, name, rows })
}

//! Today, what is late, and what is due soon.
ghost use Rattle.std.specs.Prelude.{IsOkUnless};
ghost use Rattle.org_base.specs.Codes.{memory_fault};
ghost use Rattle.org_overview.specs.Here.{GivesHere, GivesSoon, GivesToday};

use crate::part::{Part, by_number, rows_of};
use crate::rows::{Linked, page_rows, part_rows};
use org_agenda::Row;
use org_base::Fault;
use org_page::{Row as PageRow, Today, place_rows};
use org_text::Text;
use std::alloc::Global;

/// What a page shows of today.
#[derive(Drop)]
pub(crate) struct Here {
    pub(crate) today: Today,
    pub(crate) late: Vec<PageRow>,
    pub(crate) soon: Vec<PageRow>,
}

/// The rows of today, in the parts of the page.
pub(crate) fn here_of<T: Text>(
    alloc: Global,
    seen: &Linked<'_, '_, T>,
    rows: &[Row],
) -> Result<Here, Fault>
    ensures value { GivesHere result seen.now.files.now.files rows.now }
    ensures memory { IsOkUnless result memory_fault }
{
    let today = today_of(alloc, seen, rows)?;
    let late = part_rows(alloc, seen, rows, Part::Late)?;
    let soon = soon_rows(alloc, seen, rows)?;
    Ok(Here { today, late, soon })
}

// Today: rows without hours, and those with hours in boxes.
fn today_of<T: Text>(alloc: Global, seen: &Linked<'_, '_, T>, rows: &[Row]) -> Result<Today, Fault>
    ensures today { GivesToday result seen.now.files.now.files rows.now }
    ensures memory { IsOkUnless result memory_fault }
{
    let whole = part_rows(alloc, seen, rows, Part::Whole)?;
    let timed = part_rows(alloc, seen, rows, Part::Timed)?;
    let placed = place_rows(alloc, timed)?;
    Ok(Today {
        whole,
        boxes: placed.boxes,
        beside: placed.beside,
        minute: seen.wish.moment.minute.minutes(),
    })
}

// What is due soon, by days.
fn soon_rows<T: Text>(
    alloc: Global,
    seen: &Linked<'_, '_, T>,
    rows: &[Row],
) -> Result<Vec<PageRow>, Fault>
    ensures soon { GivesSoon result seen.now.files.now.files rows.now }
    ensures memory { IsOkUnless result memory_fault }
{
    let some = rows_of(alloc, rows, Part::Soon)?;
    let sorted = by_number(some)?;
    page_rows(alloc, seen, sorted.as_slice())
}

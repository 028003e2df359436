//! Which stamps come next.
ghost use Rattle.std.specs.Prelude.{◌≡◌, fold, IsOkUnless, OnOk};
ghost use Rattle.org_base.specs.Codes.{memory_fault};
ghost use Rattle.org_base.specs.Results.{GivesItems};
ghost use Rattle.org_agenda.specs.Laws.{reminds};
ghost use Rattle.org_client.specs.Next.{AreStampsOf, is_ahead, next_rows, starts_by, with_new, with_row};

use org_agenda::{Agenda, Row, RowKind};
use org_base::Fault;
use org_cal::{Day, Moment, TimeOfDay};
use std::alloc::{AllocError, Global};
use std::collections::BTreeSet;

/// A row that comes on a day.
#[derive(Clone, Copy, Debug, PartialEq, Eq)]
pub struct Upcoming {
    pub day: Day,
    pub row: Row,
}

/// Of each stamp of an agenda the first row that isn't before the moment: by days, and then as the days show them. Late
/// rows and warnings are none.
pub fn next_rows(alloc: Global, agenda: &Agenda, now: &Moment) -> Result<Vec<Upcoming>, Fault>
    ensures value { GivesItems result (next_rows now.now agenda.now) }
    ensures memory { IsOkUnless result memory_fault }
{
    let mut next = Vec::new(alloc);
    let mut stamps = BTreeSet::new(alloc);
    for ahead in 0..agenda.count() {
        let rows = agenda.rows(alloc, ahead)?;
        push_day(
            &mut next,
            &mut stamps,
            now,
            agenda.day(ahead),
            rows.as_slice(),
        )?;
    }
    Ok(next)
}

// Puts those of a day's rows after others that come next, which are of these stamps.
fn push_day(
    next: &mut Vec<Upcoming>,
    stamps: &mut BTreeSet<(usize, usize, usize)>,
    now: &Moment,
    day: Day,
    rows: &[Row],
) -> Result<(), AllocError>
    requires known { AreStampsOf stamps.old next.old.items }
    ensures value { OnOk result (next.new.items ≡ fold (with_row now.now day) next.old.items rows.now) }
    ensures known { OnOk result (AreStampsOf stamps.new next.new.items) }
{
    for row in rows {
        if is_ahead(now, day, row) {
            push_new(next, stamps, day, row)?;
        }
    }
    Ok(())
}

// Puts a row after others, unless one of them is of its stamp.
fn push_new(
    next: &mut Vec<Upcoming>,
    stamps: &mut BTreeSet<(usize, usize, usize)>,
    day: Day,
    row: &Row,
) -> Result<(), AllocError>
    requires known { AreStampsOf stamps.old next.old.items }
    ensures value { OnOk result (next.new.items ≡ with_new next.old.items day row.now) }
    ensures known { OnOk result (AreStampsOf stamps.new next.new.items) }
{
    let stamp = stamp_of(row);
    if stamps.contains(&stamp) {
        return Ok(());
    }
    stamps.insert(stamp)?;
    next.push(Upcoming { day, row: *row })?;
    Ok(())
}

// The stamp of a row: the places of its file, of its heading and in its section.
fn stamp_of(row: &Row) -> (usize, usize, usize)
    ensures value { result ≡ (row.now.file, row.now.heading, row.now.stamp_at) }
{
    (row.file, row.heading, row.stamp_at)
}

// Whether a row of a day isn't before the moment, and no late row or warning.
fn is_ahead(now: &Moment, day: Day, row: &Row) -> bool
    ensures { result ≡ is_ahead now.now day row.now }
{
    let (today, day) = (now.day.number(), day.number());
    !reminds(row.kind) && (today < day || (today == day && starts_by(now.minute, row.start)))
}

fn starts_by(minute: TimeOfDay, start: Option<TimeOfDay>) -> bool
    ensures { result ≡ starts_by minute start }
{
    match start {
        Some(start) => minute.minutes() <= start.minutes(),
        None => true,
    }
}

fn reminds(kind: RowKind) -> bool
    ensures { result ≡ reminds kind }
{
    match kind {
        RowKind::LateSchedule | RowKind::Warning | RowKind::LateDeadline => true,
        RowKind::Listed
        | RowKind::OnDay
        | RowKind::InRange
        | RowKind::OnSchedule
        | RowKind::OnDeadline => false,
    }
}

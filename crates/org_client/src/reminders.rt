//! Rows that begin between two moments.
ghost use Rattle.std.specs.Prelude.{◌≡◌, IsOkUnless};
ghost use Rattle.org_base.specs.Codes.{memory_fault};
ghost use Rattle.org_base.specs.Results.{Adds, GivesItems};
ghost use Rattle.org_client.specs.Reminders.{is_after, is_in_window, rows_between, window_rows};

use crate::next::Upcoming;
use org_agenda::{Agenda, Row};
use org_base::Fault;
use org_cal::{Day, Moment, TimeOfDay};
use std::alloc::{AllocError, Global};

/// What lies after one moment and not after another.
#[derive(Clone, Copy, Debug, PartialEq, Eq)]
pub struct Window {
    pub after: Moment,
    pub until: Moment,
}

/// The rows of an agenda that begin within a window, by days, and then as the days show them: each has a start.
pub fn rows_between(alloc: Global, agenda: &Agenda, window: &Window) -> Result<Vec<Upcoming>, Fault>
    ensures value { GivesItems result (rows_between window.now agenda.now) }
    ensures memory { IsOkUnless result memory_fault }
{
    let mut between = Vec::new(alloc);
    for ahead in 0..agenda.count() {
        let rows = agenda.rows(alloc, ahead)?;
        push_between(&mut between, window, agenda.day(ahead), rows.as_slice())?;
    }
    Ok(between)
}

// Puts those of a day's rows after others.
fn push_between(
    between: &mut Vec<Upcoming>,
    window: &Window,
    day: Day,
    rows: &[Row],
) -> Result<(), AllocError>
    ensures value { Adds result between.old between.new (window_rows window.now day rows.now) }
{
    for row in rows {
        if is_in_window(window, day, row.start) {
            between.push(Upcoming { day, row: *row })?;
        }
    }
    Ok(())
}

fn is_in_window(window: &Window, day: Day, start: Option<TimeOfDay>) -> bool
    ensures value { result ≡ is_in_window window.now day start }
{
    match start {
        Some(start) => {
            is_after(&window.after, day, start) && !is_after(&window.until, day, start)
        }
        None => false,
    }
}

fn is_after(moment: &Moment, day: Day, time: TimeOfDay) -> bool
    ensures value { result ≡ is_after moment.now day time }
{
    let (from, day) = (moment.day.number(), day.number());
    from < day || (from == day && moment.minute.minutes() < time.minutes())
}

//! Which rows a stamp gives on a day.
ghost use Rattle.std.specs.Prelude.{◌≡◌, ◌<◌, ◌≤◌, ◌+◌, ◌-◌, nat_le, nat_lt, ◌&&◌, length, unwrap_or, OnOk};
ghost use Rattle.org_cal.specs.declared.day.TheConstants.{LAST_DAY};
ghost use Rattle.org_agenda.specs.Days.{due_day, is_due, is_shown, numbers, occurs_delayed, occurs_later, range_numbers, range_times, shown_from, times};
ghost use Rattle.org_agenda.specs.Results.{Gathers};
ghost use Rattle.org_agenda.specs.Spread.{seen_kind, seen_rows};
ghost use Rattle.org_agenda.specs.declared.lists.TheConstants.{PRIORITIES};
ghost use Rattle.org_index.specs.Delays.{delay_or};
ghost use Rattle.org_index.specs.declared.delays.TheConstants.{DELAY_LIMIT, WARNING_DAYS};
ghost use Rattle.org_repeat.specs.Decided.{occurs};

use crate::as_of::AsOf;
use crate::buckets::Buckets;
use crate::row::{Row, RowKind};
use crate::source::HeadingStamp;
use org_base::Profile;
use org_cal::{Day, TimeOfDay};
use org_entry::Role;
use org_index::{WARNING_DAYS, days_in, delay_or};
use org_repeat::{next_after, occurs_on, range_start};
use org_stamp::{Delay, Stamp};
use std::alloc::AllocError;

pub(crate) fn occurs_delayed(
    stamp: &Stamp,
    profile: Profile,
    delay: Option<Delay>,
    day: Day,
) -> bool
    ensures value { result ≡ occurs_delayed profile stamp.now delay day }
{
    match delay {
        Some(delay) => {
            let later = days_in(delay.unit, delay.n);
            occurs_later(stamp, profile, delay.first_only, later, day)
        }
        None => occurs_on(stamp, profile, day),
    }
}

fn occurs_later(stamp: &Stamp, profile: Profile, first_only: bool, later: u32, day: Day) -> bool
    requires { later < DELAY_LIMIT }
    ensures value { result ≡ occurs_later profile first_only stamp.now later day }
{
    match first_only {
        true => day.number() == stamp.day.number() + later
            || (!(day.number() == stamp.day.number()) && occurs_on(stamp, profile, day)),
        false => occurs_before(stamp, profile, later, day),
    }
}

// Whether the stamp occurs so many days before.
fn occurs_before(stamp: &Stamp, profile: Profile, later: u32, day: Day) -> bool
    ensures value { result ≡ (nat_lt later day && occurs profile stamp.now (day - later)) }
{
    if later >= day.number() {
        return false;
    }
    match Day::of_number((day.number() - later) as u64) {
        Some(from) => occurs_on(stamp, profile, from),
        None => false,
    }
}

fn is_due(source: &HeadingStamp, today: Day, day: Day) -> bool
    ensures value { result ≡ is_due source.now today day }
{
    day.number() == today.number() && source.owner.is_open
}

// The number of the day of which a deadline warns, or 0 where there is none.
fn due_day(stamp: &Stamp, profile: Profile, today: Day) -> u32
    ensures value { result ≡ due_day profile stamp.now today }
{
    match profile {
        Profile::One => stamp.day.number(),
        Profile::Two => number_or_none(next_after(stamp, today)),
    }
}

// The number of the first day of the copy of a range that the day shows, or 0 where it shows none.
pub(crate) fn shown_from(stamp: &Stamp, profile: Profile, day: Day) -> u32
    ensures value { result ≡ shown_from profile stamp.now day }
    ensures fits { result ≤ LAST_DAY }
{
    number_or_none(range_start(stamp, profile, day))
}

fn number_or_none(day: Option<Day>) -> u32
    ensures value { result ≡ unwrap_or day 0 }
    ensures fits { result ≤ LAST_DAY }
{
    match day {
        Some(day) => day.number(),
        None => 0,
    }
}

// Whether the stamp, if its role has rows of that kind, gives one on the day.
fn is_shown(kind: RowKind, source: &HeadingStamp, as_of: &AsOf, day: Day) -> bool
    ensures { result ≡ is_shown as_of.now.profile kind source.now as_of.now.today day }
{
    let stamp = &source.stamp;
    let (profile, today) = (as_of.profile, as_of.today);
    match kind {
        RowKind::Listed => false,
        RowKind::OnDay => stamp.last.is_none() && occurs_on(stamp, profile, day),
        RowKind::InRange => range_start(stamp, profile, day).is_some(),
        RowKind::OnSchedule => occurs_delayed(stamp, profile, stamp.delay, day),
        RowKind::LateSchedule => {
            is_due(source, today, day)
                && stamp.day.number() + delay_or(0, stamp.delay) < today.number()
        }
        RowKind::OnDeadline => occurs_on(stamp, profile, day),
        RowKind::Warning => {
            is_due(source, today, day)
                && comes_near(due_day(stamp, profile, today), stamp.delay, today)
        }
        RowKind::LateDeadline => {
            is_due(source, today, day) && stamp.day.number() < today.number()
        }
    }
}

// Whether the day of a number is ahead, by at most [`WARNING_DAYS`], or those of a delay if there is one.
fn comes_near(due: u32, delay: Option<Delay>, today: Day) -> bool
    ensures { result ≡ (nat_le due (today + delay_or WARNING_DAYS delay) && nat_lt today due) }
{
    due <= today.number() + delay_or(WARNING_DAYS, delay) && today.number() < due
}

fn times_of(
    kind: RowKind,
    stamp: &Stamp,
    profile: Profile,
    day: Day,
) -> (Option<TimeOfDay>, Option<TimeOfDay>)
    ensures value { result ≡ times profile kind stamp.now day }
{
    match kind {
        RowKind::OnDay | RowKind::OnSchedule | RowKind::OnDeadline => (stamp.time, stamp.end_time),
        RowKind::InRange => range_times_of(stamp, shown_from(stamp, profile, day), day),
        RowKind::Listed | RowKind::LateSchedule | RowKind::Warning | RowKind::LateDeadline => (
            None, None,
        ),
    }
}

// The times that a copy of a range shows that begins on the day of a number.
fn range_times_of(stamp: &Stamp, begins: u32, day: Day) -> (Option<TimeOfDay>, Option<TimeOfDay>)
    requires fits { begins ≤ LAST_DAY }
    ensures value { result ≡ range_times stamp.now stamp.now.last begins day }
{
    let Some((last, start)) = stamp.last else {
        return (None, None);
    };
    if day.number() == begins {
        let end = if last.number() == stamp.day.number() {
            start
        } else {
            None
        };
        return (stamp.time, end);
    }
    if day.number() + stamp.day.number() == begins + last.number() {
        (start, None)
    } else {
        (None, None)
    }
}

// The numbers of a range's copy that begins on the day of a number.
fn range_numbers_of(stamp: &Stamp, begins: u32, day: Day) -> (u32, u32)
    ensures value { result ≡ range_numbers stamp.now stamp.now.last begins day }
{
    match stamp.last {
        Some((last, _)) => (
            day.number().saturating_sub(begins) + 1,
            last.number().saturating_sub(stamp.day.number()) + 1,
        ),
        None => (0, 0),
    }
}

fn numbers_of(kind: RowKind, stamp: &Stamp, profile: Profile, day: Day) -> (u32, u32)
    ensures value { result ≡ numbers profile kind stamp.now day }
{
    let on = day.number();
    match kind {
        RowKind::InRange => range_numbers_of(stamp, shown_from(stamp, profile, day), day),
        RowKind::LateSchedule | RowKind::LateDeadline => (on.saturating_sub(stamp.day.number()), 0),
        RowKind::Warning => (due_day(stamp, profile, day).saturating_sub(on), 0),
        RowKind::Listed | RowKind::OnDay | RowKind::OnSchedule | RowKind::OnDeadline => (0, 0),
    }
}

// Adds the row of that kind, if the stamp gives one.
fn push_kind(
    rows: &mut Buckets,
    kind: RowKind,
    source: &HeadingStamp,
    as_of: &AsOf,
    day: Day,
) -> Result<(), AllocError>
    requires has_room { length rows.old ≡ PRIORITIES }
    ensures ok { Gathers result rows.old rows.new (seen_kind as_of.now kind source.now day) }
    ensures has_room { OnOk result (length rows.new ≡ PRIORITIES) }
{
    if !is_shown(kind, source, as_of, day) {
        return Ok(());
    }
    let (start, end) = times_of(kind, &source.stamp, as_of.profile, day);
    let (number, of) = numbers_of(kind, &source.stamp, as_of.profile, day);
    let owner = source.owner;
    rows.add(
        owner.priority.number() as usize,
        Row {
            kind,
            start,
            end,
            number,
            of,
            file: owner.file,
            heading: owner.heading,
            stamp_at: source.stamp_at,
        },
    )?;
    Ok(())
}

// Adds the rows that a stamp gives on a day.
pub(crate) fn push_source(
    rows: &mut Buckets,
    source: &HeadingStamp,
    as_of: &AsOf,
    day: Day,
) -> Result<(), AllocError>
    requires has_room { length rows.old ≡ PRIORITIES }
    ensures ok { Gathers result rows.old rows.new (seen_rows as_of.now day source.now) }
{
    match source.role {
        Role::Plain => {
            push_kind(rows, RowKind::OnDay, source, as_of, day)?;
            push_kind(rows, RowKind::InRange, source, as_of, day)?;
        }
        Role::Scheduled => {
            push_kind(rows, RowKind::OnSchedule, source, as_of, day)?;
            push_kind(rows, RowKind::LateSchedule, source, as_of, day)?;
        }
        Role::Deadline => {
            push_kind(rows, RowKind::OnDeadline, source, as_of, day)?;
            push_kind(rows, RowKind::Warning, source, as_of, day)?;
            push_kind(rows, RowKind::LateDeadline, source, as_of, day)?;
        }
    }
    Ok(())
}

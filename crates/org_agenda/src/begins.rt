//! The days on which what a stamp stands for begins.
ghost use Rattle.std.specs.Prelude.{◌≡◌, ◌+◌, ◌<◌, ◌≤◌, IfSome, None};
ghost use Rattle.org_agenda.specs.Begins.{begin_days, begin_on, begins, begins_plain};
ghost use Rattle.org_agenda.specs.Spread.{NoDayHas};
ghost use Rattle.org_agenda.specs.declared.spread.TheConstants.{NEVER};
ghost use Rattle.org_base.specs.Results.{Adds, GivesItems};

use crate::shows::{occurs_delayed, shown_from};
use crate::source::HeadingStamp;
use crate::spread::{next_delayed, next_on};
use org_base::Profile;
use org_cal::Day;
use org_entry::Role;
use org_repeat::occurs_on;
use org_stamp::Stamp;
use std::alloc::{AllocError, Global};

/// The days on which what a stamp stands for begins, among so many from a first one on: the days on which an agenda shows
/// it as on its own day, and of a range those alone on which the copy begins that the day shows. They ascend.
pub fn begin_days(
    alloc: Global,
    source: &HeadingStamp,
    profile: Profile,
    first: Day,
    count: u32,
) -> Result<Vec<Day>, AllocError>
    requires within { first + count ≤ NEVER }
    ensures value { GivesItems result (begin_days profile source.now first count) }
{
    let end = first.number() + count;
    let mut days = Vec::new(alloc);
    let mut next = first.number();
    for _turn in 0..count {
        let Some(day) = day_before(next_begin(source, profile, next), end) else {
            return Ok(days);
        };
        push_begin(&mut days, source, profile, day)?;
        next = day.number() + 1;
    }
    Ok(days)
}

// The day of a number, if that is before another.
fn day_before(number: u32, end: u32) -> Option<Day>
    requires first { 1 ≤ number }
    requires within { end ≤ NEVER }
    ensures some { IfSome result (λ day. (day ≡ number) × (number < end)) }
    ensures none { result ≡ None → end ≤ number }
{
    if number < end {
        Day::of_number(u64::from(number))
    } else {
        None
    }
}

// Appends a day, if it is one on which what a stamp stands for begins.
fn push_begin(
    days: &mut Vec<Day>,
    source: &HeadingStamp,
    profile: Profile,
    day: Day,
) -> Result<(), AllocError>
    ensures value { Adds result days.old days.new (begin_on profile source.now day) }
{
    if begins(source, profile, day) {
        days.push(day)?;
    }
    Ok(())
}

fn begins(source: &HeadingStamp, profile: Profile, day: Day) -> bool
    ensures value { result ≡ begins profile source.now day }
{
    let stamp = &source.stamp;
    match source.role {
        Role::Plain => begins_plain(stamp, profile, day),
        Role::Scheduled => occurs_delayed(stamp, profile, stamp.delay, day),
        Role::Deadline => begins_plain(stamp, profile, day),
    }
}

fn begins_plain(stamp: &Stamp, profile: Profile, day: Day) -> bool
    ensures value { result ≡ begins_plain profile stamp.now stamp.now.last day }
{
    match stamp.last {
        Some(_) => shown_from(stamp, profile, day) == day.number(),
        None => occurs_on(stamp, profile, day),
    }
}

// The first day, from one on, on which what a stamp stands for may begin.
fn next_begin(source: &HeadingStamp, profile: Profile, from: u32) -> u32
    requires { (1 ≤ from) × (from ≤ NEVER) }
    ensures not_before { from ≤ result }
    ensures none { NoDayHas (begins profile source.now) from result }
{
    let stamp = &source.stamp;
    match source.role {
        Role::Plain => next_on(stamp, profile, from),
        Role::Scheduled => next_delayed(stamp, profile, stamp.delay, from),
        Role::Deadline => next_on(stamp, profile, from),
    }
}

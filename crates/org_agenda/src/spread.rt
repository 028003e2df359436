//! Stamps by the days on which they may give rows.
ghost use Rattle.std.specs.Prelude.{◌≡◌, ℕ, ◌+◌, ◌<◌, ◌≤◌, true, false, IfOk, OnOk, length};
ghost use Rattle.org_agenda.specs.Days.{is_due, occurs_delayed, occurs_later};
ghost use Rattle.org_index.specs.declared.delays.TheConstants.{DELAY_LIMIT};
ghost use Rattle.org_agenda.specs.declared.spread.TheConstants.{NEVER};
ghost use Rattle.org_agenda.specs.Spread.{AreSpread, GiveMore, GivesNone, NoDayHas};
ghost use Rattle.org_repeat.specs.Decided.{occurs};

use crate::as_of::AsOf;
use crate::places::Places;
use crate::source::HeadingStamp;
use org_base::Profile;
use org_cal::{Day, LAST_DAY};
use org_entry::Role;
use org_index::days_in;
use org_repeat::first_on;
use org_stamp::{Delay, Stamp};
use std::alloc::{AllocError, Global};

// A number past each day's.
const NEVER: u32 = LAST_DAY + 1;

// The places of the stamps, given to those of so many days on which they may give rows.
pub(crate) fn spread(
    alloc: Global,
    sources: &[HeadingStamp],
    as_of: &AsOf,
    first: Day,
    count: u32,
) -> Result<Places, AllocError>
    requires { first + count ≤ NEVER }
    ensures value { IfOk result (λ places. AreSpread as_of.now sources.now first places sources.now) }
    ensures count { IfOk result (λ places. length places ≡ count) }
{
    let mut places = Places::new(alloc, count as usize)?;
    for place in 0..sources.len() {
        give(&mut places, sources, place, as_of, first)?;
    }
    Ok(places)
}

// Gives the place of a stamp to the days on which it may give a row.
fn give(
    places: &mut Places,
    sources: &[HeadingStamp],
    place: usize,
    as_of: &AsOf,
    first: Day,
) -> Result<(), AllocError>
    requires place { place < length sources.now }
    requires days { first + length places.old ≤ NEVER }
    ensures ok { OnOk result (GiveMore as_of.now sources.now first places.old places.new place) }
    ensures count { OnOk result (length places.new ≡ length places.old) }
{
    let source = &sources[place];
    let mut next = first.number();
    for _turn in 0..places.count() {
        let day = next_shown(source, as_of, next);
        let ahead = (day - first.number()) as usize;
        if ahead >= places.count() {
            return Ok(());
        }
        places.add(ahead, place)?;
        next = day + 1;
    }
    Ok(())
}

// The first day, from one on, on which the stamp may give a row.
fn next_shown(source: &HeadingStamp, as_of: &AsOf, from: u32) -> u32
    requires { (1 ≤ from) × (from ≤ NEVER) }
    ensures not_before { from ≤ result }
    ensures none { GivesNone as_of.now source.now from result }
{
    let stamp = &source.stamp;
    let (profile, today) = (as_of.profile, as_of.today);
    match source.role {
        Role::Plain => next_on(stamp, profile, from),
        Role::Scheduled => earlier_of(
            next_delayed(stamp, profile, stamp.delay, from),
            next_due(source, today, from),
        ),
        Role::Deadline => earlier_of(next_on(stamp, profile, from), next_due(source, today, from)),
    }
}

fn earlier_of(a: u32, b: u32) -> u32
    ensures first { result ≤ a }
    ensures second { result ≤ b }
    ensures not_before { (from : ℕ) → from ≤ a → from ≤ b → from ≤ result }
{
    if a < b { a } else { b }
}

// The first day, from one on, on which the stamp occurs.
pub(crate) fn next_on(stamp: &Stamp, profile: Profile, from: u32) -> u32
    requires { (1 ≤ from) × (from ≤ NEVER) }
    ensures not_before { from ≤ result }
    ensures most { result ≤ NEVER }
    ensures none { NoDayHas (occurs profile stamp.now) from result }
{
    // For the proof alone: the stamp's own day is a day.
    let _base = stamp.day.number();
    let Some(from) = Day::of_number(from as u64) else {
        return NEVER;
    };
    match first_on(stamp, profile, from) {
        Some(day) => day.number(),
        None => NEVER,
    }
}

// The same with the stamp's delay.
pub(crate) fn next_delayed(stamp: &Stamp, profile: Profile, delay: Option<Delay>, from: u32) -> u32
    requires { (1 ≤ from) × (from ≤ NEVER) }
    ensures not_before { from ≤ result }
    ensures none { NoDayHas (occurs_delayed profile stamp.now delay) from result }
{
    let Some(delay) = delay else {
        return next_on(stamp, profile, from);
    };
    let later = days_in(delay.unit, delay.n);
    match delay.first_only {
        true => next_but_base(stamp, profile, later, from),
        false => next_later(stamp, profile, later, from),
    }
}

// The same where the base day alone is so many days later.
fn next_but_base(stamp: &Stamp, profile: Profile, later: u32, from: u32) -> u32
    requires from { (1 ≤ from) × (from ≤ NEVER) }
    requires fits { later < DELAY_LIMIT }
    ensures not_before { from ≤ result }
    ensures none { NoDayHas (occurs_later profile true stamp.now later) from result }
{
    let base = stamp.day.number() + later;
    let next = next_on(stamp, profile, from);
    if base < from {
        return next;
    }
    earlier_of(next, base)
}

// The same where each occurrence is so many days later.
fn next_later(stamp: &Stamp, profile: Profile, later: u32, from: u32) -> u32
    requires from { (1 ≤ from) × (from ≤ NEVER) }
    requires fits { later < DELAY_LIMIT }
    ensures not_before { from ≤ result }
    ensures none { NoDayHas (occurs_later profile false stamp.now later) from result }
{
    if from <= later {
        return next_on(stamp, profile, 1) + later;
    }
    next_on(stamp, profile, from - later) + later
}

// Today, from a day on, if the heading is open.
fn next_due(source: &HeadingStamp, today: Day, from: u32) -> u32
    requires { from ≤ NEVER }
    ensures not_before { from ≤ result }
    ensures none { NoDayHas (is_due source.now today) from result }
{
    if source.owner.is_open && from <= today.number() {
        today.number()
    } else {
        NEVER
    }
}

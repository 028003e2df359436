//! Where what is kept of a stamp stands in each set of days, if it does.
ghost use Rattle.std.specs.Prelude.{◌≡◌, ◌≤◌};
ghost use Rattle.org_index.specs.DaySet as spec;

use crate::delays::WARNING_DAYS;
use crate::reach::Reach;

// Days have numbers below this: a class of ranges begins at each multiple of it.
pub(crate) const DAY_LIMIT: u32 = 4_194_304;

// Under its day.
pub(crate) fn own_day(reach: &Reach) -> Option<u32>
    ensures value { result ≡ spec.own_day reach.now }
{
    Some(reach.first.number())
}

// Under its day, if it repeats.
pub(crate) fn repeated_day(reach: &Reach) -> Option<u32>
    ensures value { result ≡ spec.repeated_day reach.now }
{
    if reach.repeats {
        Some(reach.first.number())
    } else {
        None
    }
}

// Under its delayed day, if it is delayed.
pub(crate) fn delayed_day(reach: &Reach) -> Option<u32>
    ensures value { result ≡ spec.delayed_day reach.now }
{
    if reach.delayed == reach.first.number() {
        None
    } else {
        Some(reach.delayed)
    }
}

// Under the day from which on it warns, if it has a warning time of its own.
pub(crate) fn warned_day(reach: &Reach) -> Option<u32>
    ensures value { result ≡ spec.warned_day reach.now }
{
    if reach.warned == reach.first.number().saturating_sub(WARNING_DAYS) {
        None
    } else {
        Some(reach.warned)
    }
}

// Under its first day in the class of its length, if it has more days than one.
pub(crate) fn range_day(reach: &Reach) -> Option<u32>
    ensures value { result ≡ spec.range_day reach.now }
{
    let first = reach.first.number();
    let last = reach.last.number();
    if first < last {
        Some(DAY_LIMIT * class_of(last - first) + first)
    } else {
        None
    }
}

// The class of a range's length.
fn class_of(len: u32) -> u32
    ensures value { result ≡ spec.class_of len }
    ensures at_most { result ≤ 6 }
{
    if len < 8 {
        0
    } else if len < 64 {
        1
    } else if len < 512 {
        2
    } else if len < 4_096 {
        3
    } else if len < 32_768 {
        4
    } else if len < 262_144 {
        5
    } else {
        6
    }
}

// The lengths of a class are below this.
pub(crate) fn bound_of(class: u32) -> u32
    ensures value { result ≡ spec.bound_of class }
{
    match class {
        0 => 8,
        1 => 64,
        2 => 512,
        3 => 4_096,
        4 => 32_768,
        5 => 262_144,
        _ => DAY_LIMIT,
    }
}

//! What a stamp says of a habit.
ghost use Rattle.std.specs.Prelude.{◌≡◌, Some};
ghost use Rattle.org_habit.specs.Habits.{days_of, habit_of, limit_of, with_days};

use org_cal::{Day, Unit};
use org_stamp::{Repeater, RepeaterKind, Stamp};

/// A habit: the day for which it is planned, how many days after it was done it is to be done again, how many days after that it is
/// to be done at the latest, if that is said, and where its stamp shifts to when it is done.
#[derive(Clone, Copy, Debug, PartialEq, Eq)]
pub struct Habit {
    pub scheduled: Day,
    pub interval: u32,
    pub limit: Option<u32>,
    pub kind: RepeaterKind,
}

/// Why a stamp says no habit.
#[derive(Clone, Copy, Debug, PartialEq, Eq)]
pub enum NoHabit {
    /// It has no repeater.
    NoRepeater,
    /// Its repeater, or what stands after a slash there, goes by hours.
    Hours,
    /// It repeats within less than a day.
    Short,
    /// What stands after the slash isn't more than what stands before it.
    Limit,
}

impl Habit {
    /// What a stamp says (Org manual 9.6, "Tracking your habits").
    pub fn of(stamp: &Stamp) -> Result<Habit, NoHabit>
        ensures value { result ≡ habit_of stamp.now.day stamp.now.repeater }
    {
        match stamp.repeater {
            None => Err(NoHabit::NoRepeater),
            Some(repeater) => with_repeater(stamp.day, repeater),
        }
    }

    // How many days after the one for which it is planned the last one is on which it can be done in time.
    pub(crate) fn grace(&self) -> u32 {
        match self.limit {
            Some(limit) => limit.saturating_sub(self.interval),
            None => 0,
        }
    }
}

fn with_repeater(scheduled: Day, repeater: Repeater) -> Result<Habit, NoHabit>
    ensures value { result ≡ habit_of scheduled (Some repeater) }
{
    match (days_of(repeater.n, repeater.unit), limit_of(repeater.limit)) {
        (Some(interval), Some(limit)) => with_days(scheduled, interval, limit, repeater.kind),
        _ => Err(NoHabit::Hours),
    }
}

// How many days stand after the slash, if anything does; nothing where they are no whole days.
fn limit_of(limit: Option<(u16, Unit)>) -> Option<Option<u32>>
    ensures value { result ≡ limit_of limit }
{
    match limit {
        None => Some(None),
        Some((n, unit)) => Some(Some(days_of(n, unit)?)),
    }
}

fn with_days(
    scheduled: Day,
    interval: u32,
    limit: Option<u32>,
    kind: RepeaterKind,
) -> Result<Habit, NoHabit>
    ensures value { result ≡ with_days scheduled interval limit kind }
{
    if interval == 0 {
        return Err(NoHabit::Short);
    }
    if let Some(days) = limit {
        if days <= interval {
            return Err(NoHabit::Limit);
        }
    }
    Ok(Habit {
        scheduled,
        interval,
        limit,
        kind,
    })
}

// How many whole days so many units are: a month has 30.4, and a year 365.25.
fn days_of(n: u16, unit: Unit) -> Option<u32>
    ensures value { result ≡ days_of n unit }
{
    let n = u32::from(n);
    match unit {
        Unit::Hour => None,
        Unit::Day => Some(n),
        Unit::Week => Some(n * 7),
        Unit::Month => Some(n * 304 / 10),
        Unit::Year => Some(n * 36_525 / 100),
    }
}

//! Minutes of civil time.
ghost use Rattle.std.specs.Prelude.{◌≡◌, ◌<◌};
ghost use Rattle.org_cal.specs.Minutes.{minute_at, minute_of};
ghost use Rattle.org_cal.specs.declared.minute.TheConstants.{CALENDAR_MINUTES};

use crate::day::Day;
use crate::time_of_day::{MINUTES_PER_DAY, TimeOfDay};
use std::marker::Model;

/// How many minutes the years 1 to 9999 have, which is more than a `u32` holds.
pub const CALENDAR_MINUTES: u64 = 5_258_964_960;

/// A minute of civil time without a zone: contracts see the minutes since 0001-01-01 00:00.
#[derive(Clone, Copy, Debug, PartialEq, Eq, PartialOrd, Ord, Hash)]
pub struct Minute {
    minutes: u64,
}

impl Model for Minute {
    ghost use Rattle.std.specs.Prelude.{ℕ, ◌<◌};
    ghost use Rattle.org_cal.specs.declared.minute.TheConstants.{CALENDAR_MINUTES};

    ghost Value = { ℕ };

    ghost view = { λ a. a.minutes };

    ghost invariant = { λ a. a.minutes < CALENDAR_MINUTES };

    ghost inverse = { λ n. record { minutes = n } };
}

impl Minute {
    /// The minute of a day at a time.
    pub fn at(day: Day, time: TimeOfDay) -> Minute
        ensures value { result ≡ minute_of day time }
    {
        Minute {
            minutes: (day.number() as u64 - 1) * MINUTES_PER_DAY + time.minutes() as u64,
        }
    }

    /// The minute of a day at a time, which is 00:00 where none is given.
    pub fn of(day: Day, time: Option<TimeOfDay>) -> Minute
        ensures value { result ≡ minute_at (day, time) }
    {
        Minute::at(day, time.unwrap_or(TimeOfDay::of_minutes(0)))
    }

    /// The minutes since 0001-01-01 00:00.
    pub fn number(self) -> u64
        ensures value { result ≡ self }
        ensures below { result < CALENDAR_MINUTES }
    {
        self.minutes
    }
}

//! Times of day.
ghost use Rattle.std.specs.Prelude.{◌≡◌, ◌<◌};
ghost use Rattle.org_cal.specs.Texts.{time_at, time_of};
ghost use Rattle.org_cal.specs.declared.time_of_day.TheConstants.{MINUTES_PER_DAY};

use crate::digits::two_digits;
use std::marker::Model;

/// The minutes of a day.
pub const MINUTES_PER_DAY: u64 = 1440;

/// A time of day: contracts see its minutes since 00:00, fewer than a day has.
#[derive(Clone, Copy, Debug, PartialEq, Eq, PartialOrd, Ord, Hash)]
pub struct TimeOfDay {
    minutes: u16,
}

impl Model for TimeOfDay {
    ghost use Rattle.std.specs.Prelude.{ℕ, ◌<◌};
    ghost use Rattle.org_cal.specs.declared.time_of_day.TheConstants.{MINUTES_PER_DAY};

    ghost Value = { ℕ };

    ghost view = { λ a. a.minutes };

    ghost invariant = { λ a. a.minutes < MINUTES_PER_DAY };

    ghost inverse = { λ n. record { minutes = n } };
}

impl TimeOfDay {
    /// The time of that hour, 0 to 23, and minute, 0 to 59, if there is one.
    pub fn of(hour: u8, minute: u8) -> Option<TimeOfDay>
        ensures value { result ≡ time_at hour minute }
    {
        if hour > 23 || minute > 59 {
            return None;
        }
        Some(TimeOfDay {
            minutes: hour as u16 * 60 + minute as u16,
        })
    }

    /// The time so many minutes after 00:00.
    pub fn of_minutes(minutes: u16) -> TimeOfDay
        requires { minutes < MINUTES_PER_DAY }
        ensures value { result ≡ minutes }
    {
        TimeOfDay { minutes }
    }

    /// The time that the text spells, `H:MM` or `HH:MM` (Org manual 9.6, "Timestamps").
    pub fn read(text: &[u8]) -> Option<TimeOfDay>
        ensures value { result ≡ time_of text.now }
    {
        match text {
            [h, b':', m, n] => TimeOfDay::of(two_digits(b'0', *h)?, two_digits(*m, *n)?),
            [g, h, b':', m, n] => TimeOfDay::of(two_digits(*g, *h)?, two_digits(*m, *n)?),
            _ => None,
        }
    }

    /// The minutes since 00:00.
    pub fn minutes(self) -> u16
        ensures value { result ≡ self }
        ensures below { result < MINUTES_PER_DAY }
    {
        self.minutes
    }
}

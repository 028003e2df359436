//! What of a stamp decides to which days it may matter.
ghost use Rattle.std.specs.Prelude.{◌≡◌};
ghost use Rattle.org_index.specs.Reaches.{reach_of, last_day, repeats};

use crate::delays::{WARNING_DAYS, delay_or};
use org_base::Profile;
use org_cal::{Day, TimeOfDay};
use org_stamp::Stamp;

/// What of a stamp decides to which days of an agenda it may matter.
#[derive(Clone, Copy, Debug, PartialEq, Eq)]
pub struct Reach {
    /// Its day, or of a range the first.
    pub first: Day,
    /// Of a range the last day that is written, if it lies after the first; else the first.
    pub last: Day,
    /// The number of its day plus the days of its delay.
    pub delayed: u32,
    /// The number of its day less the days of its warning time, its own or 14; 0 where that is before the calendar's first.
    pub warned: u32,
    /// It has a repeater that counts: in the first profile that of a range doesn't, in the second it does.
    pub repeats: bool,
}

impl Reach {
    /// That of a stamp in a profile.
    pub fn of(stamp: &Stamp, profile: Profile) -> Reach
        ensures value { result ≡ reach_of profile stamp.now }
    {
        let day = stamp.day.number();
        Reach {
            first: stamp.day,
            last: last_day(stamp.day, stamp.last),
            delayed: day + delay_or(0, stamp.delay),
            warned: day.saturating_sub(delay_or(WARNING_DAYS, stamp.delay)),
            repeats: repeats(stamp, profile),
        }
    }
}

// Whether it repeats.
fn repeats(stamp: &Stamp, profile: Profile) -> bool
    ensures { result ≡ repeats profile stamp.now }
{
    match profile {
        Profile::One => stamp.repeater.is_some() && stamp.last.is_none(),
        Profile::Two => stamp.repeater.is_some(),
    }
}

// The last day of a range, if it lies after the first; else the first.
fn last_day(day: Day, last: Option<(Day, Option<TimeOfDay>)>) -> Day
    ensures { result ≡ last_day day last }
{
    match last {
        None => day,
        Some((last, _)) => {
            if day.number() < last.number() {
                last
            } else {
                day
            }
        }
    }
}

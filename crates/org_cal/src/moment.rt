//! A day and a time of it.
ghost use Rattle.std.specs.Prelude.{◌≡◌, IfOk, IfErr};
ghost use Rattle.org_cal.specs.Faults.{date_fault};
ghost use Rattle.org_cal.specs.Minutes.{minute_of};
ghost use Rattle.org_cal.specs.Texts.{IsMomentOf, IsNoMoment, moment_of};

use crate::day::Day;
use crate::minute::Minute;
use crate::time_of_day::TimeOfDay;
use org_base::{Code, Fault};

/// A day and a minute of it, in civil time without a zone. Later moments are greater.
#[derive(Clone, Copy, Debug, PartialEq, Eq, PartialOrd, Ord, Hash)]
pub struct Moment {
    pub day: Day,
    pub minute: TimeOfDay,
}

impl Moment {
    /// The moment that two texts spell: `YYYY-MM-DD`, and one `H:MM` or `HH:MM`. `Date` where either can't be read.
    pub fn read(date: &[u8], time: &[u8]) -> Result<Moment, Fault>
        ensures value { IfOk result (IsMomentOf date.now time.now) }
        ensures date { IfErr result (λ fault. (fault ≡ date_fault) × IsNoMoment date.now time.now) }
    {
        let day = Day::read(date)?;
        let minute = TimeOfDay::read(time).ok_or(Fault::Plain(Code::Date))?;
        Ok(Moment { day, minute })
    }

    /// The moment that one text spells, if there is one: `YYYY-MM-DD`, one space, and `H:MM` or `HH:MM`.
    pub fn of_text(text: &[u8]) -> Option<Moment>
        ensures value { result ≡ moment_of text.now }
    {
        if text.len() < 11 || text[10] != b' ' {
            return None;
        }
        let day = Day::of_text(&text[..10])?;
        let minute = TimeOfDay::read(&text[11..])?;
        Some(Moment { day, minute })
    }

    /// The minutes since 0001-01-01 00:00.
    pub fn minute(self) -> Minute
        ensures value { result ≡ minute_of self.day self.minute }
    {
        Minute::at(self.day, self.minute)
    }
}

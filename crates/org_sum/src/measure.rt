//! What is summed.
ghost use Rattle.std.specs.Prelude.{◌≡◌, ◌<◌, ◌^◌};
ghost use Rattle.org_cal.specs.Periods.{days_of};
ghost use Rattle.org_sum.specs.Measures.{amount, clock_minutes, effort_minutes, minutes_of};
ghost use Rattle.org_sum.specs.Texts.{IsOfCalendar};

use org_cal::{LAST_DAY, Period};
use org_drawer::{ClockLine, effort_minutes};
use org_entry::Entry;

/// What is summed of an entry.
#[derive(Clone, Copy, Debug, PartialEq, Eq)]
pub enum Measure {
    /// The minutes of its clocks in a period.
    Clocks(Period),
    /// Its effort in minutes.
    Efforts,
}

impl Measure {
    // A period ends within the calendar.
    pub(crate) fn is_of_calendar(&self)
        ensures within { IsOfCalendar self.now }
    {
        match self {
            Measure::Clocks(period) => prove!(period.last.number() <= LAST_DAY),
            Measure::Efforts => (),
        }
    }

    // The minutes of an entry.
    pub(crate) fn of(&self, entry: &Entry) -> u64
        requires fits { amount self.now entry.now < 2 ^ 63 }
        ensures value { result ≡ amount self.now entry.now }
    {
        match self {
            Measure::Clocks(period) => clock_minutes(period, entry),
            Measure::Efforts => effort_of_entry(entry),
        }
    }
}

#[tactic(auto, unfolding(crate::specs::Measures::clock_minutes))]
fn clock_minutes(period: &Period, entry: &Entry) -> u64
    requires fits { clock_minutes (days_of period.now) entry.now < 2 ^ 63 }
    ensures value { result ≡ clock_minutes (days_of period.now) entry.now }
{
    minutes_of(period, entry.details.clocks())
}

fn minutes_of(period: &Period, clocks: &[ClockLine]) -> u64
    requires fits { minutes_of (days_of period.now) clocks.now < 2 ^ 63 }
    ensures value { result ≡ minutes_of (days_of period.now) clocks.now }
{
    let mut sum = 0;
    for clock in clocks {
        sum += clock.minutes_in(*period);
    }
    sum
}

#[tactic(auto, unfolding(crate::specs::Measures::effort_minutes))]
fn effort_of_entry(entry: &Entry) -> u64
    ensures value { result ≡ effort_minutes entry.now }
{
    match entry.details.property(b"EFFORT") {
        Some(text) => effort_minutes(text).unwrap_or(0),
        None => 0,
    }
}

//! Clock lines.
ghost use Rattle.std.specs.Prelude.{◌≡◌, ◌<◌, ◌≤◌};
ghost use Rattle.org_cal.specs.Periods.{days_of};
ghost use Rattle.org_cal.specs.declared.minute.TheConstants.{CALENDAR_MINUTES};
ghost use Rattle.org_drawer.specs.Clock.{clock_of, common_minutes, minutes_in};

use org_cal::{MINUTES_PER_DAY, Minute, Period};
use org_stamp::clock_stamp;

/// A clock (Org Syntax, "Clocks"): it runs from one minute to another, or still runs. The end may lie before the start.
#[derive(Clone, Copy, Debug, PartialEq, Eq)]
pub struct ClockLine {
    pub from: Minute,
    /// None of a running clock.
    pub to: Option<Minute>,
}

/// The clock of a clock line, in which a missing time is 00:00; None exactly where the line is no clock line.
pub fn read_clock(line: &[u8]) -> Option<ClockLine>
    ensures value { result ≡ clock_of line.now }
{
    let stamp = clock_stamp(line)?;
    Some(ClockLine {
        from: Minute::of(stamp.day, stamp.time),
        to: stamp.last.map(|(day, time)| Minute::of(day, time)),
    })
}

impl ClockLine {
    /// The minutes that the clock and the period have in common, the period being from its first day 00:00 to the end of
    /// its last day. A clock that runs, or ends before it starts, has none. They are fewer than those of all years.
    pub fn minutes_in(&self, period: Period) -> u64
        ensures value { result ≡ minutes_in self.now (days_of period) }
        ensures below { result < CALENDAR_MINUTES }
    {
        let first = (period.first.number() as u64 - 1) * MINUTES_PER_DAY;
        let past = period.last.number() as u64 * MINUTES_PER_DAY;
        match self.to {
            Some(to) => common_minutes(self.from.number(), to.number(), first, past),
            None => 0,
        }
    }
}

// How many minutes two stretches have in common, each up to its end.
fn common_minutes(from: u64, to: u64, first: u64, past: u64) -> u64
    ensures value { result ≡ common_minutes from to first past }
    ensures most { result ≤ to }
{
    to.min(past).saturating_sub(from.max(first))
}

//! Sums of clocks from place to place.
ghost use Rattle.std.specs.Prelude.{◌≡◌, ◌<◌, ◌^◌, IfOk};
ghost use Rattle.org_cal.specs.Periods.{days_of};
ghost use Rattle.org_clocktable.specs.RunningSums.{AreBefore, AreInOrder, AreSumsInOrder, AreMinutes, IsLastRise, before, minutes_of};

use org_cal::Period;
use org_drawer::ClockLine;
use std::alloc::{AllocError, Global};
use std::marker::Model;

// A clock of the heading at a place.
#[derive(Clone, Copy, Debug, PartialEq, Eq)]
pub(crate) struct PlacedClock {
    pub place: usize,
    pub clock: ClockLine,
}

// The place of a heading with a clock, and what the clocks before that one have.
#[derive(Clone, Copy, Debug, PartialEq, Eq)]
pub(crate) struct RunningSum {
    pub place: usize,
    pub before: u64,
}

// What clocks have in some days. Contracts see it as a sum by places: what the clocks of headings before a place have. Only
// clocks that have minutes in the days take room.
#[derive(Debug, Drop)]
pub(crate) struct RunningSums {
    period: Period,
    running: Vec<RunningSum>,
    total: u64,
}

impl Model for RunningSums {
    ghost use Rattle.org_clocktable.specs.RunningSums.{AreRising, Sums};

    ghost Value = { Sums };

    ghost view = { λ m. record { days = (m.period.first, m.period.last); running = m.running.items; total = m.total } };

    ghost invariant = { λ m. AreRising m.running.items m.total };
}

impl RunningSums {
    // What clocks have in a period.
    pub(crate) fn of(
        alloc: Global,
        clocks: &[PlacedClock],
        period: &Period,
    ) -> Result<RunningSums, AllocError>
        requires order { AreInOrder 0 clocks.now }
        requires fits { minutes_of (days_of period.now) clocks.now < 2 ^ 63 }
        ensures { IfOk result (AreMinutes (days_of period.now) clocks.now) }
    {
        let mut running = Vec::new(alloc);
        let mut total = 0;
        for clock in clocks {
            let minutes = clock.clock.minutes_in(*period);
            if minutes > 0 {
                running.push(RunningSum {
                    place: clock.place,
                    before: total,
                })?;
                total += minutes;
            }
        }
        Ok(RunningSums {
            period: *period,
            running,
            total,
        })
    }

    // What the clocks before a place have.
    pub(crate) fn before(&self, place: usize) -> u64
        ensures { result ≡ before self.now place }
    {
        let count = count_before(self.running.as_slice(), place);
        if count < self.running.len() {
            self.running[count].before
        } else {
            self.total
        }
    }

    // The last place before another whose heading has clocks of its own.
    pub(crate) fn last_before(&self, place: usize) -> Option<usize>
        ensures { IsLastRise (before self.now) place result }
    {
        let count = count_before(self.running.as_slice(), place);
        if count == 0 {
            return None;
        }
        Some(self.running[count - 1].place)
    }
}

// How many marks stand before a place.
fn count_before(running: &[RunningSum], place: usize) -> usize
    requires order { AreSumsInOrder 0 running.now }
    ensures { AreBefore running.now place result }
{
    running.partition_point(|sum_so_far| sum_so_far.place < place)
}

//! Periods cut into pieces.
ghost use Rattle.std.specs.Prelude.{◌≡◌, ◌≤◌, Some, length};
ghost use Rattle.std.specs.Iterator.{YieldsFirstBy, item_count};
ghost use Rattle.org_cal.specs.Pieces.{AreCut, piece_end, pieces};

use crate::day::Day;
use crate::period::Period;
use std::marker::Model;

/// How a period is cut into pieces.
#[derive(Clone, Copy, Debug, PartialEq, Eq)]
pub enum Step {
    /// One piece.
    Whole,
    /// Each day is a piece.
    Day,
    /// A new piece begins on each Monday.
    Week,
}

/// The pieces of a period that are still to come: contracts see their list, each with its first and last day.
#[derive(Debug, Drop)]
pub struct Steps {
    step: Step,
    next: u32,
    last: Day,
}

impl Model for Steps {
    ghost use Rattle.std.specs.Prelude.{ℕ, List, ◌≤◌, ◌+◌};
    ghost use Rattle.org_cal.specs.Pieces.{pieces};

    ghost Value = { List (ℕ × ℕ) };

    ghost view = { λ s. pieces s.step s.last s.next };

    ghost invariant = { λ s. (1 ≤ s.next) × (s.next ≤ s.last + 1) };
}

impl Period {
    /// The period's pieces, in order. The iterator takes no memory, and its `size_hint` says how many pieces are left.
    pub fn steps(self, step: Step) -> Steps
        ensures value { result ≡ pieces step self.last self.first }
        ensures cut { AreCut step self.first self.last result }
    {
        Steps {
            step,
            next: self.first.number(),
            last: self.last,
        }
    }
}

impl Steps {
    // How many pieces are still to come.
    fn count_left(&self) -> u32
        ensures value { result ≡ length self.now }
    {
        let last = self.last.number();
        if self.next > last {
            return 0;
        }
        match self.step {
            Step::Whole => 1,
            Step::Day => last + 1 - self.next,
            Step::Week => (last + 6) / 7 - (self.next + 6) / 7 + 1,
        }
    }
}

impl Iterator for Steps {
    type Item = Period;

    ghost next_gives = { YieldsFirstBy (λ period. (period.first, period.last)) (λ s. s) };

    ghost remaining = { item_count (λ s. s) };

    fn next(&mut self) -> Option<Period> {
        if self.next > self.last.number() {
            return None;
        }
        let first = Day::of_number(self.next as u64).unwrap();
        let last = piece_end(self.step, self.last, first);
        self.next = last.number() + 1;
        Some(Period { first, last })
    }

    fn size_hint(&self) -> (usize, Option<usize>)
        ensures value { result ≡ (length self.now, Some (length self.now)) }
    {
        let left = self.count_left() as usize;
        (left, Some(left))
    }
}

// The last day of a piece that begins on a day, in a period with this last day.
fn piece_end(step: Step, last: Day, first: Day) -> Day
    requires { first ≤ last }
    ensures value { result ≡ piece_end step last first }
    ensures ordered { first ≤ result }
    ensures within { result ≤ last }
{
    match step {
        Step::Whole => last,
        Step::Day => first,
        Step::Week => match Day::of_number(first.monday().number() as u64 + 6) {
            Some(sunday) => sunday.min(last),
            None => last,
        },
    }
}

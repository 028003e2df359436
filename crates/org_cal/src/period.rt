//! Periods of days.
ghost use Rattle.std.specs.Prelude.{◌≤◌};

use crate::day::Day;

/// Days from the first to the last, both included.
#[derive(Clone, Copy, Debug, PartialEq, Eq)]
pub struct Period {
    pub first: Day,
    pub last: Day,
    pub ghost ordered: { first ≤ last },
}

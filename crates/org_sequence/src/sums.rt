//! What items add up to.
ghost use Rattle.std.specs.Prelude.{◌≡◌, ◌+◌, ◌^◌, ◌<◌, [], ◌∷◌};
ghost use Rattle.std.specs.List.{sum_by};
ghost use Rattle.org_sequence.specs.Sums.{AreCovered, AreSums, sums_together};

use crate::measured::Measured;

// How many items there are, their sizes and lines, and how many bear either sign.
#[derive(Clone, Copy, Debug)]
pub(crate) struct Sums {
    pub(crate) count: u32,
    pub(crate) size: u32,
    pub(crate) lines: u32,
    pub(crate) pending: u32,
    pub(crate) flags: u32,
}

impl Sums {
    pub(crate) fn none() -> Sums
        ensures { result ≡ record { count = 0; size = 0; lines = 0; pending = 0; flags = 0 } }
    {
        Sums {
            count: 0,
            size: 0,
            lines: 0,
            pending: 0,
            flags: 0,
        }
    }

    fn of_one<T: Measured>(item: &T) -> Sums
        ensures value { AreSums T.size T.lines T.pending T.flagged (item.now ∷ []) result }
    {
        Sums {
            count: 1,
            size: item.size(),
            lines: item.lines(),
            pending: u32::from(item.is_pending()),
            flags: u32::from(item.is_flagged()),
        }
    }

    // What two parts add up to.
    pub(crate) fn plus(self, other: Sums) -> Sums
        requires covered { AreCovered self }
        requires other_covered { AreCovered other }
        requires fits { self.size + other.size < 2 ^ 32 }
        ensures value { result ≡ sums_together self other }
    {
        Sums {
            count: self.count + other.count,
            size: self.size + other.size,
            lines: self.lines + other.lines,
            pending: self.pending + other.pending,
            flags: self.flags + other.flags,
        }
    }
}

// What some items add up to.
pub(crate) fn sums_of<T: Measured>(items: &[T]) -> Sums
    requires fits { sum_by T.size items.now < 2 ^ 32 }
    ensures value { AreSums T.size T.lines T.pending T.flagged items.now result }
{
    let mut sums = Sums::none();
    for item in items {
        sums = sums.plus(Sums::of_one(item));
    }
    sums
}

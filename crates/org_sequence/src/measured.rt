//! What a sequence asks of its items.
ghost use Rattle.std.specs.Prelude.{ℕ, Bool, ◌≡◌, ◌<◌, ◌≤◌, IfOk};
ghost use Rattle.org_sequence.specs.Sums.{amount_in, bears};

use std::alloc::AllocError;

/// An item of a sequence: how long it is, how many lines it counts, and whether it bears either sign.
pub trait Measured: Drop {
    /// How long the item is. None is empty.
    ghost size: { Self → ℕ };

    /// How many lines the item counts, which may be none.
    ghost lines: { Self → ℕ };

    /// Whether the item is pending.
    ghost pending: { Self → Bool };

    /// Whether the item bears the flag.
    ghost flagged: { Self → Bool };

    /// How long the item is.
    fn size(&self) -> u32
        ensures value { result ≡ size self.now }
        ensures some { 0 < result };

    /// How many lines it counts: no more than it is long.
    fn lines(&self) -> u32
        ensures value { result ≡ lines self.now }
        ensures covered { result ≤ size self.now };

    /// Whether it is pending.
    fn is_pending(&self) -> bool
        ensures value { result ≡ pending self.now };

    /// Whether it bears the flag.
    fn is_flagged(&self) -> bool
        ensures value { result ≡ flagged self.now };

    /// An equal item.
    fn share(&self) -> Result<Self, AllocError>
        ensures value { IfOk result (λ item. item ≡ self.now) };
}

// One of the two measures of an item.
#[derive(Clone, Copy, Debug)]
pub(crate) enum Measure {
    Size,
    Lines,
}

// One of the two signs of an item.
#[derive(Clone, Copy, Debug)]
pub(crate) enum Sign {
    Pending,
    Flag,
}

// How much an item counts in a measure.
pub(crate) fn amount<T: Measured>(item: &T, measure: Measure) -> u32
    ensures value { result ≡ amount_in T.size T.lines measure item.now }
{
    match measure {
        Measure::Size => item.size(),
        Measure::Lines => item.lines(),
    }
}

// Whether an item bears a sign.
pub(crate) fn has_sign<T: Measured>(item: &T, sign: Sign) -> bool
    ensures value { result ≡ bears T.pending T.flagged sign item.now }
{
    match sign {
        Sign::Pending => item.is_pending(),
        Sign::Flag => item.is_flagged(),
    }
}

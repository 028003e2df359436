//! What is asked of a file.
ghost use Rattle.std.specs.Prelude.{◌≡◌, ℕ, List, Result};
ghost use Rattle.org_act.specs.Changes.{Makes, no_memory};
ghost use Rattle.org_act.specs.declared.act.Refusal.{Refusal};

use org_amend::Unreadable;
use org_base::{Code, Fault};
use org_store::OwnedChange;
use std::alloc::{AllocError, Global};

/// Why an act changes nothing.
#[derive(Clone, Copy, Debug, PartialEq, Eq)]
pub enum Refusal {
    /// What the engine refuses too, and want of memory.
    Fault(Fault),
    /// The keyword is none of the done ones.
    NotDone,
    /// The heading's sequence has no done keyword.
    NoDone,
    /// A clock of the heading runs already.
    ClockRuns,
    /// No clock of the heading runs.
    NoClock,
    /// The heading's clock began in this minute since 0001-01-01 00:00, which is later than it would end.
    EndsEarly(u64),
    /// What would be written would be read as something else.
    Misread,
    /// A part of a new heading would be.
    Unreadable(Unreadable),
    /// The text isn't the one that the act left which is to be taken back.
    Edited,
    /// The heading has no date that could be shifted.
    NoDate,
}

impl From<Fault> for Refusal {
    ghost from_gives = { λ fault refusal. refusal ≡ Refusal.Fault fault };

    fn from(fault: Fault) -> Refusal {
        Refusal::Fault(fault)
    }
}

impl From<AllocError> for Refusal {
    ghost from_gives = { λ _ refusal. refusal ≡ no_memory };

    fn from(_refused: AllocError) -> Refusal {
        Refusal::Fault(Fault::Plain(Code::Memory))
    }
}

/// A change that is asked of a file, worked out of its text.
pub trait Act {
    /// The text that it makes of another, or why it is refused.
    ghost amended: { Self → List ℕ → Result (List ℕ) Refusal };

    /// The change that it makes of a text, or why it is refused. Want of memory may come at any time.
    fn plan(&self, alloc: Global, text: &str) -> Result<OwnedChange, Refusal>
        ensures value { Makes result text.now (amended self.now text.now) };
}

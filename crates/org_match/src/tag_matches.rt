//! Verdicts of terms on tags.
ghost use Rattle.std.specs.Prelude.{◌≡◌, ◌++◌, ◌∷◌, [], OnOk};

use smallvec::SmallVec;
use std::alloc::{AllocError, Global};
use std::marker::Model;

/// For each term before the slash whether one of some tags is what it asks for, seen as the list of these. Up to eight need
/// no memory.
#[derive(Debug, Drop)]
pub struct TermMatches {
    list: SmallVec<bool, 8>,
}

impl Model for TermMatches {
    ghost use Rattle.std.specs.Prelude.{Bool, List};

    ghost Value = { List Bool };

    ghost view = { λ v. v.list.items };
}

impl TermMatches {
    // Those of no term.
    pub(crate) fn new(alloc: Global) -> TermMatches
        ensures value { result ≡ [] }
    {
        TermMatches {
            list: SmallVec::new(alloc),
        }
    }

    // Puts the match of one more term at the end.
    pub(crate) fn push(&mut self, is_met: bool) -> Result<(), AllocError>
        ensures ok { OnOk result (self.new ≡ self.old ++ is_met ∷ []) }
    {
        self.list.push(is_met)?;
        Ok(())
    }

    /// The matches, to go over.
    pub fn as_slice(&self) -> &[bool]
        ensures value { result.now ≡ self.now }
    {
        self.list.as_slice()
    }
}

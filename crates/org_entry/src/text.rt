//! The text of an entry.
ghost use Rattle.std.specs.Prelude.{◌≡◌, ◌+◌, ◌++◌, ◌<◌, ◌^◌, [], length, OnOk};

use smallvec::SmallVec;
use std::alloc::{AllocError, Global};
use std::marker::Model;

/// The heading line and the planning line of a section, seen as their bytes. Up to 56 of them stand in place, as a heading
/// line of ordinary length does.
#[derive(Debug, Drop)]
pub struct EntryText {
    bytes: SmallVec<u8, 56>,
}

impl Model for EntryText {
    ghost use Rattle.std.specs.Prelude.{◌<◌, ◌^◌, ℕ, List, length};

    ghost Value = { List ℕ };

    ghost view = { λ t. t.bytes.items };

    ghost invariant = { λ t. length t.bytes.items < 2 ^ 32 };
}

impl EntryText {
    // No line.
    pub(crate) fn new(alloc: Global) -> EntryText
        ensures value { result ≡ [] }
    {
        EntryText {
            bytes: SmallVec::new(alloc),
        }
    }

    // Puts a line at the end. Few lines come, so that room is made for no more than one.
    pub(crate) fn push(&mut self, line: &[u8]) -> Result<(), AllocError>
        requires fits { length self.old + length line.now < 2 ^ 32 }
        ensures ok { OnOk result (self.new ≡ self.old ++ line.now) }
    {
        self.bytes.reserve_exact(line.len())?;
        self.bytes.extend_from_slice(line)?;
        Ok(())
    }

    /// The bytes, lent.
    pub fn as_slice(&self) -> &[u8]
        ensures value { result.now ≡ self.now }
        ensures fits { length result.now < 2 ^ 32 }
    {
        self.bytes.as_slice()
    }
}

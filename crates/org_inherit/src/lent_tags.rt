//! Tags that are lent.
ghost use Rattle.std.specs.Prelude.{◌≡◌, ◌<◌, [], ◌++◌, ◌∷◌, Some, length, slice_get, OnOk};

use smallvec::SmallVec;
use std::alloc::{AllocError, Global};
use std::marker::Model;

// So many tags take no memory.
pub(crate) const FEW: usize = 8;

// Tags where they stand; seen as their list.
#[derive(Drop)]
pub(crate) struct LentTags<'a> {
    list: SmallVec<&'a [u8], FEW>,
}

impl<'a> Model for LentTags<'a> {
    ghost use Rattle.std.specs.Prelude.{ℕ, List};
    ghost use Rattle.org_base.specs.Results.{lent_in};

    ghost Value = { List (List ℕ) };

    ghost view = { λ t. lent_in t.list.items };
}

impl<'a> LentTags<'a> {
    // No tags.
    pub(crate) fn new(alloc: Global) -> LentTags<'a>
        ensures value { result ≡ [] }
    {
        LentTags {
            list: SmallVec::new(alloc),
        }
    }

    // How many there are.
    pub(crate) fn count(&self) -> usize
        ensures value { result ≡ length self.now }
    {
        self.list.len()
    }

    // The tag at a place, from 0.
    pub(crate) fn get(&self, place: usize) -> &'a [u8]
        requires { place < length self.now }
        ensures value { slice_get self.now place ≡ Some result.now }
    {
        self.list.as_slice()[place]
    }

    // Puts one more at the end.
    pub(crate) fn push(&mut self, tag: &'a [u8]) -> Result<(), AllocError>
        ensures ok { OnOk result (self.new ≡ self.old ++ tag.now ∷ []) }
    {
        self.list.push(tag)?;
        Ok(())
    }
}

//! Several lists as one value.
ghost use Rattle.std.specs.Prelude.{◌≡◌, ◌↔◌, ◌<◌, [], ◌∷◌, ◌++◌, length, slice_get, Some, IsTrue, OnOk, OnErr};
ghost use Rattle.org_base.specs.Cuts.{AreEnds, cut_from, start_in};
ghost use Rattle.org_base.specs.Results.{Gives};

use std::alloc::{AllocError, Global};
use std::marker::Model;

/// A list of lists that stand one after the other in one piece of memory, so that each costs its items and one number;
/// seen as the list of them.
#[derive(Debug, Drop)]
pub struct JaggedVec<T> {
    items: Vec<T>,
    // Where each list ends among the items.
    ends: Vec<usize>,
}

impl<T> Model for JaggedVec<T> {
    ghost use Rattle.std.specs.Prelude.{List, length};
    ghost use Rattle.org_base.specs.Cuts.{AreEnds, cut_from};

    ghost Value = { List (List T) };

    ghost view = { λ r. cut_from 0 r.ends.items r.items.items };

    ghost invariant = { λ r. AreEnds 0 r.ends.items (length r.items.items) };
}

impl<T: Copy> JaggedVec<T> {
    /// No lists.
    pub fn new(alloc: Global) -> JaggedVec<T>
        ensures value { result ≡ [] }
    {
        JaggedVec {
            items: Vec::new(alloc),
            ends: Vec::new(alloc),
        }
    }

    /// No lists, with room for so many ends.
    pub fn with_room(alloc: Global, count: usize) -> Result<JaggedVec<T>, AllocError>
        ensures value { Gives result [] }
    {
        Ok(JaggedVec {
            items: Vec::new(alloc),
            ends: Vec::with_capacity(alloc, count)?,
        })
    }

    /// Puts a copy of the list at the end. Where memory is refused the lists are as before.
    #[tactic(auto, using(crate::proofs::CutLemmas::cut_pushed, crate::proofs::CutLemmas::ends_pushed))]
    pub fn push(&mut self, list: &[T]) -> Result<(), AllocError>
        ensures ok { OnOk result (self.new ≡ self.old ++ list.now ∷ []) }
        ensures err { OnErr result (self.new ≡ self.old) }
    {
        self.ends.reserve(1)?;
        self.items.extend_from_slice(list)?;
        let _ = self.ends.push(self.items.len());
        Ok(())
    }

    /// Equal lists.
    pub fn copy(&self, alloc: Global) -> Result<JaggedVec<T>, AllocError>
        ensures value { Gives result self.now }
    {
        Ok(JaggedVec {
            items: Vec::from_slice(alloc, self.items.as_slice())?,
            ends: Vec::from_slice(alloc, self.ends.as_slice())?,
        })
    }

    /// How many lists there are.
    #[tactic(auto, using(crate::proofs::CutLemmas::cut_length))]
    pub fn count(&self) -> usize
        ensures value { result ≡ length self.now }
    {
        self.ends.len()
    }

    /// The list at a place, from 0.
    #[tactic(auto, using(crate::proofs::CutLemmas::cut_length))]
    pub fn get(&self, place: usize) -> &[T]
        requires { place < length self.now }
        ensures value { slice_get self.now place ≡ Some result.now }
    {
        list_at(self.items.as_slice(), self.ends.as_slice(), place)
    }
}

impl JaggedVec<u8> {
    /// Whether they are the same lists.
    pub fn is_same(&self, other: &JaggedVec<u8>) -> bool
        ensures value { IsTrue result ↔ (self.now ≡ other.now) }
    {
        self.ends == other.ends && self.items == other.items
    }
}

// The list at a place of those that end so.
#[tactic(auto, using(crate::proofs::CutLemmas::cut_at, crate::proofs::CutLemmas::ends_within))]
fn list_at<'a, T>(items: &'a [T], ends: &[usize], place: usize) -> &'a [T]
    requires ends { AreEnds 0 ends.now (length items.now) }
    requires within { place < length ends.now }
    ensures value { slice_get (cut_from 0 ends.now items.now) place ≡ Some result.now }
{
    let start = start_in(ends, place);
    &items[start..ends[place]]
}

// Where the list at a place begins.
#[tactic(auto, using(crate::proofs::CutLemmas::start_before))]
fn start_in(ends: &[usize], place: usize) -> usize
    requires within { place < length ends.now }
    ensures value { result ≡ start_in 0 ends.now place }
{
    if place == 0 { 0 } else { ends[place - 1] }
}

//! A sequence that is shared, and edited by its parts.
ghost use Rattle.std.specs.Prelude.{◌≡◌, ◌+◌, ◌^◌, ◌<◌, ◌≤◌, [], ◌∷◌, ◌++◌, length, take, drop};
ghost use Rattle.std.specs.Prelude.{◌↔◌, slice_index_or, IsTrue, IfOk, OnOk, OnErr};
ghost use Rattle.std.specs.List.{sum_by, count_by, splice};
ghost use Rattle.org_sequence.specs.Parts.{items_of, HoldsPlace, IsItemOf, IsFirstPassing};

use crate::join::{build, join_of};
use crate::leaf::leaf;
use crate::measured::{Measure, Measured, Sign};
use crate::replace::replace_between;
use crate::tree::Root;
use std::alloc::{AllocError, Global};
use std::marker::Model;

/// Items in order, seen as the list of their values. Their sizes together are below 2^32.
#[derive(Debug, Drop)]
pub struct Sequence<T: Measured> {
    alloc: Global,
    root: Root<T>,
}

impl<T: Measured> Model for Sequence<T> {
    ghost use Rattle.std.specs.Prelude.{List};

    ghost Value = { List T };

    ghost use Rattle.org_sequence.specs.Parts.{items_of};

    ghost view = { λ s. items_of s.root };
}

impl<T: Measured> Sequence<T> {
    /// No items.
    pub fn new(alloc: Global) -> Sequence<T>
        ensures value { result ≡ [] }
    {
        Sequence { alloc, root: None }
    }

    /// The items of a list, as equal items.
    pub fn of(alloc: Global, items: &[T]) -> Result<Sequence<T>, AllocError>
        requires size_fits { sum_by T.size items.now < 2 ^ 32 }
        ensures value { IfOk result (λ s. s ≡ items.now) }
    {
        let root = build(alloc, items)?;
        Ok(Sequence { alloc, root })
    }

    /// How many items there are.
    pub fn len(&self) -> u32
        ensures value { result ≡ length self.now }
    {
        match &self.root {
            None => 0,
            Some(tree) => tree.count(),
        }
    }

    /// Whether there are none.
    #[tactic(auto, using(std::proofs::lemmas::List::nil_from_length))]
    pub fn is_empty(&self) -> bool
        ensures value { IsTrue result ↔ (self.now ≡ []) }
    {
        self.len() == 0
    }

    /// The sum of their sizes, which is kept.
    pub fn size(&self) -> u32
        ensures value { result ≡ sum_by T.size self.now }
        ensures covers { length self.now ≤ result }
    {
        match &self.root {
            None => 0,
            Some(tree) => tree.sums().size,
        }
    }

    /// The sum of their lines, which is kept.
    pub fn lines(&self) -> u32
        ensures value { result ≡ sum_by T.lines self.now }
        ensures covered { result ≤ sum_by T.size self.now }
    {
        match &self.root {
            None => 0,
            Some(tree) => tree.sums().lines,
        }
    }

    /// How many items are pending, which is kept.
    pub fn pending(&self) -> u32
        ensures value { result ≡ count_by T.pending self.now }
    {
        match &self.root {
            None => 0,
            Some(tree) => tree.sums().pending,
        }
    }

    /// How many items bear the flag, which is kept.
    pub fn flags(&self) -> u32
        ensures value { result ≡ count_by T.flagged self.now }
    {
        match &self.root {
            None => 0,
            Some(tree) => tree.sums().flags,
        }
    }

    /// The items from a place on, as far as they lie together: at least one, and none is copied.
    pub fn run_at(&self, at: u32) -> &[T]
        requires { at < length self.now }
        ensures some { 0 < length result.now }
        ensures run { result.now ≡ take (length result.now) (drop at self.now) }
        ensures within { at + length result.now ≤ length self.now }
    {
        match &self.root {
            None => unreachable!(),
            Some(tree) => tree.run_at(at),
        }
    }

    /// The item at a place, from 0.
    pub fn get(&self, at: u32) -> &T
        requires { at < length self.now }
        ensures value { result.now ≡ slice_index_or self.now at result.now }
    {
        let run = self.run_at(at);
        &run[0]
    }

    /// The item that holds a place, where sizes are counted, and the size of the items before it.
    pub fn find(&self, place: u32) -> (u32, u32)
        requires { place < sum_by T.size self.now }
        ensures value { IsItemOf T.size self.now place result.0 result.1 }
    {
        match &self.root {
            None => unreachable!(),
            Some(tree) => tree.find(Measure::Size, place),
        }
    }

    /// The item that `find` names, lent, and the size of the items before it: in one search, where its place isn't
    /// asked.
    pub fn item_at(&self, place: u32) -> (&T, u32)
        requires { place < sum_by T.size self.now }
        ensures value { HoldsPlace T.size self.now place result.0.now result.1 }
    {
        match &self.root {
            None => unreachable!(),
            Some(tree) => tree.item_at(place),
        }
    }

    /// The item that holds a line, counted from 0, and the lines of the items before it.
    pub fn find_line(&self, line: u32) -> (u32, u32)
        requires { line < sum_by T.lines self.now }
        ensures value { IsItemOf T.lines self.now line result.0 result.1 }
    {
        match &self.root {
            None => unreachable!(),
            Some(tree) => tree.find(Measure::Lines, line),
        }
    }

    /// The size of the items before a place.
    pub fn size_before(&self, at: u32) -> u32
        requires { at ≤ length self.now }
        ensures value { result ≡ sum_by T.size (take at self.now) }
    {
        match &self.root {
            None => 0,
            Some(tree) => tree.sums_before(at).size,
        }
    }

    /// The lines of the items before a place.
    pub fn lines_before(&self, at: u32) -> u32
        requires { at ≤ length self.now }
        ensures value { result ≡ sum_by T.lines (take at self.now) }
    {
        match &self.root {
            None => 0,
            Some(tree) => tree.sums_before(at).lines,
        }
    }

    /// The first item from a place on that is pending, if one is.
    pub fn first_pending(&self, from: u32) -> Option<u32>
        requires { from ≤ length self.now }
        ensures value { IsFirstPassing T.pending self.now from result }
    {
        match &self.root {
            None => None,
            Some(tree) => tree.first_from(Sign::Pending, from),
        }
    }

    /// The first item from a place on that bears the flag, if one does.
    pub fn first_flagged(&self, from: u32) -> Option<u32>
        requires { from ≤ length self.now }
        ensures value { IsFirstPassing T.flagged self.now from result }
    {
        match &self.root {
            None => None,
            Some(tree) => tree.first_from(Sign::Flag, from),
        }
    }

    /// Replaces the items from one place up to another by equal ones of a list. Out of memory is its only refusal,
    /// and leaves the sequence as before.
    pub fn replace(&mut self, from: u32, to: u32, items: &[T]) -> Result<(), AllocError>
        requires order { from ≤ to }
        requires within { to ≤ length self.old }
        requires size_fits { sum_by T.size self.old + sum_by T.size items.now < 2 ^ 32 }
        ensures ok { OnOk result (self.new ≡ splice self.old from to items.now) }
        ensures err { OnErr result (self.new ≡ self.old) }
    {
        let middle = build(self.alloc, items)?;
        self.root = replace_between(self.alloc, &self.root, from, to, &middle)?;
        Ok(())
    }

    /// Puts an item in the place of another. Out of memory leaves the sequence as before.
    pub fn set(&mut self, at: u32, item: T) -> Result<(), AllocError>
        requires within { at < length self.old }
        requires size_fits { sum_by T.size self.old + T.size item < 2 ^ 32 }
        ensures ok { OnOk result (self.new ≡ splice self.old at (at + 1) (item ∷ [])) }
        ensures err { OnErr result (self.new ≡ self.old) }
    {
        let mut items = Vec::with_capacity(self.alloc, 1)?;
        items.push(item)?;
        let one = Some(leaf(self.alloc, items)?);
        let _len = self.len();
        self.root = replace_between(self.alloc, &self.root, at, at + 1, &one)?;
        Ok(())
    }

    /// Puts an item at the end. Out of memory leaves the sequence as before.
    pub fn push(&mut self, item: T) -> Result<(), AllocError>
        requires size_fits { sum_by T.size self.old + T.size item < 2 ^ 32 }
        ensures ok { OnOk result (self.new ≡ self.old ++ item ∷ []) }
        ensures err { OnErr result (self.new ≡ self.old) }
    {
        let mut items = Vec::with_capacity(self.alloc, 1)?;
        items.push(item)?;
        let one = Some(leaf(self.alloc, items)?);
        self.root = join_of(self.alloc, &self.root, &one)?;
        Ok(())
    }

    /// Puts the items of another sequence after these. Out of memory leaves this one as
    /// before.
    pub fn append(&mut self, other: &Sequence<T>) -> Result<(), AllocError>
        requires size_fits { sum_by T.size self.old + sum_by T.size other.now < 2 ^ 32 }
        ensures ok { OnOk result (self.new ≡ self.old ++ other.now) }
        ensures err { OnErr result (self.new ≡ self.old) }
    {
        self.root = join_of(self.alloc, &self.root, &other.root)?;
        Ok(())
    }

    /// An equal sequence, which shares all that both hold: its cost is that of one count.
    pub fn share(&self) -> Result<Sequence<T>, AllocError>
        ensures value { IfOk result (λ s. s ≡ self.now) }
    {
        let root = self.root.clone()?;
        Ok(Sequence {
            alloc: self.alloc,
            root,
        })
    }
}

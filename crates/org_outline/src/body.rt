//! Entries with the table of their parents.
ghost use Rattle.std.specs.Prelude.{◌≡◌, ◌<◌, ◌≤◌, ◌++◌, length, slice_index_or, slice_set, IfErr, OnOk, OnErr};
ghost use Rattle.std.specs.List.{splice};
ghost use Rattle.org_base.specs.Results.{Gives, GivesItems};
ghost use Rattle.org_outline.specs.Levels.{levels, held_in};
ghost use Rattle.org_outline.specs.Tree.{all_ends, end_of, parent};

use crate::levels::{Levels, end_table, level_of, parent_table};
use org_entry::Entry;
use std::alloc::{AllocError, AllocFailed, Global};
use std::marker::Model;
use std::mem;
use std::ops::Range;
use std::rc::Rc;

// Entries, and by their places how many there are up to the parent of each, with it; 0 where it has none.
#[derive(Debug, Drop)]
pub(crate) struct Body {
    list: Vec<Rc<Entry>>,
    parents: Vec<usize>,
}

impl Model for Body {
    ghost use Rattle.std.specs.Prelude.{◌≡◌, List};
    ghost use Rattle.org_entry.specs.declared.entry.Entry.{Entry};
    ghost use Rattle.org_outline.specs.Levels.{held_in, levels};
    ghost use Rattle.org_outline.specs.Parents.{all_up_to_parent};

    ghost Value = { List Entry };

    ghost view = { λ s. held_in s.list.items };

    ghost invariant = { λ s. s.parents.items ≡ all_up_to_parent (levels (held_in s.list.items)) };
}

// Puts more entries at the end of a list.
fn append(list: &mut Vec<Rc<Entry>>, more: &[Rc<Entry>]) -> Result<(), AllocError>
    ensures ok { OnOk result (held_in list.new.items ≡ held_in list.old.items ++ held_in more.now) }
{
    for entry in more {
        list.push(entry.clone()?)?;
    }
    Ok(())
}

impl Body {
    // The entries of a list. Out of memory hands the list back.
    pub(crate) fn new(
        alloc: Global,
        list: Vec<Rc<Entry>>,
    ) -> Result<Body, AllocFailed<Vec<Rc<Entry>>>>
        ensures value { Gives result (held_in list.items) }
        ensures returned { IfErr result (λ failed. held_in failed.value.items ≡ held_in list.items) }
    {
        match parent_table(alloc, &Levels::of(&list)) {
            Ok(parents) => Ok(Body { list, parents }),
            Err(_) => Err(AllocFailed { value: list }),
        }
    }

    // The list of the entries.
    pub(crate) fn into_list(self) -> Vec<Rc<Entry>>
        ensures value { held_in result.items ≡ self }
    {
        self.list
    }

    // These entries in the place of those in the range.
    pub(crate) fn with_range(
        &self,
        alloc: Global,
        range: Range<usize>,
        entries: &[Rc<Entry>],
    ) -> Result<Body, AllocError>
        requires order { range.start ≤ range.end }
        requires within { range.end ≤ length self.now }
        ensures value { Gives result (splice self.now range.start range.end (held_in entries.now)) }
    {
        let mut list = Vec::new(alloc);
        append(&mut list, &self.list[..range.start])?;
        append(&mut list, entries)?;
        append(&mut list, &self.list[range.end..])?;
        Ok(Body::new(alloc, list)?)
    }

    // Puts an entry in the place of the one at a place. Where both have one level no other entry is looked at; else the
    // table of parents is made anew. Out of memory leaves the entries as before.
    pub(crate) fn set(
        &mut self,
        alloc: Global,
        place: usize,
        entry: Rc<Entry>,
    ) -> Result<(), AllocError>
        requires { place < length self.old }
        ensures ok { OnOk result (self.new ≡ slice_set self.old place entry.value) }
        ensures err { OnErr result (self.new ≡ self.old) }
    {
        if level_of(&self.list[place]) == level_of(&entry) {
            self.list[place] = entry;
            return Ok(());
        }
        let before = mem::replace(&mut self.list[place], entry);
        match parent_table(alloc, &Levels::of(&self.list)) {
            Ok(parents) => {
                self.parents = parents;
                Ok(())
            }
            Err(refused) => {
                self.list[place] = before;
                Err(refused)
            }
        }
    }

    // How many entries there are.
    pub(crate) fn count(&self) -> usize
        ensures value { result ≡ length self.now }
    {
        self.list.len()
    }

    // The entry at a place.
    pub(crate) fn entry(&self, place: usize) -> &Entry
        requires { place < length self.now }
        ensures value { result.now ≡ slice_index_or self.now place result.now }
    {
        &self.list[place]
    }

    // The parent of the entry at a place.
    pub(crate) fn parent(&self, place: usize) -> Option<usize>
        requires { place < length self.now }
        ensures value { result ≡ parent (levels self.now) place }
    {
        self.parents[place].checked_sub(1)
    }

    // Where the subtree of the entry at a place ends.
    pub(crate) fn end_of(&self, place: usize) -> usize
        requires { place < length self.now }
        ensures value { result ≡ end_of (levels self.now) place }
        ensures behind { place < result }
        ensures within { result ≤ length self.now }
    {
        Levels::of(&self.list).end_of(place)
    }

    // The same of all entries, by their places.
    pub(crate) fn ends(&self, alloc: Global) -> Result<Vec<usize>, AllocError>
        ensures value { GivesItems result (all_ends (levels self.now)) }
    {
        end_table(alloc, &Levels::of(&self.list))
    }
}

impl Clone for Body {
    ghost is_clone = { λ s t. t ≡ s };

    fn clone(&self) -> Result<Body, AllocError> {
        let list = self.list.clone()?;
        let parents = self.parents.clone()?;
        Ok(Body { list, parents })
    }
}

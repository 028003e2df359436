//! Entries that are to be put into an outline.
ghost use Rattle.std.specs.Prelude.{◌≡◌, [], ◌++◌, ◌∷◌, length, map, IfErr, OnOk, OnErr, IsOkUnless};
ghost use Rattle.org_base.specs.Codes.{memory_fault};
ghost use Rattle.org_base.specs.Results.{Gives};

use org_base::Fault;
use org_entry::Entry;
use std::alloc::{AllocFailed, Global};
use std::marker::Model;
use std::rc::Rc;

/// Entries that are to be put into an outline, in order.
#[derive(Debug, Drop)]
pub struct Entries {
    alloc: Global,
    list: Vec<Rc<Entry>>,
}

impl Model for Entries {
    ghost use Rattle.std.specs.Prelude.{List, map};
    ghost use Rattle.org_entry.specs.declared.entry.Entry.{Entry};

    ghost Value = { List Entry };

    ghost view = { λ s. map (λ e. e.value) s.list.items };
}

impl Entries {
    /// No entries.
    pub fn new(alloc: Global) -> Entries
        ensures value { result ≡ [] }
    {
        Entries {
            alloc,
            list: Vec::new(alloc),
        }
    }

    /// No entries, with room for so many.
    pub fn with_room(alloc: Global, count: usize) -> Result<Entries, Fault>
        ensures value { Gives result [] }
        ensures memory { IsOkUnless result memory_fault }
    {
        let list = Vec::with_capacity(alloc, count)?;
        Ok(Entries { alloc, list })
    }

    /// Puts an entry at the end. Out of memory is the only refusal: it hands the entry back, and the entries are as
    /// before.
    pub fn push(&mut self, entry: Entry) -> Result<(), AllocFailed<Entry>>
        ensures ok { OnOk result (self.new ≡ self.old ++ entry ∷ []) }
        ensures err { OnErr result (self.new ≡ self.old) }
        ensures returned { IfErr result (λ refused. refused.value ≡ entry) }
    {
        if self.list.reserve(1).is_err() {
            return Err(AllocFailed { value: entry });
        }
        let shared = Rc::new(self.alloc, entry)?;
        let _ = self.list.push(shared);
        Ok(())
    }

    /// Puts an entry that others hold too at the end, at the cost of one count. Out of memory is the only refusal, and
    /// leaves the entries as before.
    pub fn push_shared(&mut self, entry: &Rc<Entry>) -> Result<(), Fault>
        ensures ok { OnOk result (self.new ≡ self.old ++ entry.now.value ∷ []) }
        ensures err { OnErr result (self.new ≡ self.old) }
        ensures memory { IsOkUnless result memory_fault }
    {
        self.list.push(entry.clone()?)?;
        Ok(())
    }

    /// How many entries there are.
    pub fn count(&self) -> usize
        ensures value { result ≡ length self.now }
    {
        self.list.len()
    }

    // The entries of a list.
    pub(crate) fn of_list(alloc: Global, list: Vec<Rc<Entry>>) -> Entries
        ensures value { result ≡ map (λ e. e.value) list.items }
    {
        Entries { alloc, list }
    }

    // The list of the entries.
    pub(crate) fn into_list(self) -> Vec<Rc<Entry>>
        ensures value { map (λ e. e.value) result.items ≡ self }
    {
        self.list
    }

    // The entries, to be shared.
    pub(crate) fn as_slice(&self) -> &[Rc<Entry>]
        ensures value { map (λ e. e.value) result.now ≡ self.now }
    {
        self.list.as_slice()
    }
}

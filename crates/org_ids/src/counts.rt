//! Which names several headings have.
ghost use Rattle.std.specs.Prelude.{◌≡◌, [], OnOk};
ghost use Rattle.org_ids.specs.Counts.{IsAskedToo, IsCountedToo, IsPut, is_twice, number_of};

use std::alloc::{AllocError, Global};
use std::collections::BTreeMap;
use std::marker::Model;

/// How often each of some names came: not, once, or more often. Names are found by order, since what they hash to would be the
/// writer's to choose.
#[derive(Drop)]
pub struct NameCounts {
    alloc: Global,
    by_name: BTreeMap<Vec<u8>, usize>,
}

impl Model for NameCounts {
    ghost use Rattle.std.specs.Prelude.{map};
    ghost use Rattle.org_ids.specs.Counts.{Counts};

    ghost Value = { Counts };

    ghost view = { λ c. map (λ e. (e.0.items, e.1)) c.by_name.entries };
}

impl NameCounts {
    /// No name.
    pub fn new(alloc: Global) -> NameCounts
        ensures value { result ≡ [] }
    {
        NameCounts {
            alloc,
            by_name: BTreeMap::new(alloc),
        }
    }

    /// Asks about a name, which is counted from now on.
    pub fn ask(&mut self, name: &[u8]) -> Result<(), AllocError>
        ensures ok { OnOk result (IsAskedToo self.old self.new name.now) }
    {
        if self.number(name).is_some() {
            return Ok(());
        }
        self.put(name, 0)?;
        Ok(())
    }

    /// Counts a name once more, if it is asked about.
    pub fn count(&mut self, name: &[u8]) -> Result<(), AllocError>
        ensures ok { OnOk result (IsCountedToo self.old self.new name.now) }
    {
        let Some(number) = self.number(name) else {
            return Ok(());
        };
        if number >= 2 {
            return Ok(());
        }
        self.put(name, number + 1)?;
        Ok(())
    }

    // The number of a name, if it is asked about.
    fn number(&self, name: &[u8]) -> Option<usize>
        ensures value { result ≡ number_of self.now name.now }
    {
        self.by_name.get(name).copied()
    }

    fn put(&mut self, name: &[u8], number: usize) -> Result<(), AllocError>
        ensures ok { OnOk result (IsPut self.old self.new name.now number) }
    {
        let name = Vec::from_slice(self.alloc, name)?;
        self.by_name.insert(name, number)?;
        Ok(())
    }

    /// Whether a name that is asked about came more often than once.
    pub fn is_repeated(&self, name: &[u8]) -> bool
        ensures value { result ≡ is_twice (number_of self.now name.now) }
    {
        self.number(name) == Some(2)
    }
}

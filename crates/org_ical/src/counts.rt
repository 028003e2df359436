//! How often keys came.
ghost use Rattle.std.specs.Prelude.{◌≡◌, ◌+◌, ◌^◌, ◌<◌, [], OnOk};
ghost use Rattle.org_ical.specs.Counts.{IsCountedToo, count_of};
ghost use Rattle.org_ical.specs.Results.{Gives};

use std::alloc::{AllocError, Global};
use std::collections::BTreeMap;
use std::marker::Model;

// A number for each key; 0 where none was noted. Keys are found by order, since what they hash to is the writer's to choose.
#[derive(Drop)]
pub(crate) struct KeyCounts {
    by_key: BTreeMap<Vec<u8>, usize>,
}

impl Model for KeyCounts {
    ghost use Rattle.std.specs.Prelude.{map};
    ghost use Rattle.org_ical.specs.Counts.{Counts};

    ghost Value = { Counts };

    ghost view = { λ c. map (λ e. (e.0.items, e.1)) c.by_key.entries };
}

impl KeyCounts {
    // No key.
    pub(crate) fn new(alloc: Global) -> KeyCounts
        ensures value { result ≡ [] }
    {
        KeyCounts {
            by_key: BTreeMap::new(alloc),
        }
    }

    // Counts a key once more, and gives how often it came.
    pub(crate) fn count(&mut self, alloc: Global, key: &[u8]) -> Result<usize, AllocError>
        requires few { count_of self.old key.now < 2 ^ 63 }
        ensures value { Gives result (count_of self.old key.now + 1) }
        ensures counted { OnOk result (IsCountedToo self.old self.new key.now) }
    {
        let number = self.by_key.get(key).copied().unwrap_or(0) + 1;
        let key = Vec::from_slice(alloc, key)?;
        self.by_key.insert(key, number)?;
        Ok(number)
    }
}

//! Rows in groups.
ghost use Rattle.std.specs.Prelude.{◌≡◌, [], ◌<◌, Some, None, length, slice_get, option_copied, OnOk, IfOk};
ghost use Rattle.std.specs.List.Sorted.{IsPermutation, IsSorted};
ghost use Rattle.org_order.specs.Groups.{grouped_order, name_at, with_name, with_row, without_name, place_of};

use org_base::NameSet;
use std::alloc::{AllocError, Global};
use std::marker::Model;

/// Which group a row stands in.
#[derive(Clone, Copy, Debug, PartialEq, Eq, PartialOrd, Ord)]
pub enum GroupPlace {
    /// The one with the name at this place.
    Named(usize),
    /// The one of rows without a name, behind all others.
    Unnamed,
}

/// A row in a group, by its place in a view.
#[derive(Clone, Copy, Debug, PartialEq, Eq, PartialOrd, Ord)]
pub struct GroupedRow {
    pub group: GroupPlace,
    pub place: usize,
}

/// The groups of some rows: their names in the order in which they came, and each row in each of its groups.
#[derive(Debug, Drop)]
pub struct Groups {
    alloc: Global,
    names: NameSet,
    rows: Vec<GroupedRow>,
}

impl Model for Groups {
    ghost use Rattle.org_order.specs.Groups.{GroupsView};

    ghost Value = { GroupsView };

    ghost view = { λ g. record { names = g.names; rows = g.rows.items } };
}

impl Groups {
    /// No groups.
    pub fn new(alloc: Global) -> Groups
        ensures value { result ≡ record { names = []; rows = [] } }
    {
        Groups {
            alloc,
            names: NameSet::new(alloc),
            rows: Vec::new(alloc),
        }
    }

    /// Puts a row into the group of a name, which is the last one where the name is new.
    pub fn add(&mut self, name: &[u8], place: usize) -> Result<(), AllocError>
        ensures ok { OnOk result (self.new ≡ with_row self.old name.now place) }
    {
        let group = self.place(name)?;
        self.rows.push(GroupedRow {
            group: GroupPlace::Named(group),
            place,
        })?;
        Ok(())
    }

    /// Puts a row into the group without a name.
    pub fn add_unnamed(&mut self, place: usize) -> Result<(), AllocError>
        ensures ok { OnOk result (self.new ≡ without_name self.old place) }
    {
        self.rows.push(GroupedRow {
            group: GroupPlace::Unnamed,
            place,
        })?;
        Ok(())
    }

    // The place of a name, which is put behind the others where it is new.
    fn place(&mut self, name: &[u8]) -> Result<usize, AllocError>
        ensures names { OnOk result (self.new ≡ with_name self.old name.now) }
        ensures place { IfOk result (λ place. place ≡ place_of self.old.names name.now) }
    {
        if let Some(place) = self.names.place(name) {
            return Ok(place);
        }
        let place = self.names.count();
        let name = Vec::from_slice(self.alloc, name)?;
        self.names.add(name)?;
        Ok(place)
    }

    /// Puts the rows of a group together: groups stand in the order of their names, and the rows of each in that of their
    /// places. No row goes, and none comes.
    pub fn put_in_order(&mut self) -> Result<(), AllocError>
        ensures names { self.new.names ≡ self.old.names }
        ensures same { IsPermutation self.old.rows self.new.rows }
        ensures order { OnOk result (IsSorted grouped_order self.new.rows) }
    {
        self.rows.sort()
    }

    /// All rows in their groups.
    pub fn rows(&self) -> &[GroupedRow]
        ensures value { result.now ≡ self.now.rows }
    {
        self.rows.as_slice()
    }

    /// The name of a group, if it has one.
    pub fn name(&self, group: GroupPlace) -> Option<&[u8]>
        ensures value { option_copied result ≡ name_at self.now.names group }
    {
        match group {
            GroupPlace::Named(place) if place < self.names.count() => Some(self.names.get(place)),
            GroupPlace::Named(_) | GroupPlace::Unnamed => None,
        }
    }
}

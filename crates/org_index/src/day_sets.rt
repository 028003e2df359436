//! The sets of days of an index, beside one another.
ghost use Rattle.std.specs.Prelude.{OnOk, OnErr, true, false, IfOk};
ghost use Rattle.org_index.specs.DaySets.{AreEmpty, AreSame, AreSet, MayStand};

use crate::day_set::{clear, put_id};
use crate::keys::{delayed_day, own_day, range_day, repeated_day, warned_day};
use crate::reach::Reach;
use std::alloc::{AllocError, Global};
use std::collections::BTreeSet;

// On which days which ids stand: all under their days, those that repeat, those that are delayed, those that warn by a time of
// their own, and ranges by their lengths.
#[derive(Debug, Drop)]
pub(crate) struct DaySets {
    pub(crate) days: BTreeSet<(u32, u32)>,
    pub(crate) repeating: BTreeSet<(u32, u32)>,
    pub(crate) delayed: BTreeSet<(u32, u32)>,
    pub(crate) warned: BTreeSet<(u32, u32)>,
    pub(crate) ranges: BTreeSet<(u32, u32)>,
}

impl DaySets {
    // Without ids.
    pub(crate) fn new(alloc: Global) -> DaySets
        ensures { AreEmpty result }
    {
        DaySets {
            days: BTreeSet::new(alloc),
            repeating: BTreeSet::new(alloc),
            delayed: BTreeSet::new(alloc),
            warned: BTreeSet::new(alloc),
            ranges: BTreeSet::new(alloc),
        }
    }

    // Puts the id where what is kept of its stamp says. Where memory is refused it may stand in some of these places.
    pub(crate) fn put_id(&mut self, reach: &Reach, id: u32) -> Result<(), AllocError>
        ensures ok { OnOk result (AreSet true reach.now id self.old self.new) }
        ensures err { OnErr result (MayStand reach.now id self.old self.new) }
    {
        put_id(&mut self.days, own_day(reach), id)?;
        put_id(&mut self.repeating, repeated_day(reach), id)?;
        put_id(&mut self.delayed, delayed_day(reach), id)?;
        put_id(&mut self.warned, warned_day(reach), id)?;
        put_id(&mut self.ranges, range_day(reach), id)
    }

    // Takes the id from where what is kept of its stamp says.
    pub(crate) fn clear(&mut self, reach: &Reach, id: u32)
        ensures { AreSet false reach.now id self.old self.new }
    {
        clear(&mut self.days, own_day(reach), id);
        clear(&mut self.repeating, repeated_day(reach), id);
        clear(&mut self.delayed, delayed_day(reach), id);
        clear(&mut self.warned, warned_day(reach), id);
        clear(&mut self.ranges, range_day(reach), id);
    }

    // Equal sets of days.
    pub(crate) fn share(&self) -> Result<DaySets, AllocError>
        ensures { IfOk result (AreSame self.now) }
    {
        Ok(DaySets {
            days: self.days.clone()?,
            repeating: self.repeating.clone()?,
            delayed: self.delayed.clone()?,
            warned: self.warned.clone()?,
            ranges: self.ranges.clone()?,
        })
    }
}

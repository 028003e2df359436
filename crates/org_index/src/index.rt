//! Stamps by their ids, found by days.
ghost use Rattle.std.specs.Prelude.{◌≡◌, ◌<◌, ◌≤◌, IfOk, OnOk, OnErr, Some, None, [], is_some, IsOkUnless};
ghost use Rattle.std.specs.Ordering.{nat_cmp};
ghost use Rattle.std.specs.BTreeMap.{is_at, Updates};
ghost use Rattle.std.specs.Map.{keys_of, lookup, remove_entry};
ghost use Rattle.std.specs.List.Sorted.{IsStrictlySortedBy};
ghost use Rattle.org_base.specs.Codes.{memory_fault};
ghost use Rattle.org_base.specs.Results.{Gives, GivesItems};
ghost use Rattle.org_index.specs.Reaches.{reach_of};
ghost use Rattle.org_index.specs.DaySet.{AddsRanges, Keeps};
ghost use Rattle.org_index.specs.Near.{AreCandidates, AreTouching, CountsCandidates, CountsTouching, HasCandidates, candidate_ids, is_candidate, touching_ids, with_reach};
ghost use Rattle.org_index.specs.Ticks.{examined};
ghost use Rattle.org_index.specs.declared.keys.TheConstants.{DAY_LIMIT};

use crate::day_set::{gather, gather_if};
use crate::day_sets::DaySets;
use crate::delays::WARNING_DAYS;
use crate::keys::{DAY_LIMIT, bound_of};
use crate::near::lies_in;
use crate::reach::Reach;
use org_base::{Fault, Meter, Profile, Tick};
use org_cal::Day;
use org_stamp::Stamp;
use std::alloc::{AllocError, Global};
use std::collections::{BTreeMap, BTreeSet};
use std::marker::Model;

/// Stamps by their ids, found by days: seen as the list of ids, ascending, each with what of its stamp decides to which days
/// it may matter.
#[derive(Debug, Drop)]
pub struct DayIndex {
    alloc: Global,
    reaches: BTreeMap<u32, Reach>,
    day_sets: DaySets,
}

impl Model for DayIndex {
    ghost use Rattle.std.specs.Prelude.{ℕ, List};
    ghost use Rattle.org_index.specs.declared.reach.Reach.{Reach as AnyReach};
    ghost use Rattle.org_index.specs.DaySets.{AreLanesOf};

    ghost Value = { List (ℕ × AnyReach) };

    ghost view = { λ x. x.reaches.entries };

    ghost invariant = { λ x. AreLanesOf x.reaches x.day_sets };
}

fn keep(reaches: &mut BTreeMap<u32, Reach>, id: u32, reach: Reach) -> Result<(), AllocError>
    ensures ok { OnOk result (reaches.new.entries ≡ with_reach reaches.old.entries id reach) }
    ensures updates { OnOk result (Updates nat_cmp reaches.old reaches.new id (Some reach)) }
    ensures err { OnErr result (reaches.new.entries ≡ reaches.old.entries) }
{
    // For the toolchain alone: it has to meet the type of a day.
    let _day: Day = reach.first;
    reaches.insert(id, reach)?;
    Ok(())
}

fn copy_of(reaches: &BTreeMap<u32, Reach>) -> Result<BTreeMap<u32, Reach>, AllocError>
    ensures { IfOk result (λ copy. copy.entries ≡ reaches.now.entries) }
{
    reaches.clone()
}

impl DayIndex {
    /// Without stamps.
    pub fn new(alloc: Global) -> DayIndex
        ensures value { result ≡ [] }
    {
        DayIndex {
            alloc,
            reaches: BTreeMap::new(alloc),
            day_sets: DaySets::new(alloc),
        }
    }

    /// Whether there is a stamp with that id.
    pub fn contains(&self, id: u32) -> bool
        ensures value { result ≡ is_some (lookup (is_at (nat_cmp id)) self.now) }
    {
        self.reaches.contains_key(&id)
    }

    /// Puts the stamp, as it is read in a profile, in under an id that isn't in it. Where memory is refused the index is as
    /// before.
    pub fn put(&mut self, stamp: &Stamp, profile: Profile, id: u32) -> Result<(), Fault>
        requires new { lookup (is_at (nat_cmp id)) self.old ≡ None }
        ensures ok { OnOk result (self.new ≡ with_reach self.old id (reach_of profile stamp.now)) }
        ensures err { OnErr result (self.new ≡ self.old) }
        ensures memory { IsOkUnless result memory_fault }
    {
        self.put_reach(&Reach::of(stamp, profile), id)?;
        Ok(())
    }

    fn put_reach(&mut self, reach: &Reach, id: u32) -> Result<(), AllocError>
        requires new { lookup (is_at (nat_cmp id)) self.old ≡ None }
        ensures ok { OnOk result (self.new ≡ with_reach self.old id reach.now) }
        ensures err { OnErr result (self.new ≡ self.old) }
    {
        if let Err(refused) = self.day_sets.put_id(reach, id) {
            self.day_sets.clear(reach, id);
            return Err(refused);
        }
        if let Err(refused) = keep(&mut self.reaches, id, *reach) {
            self.day_sets.clear(reach, id);
            return Err(refused);
        }
        Ok(())
    }

    /// Takes the stamp with the id out, if there is one. It takes no memory.
    pub fn take(&mut self, id: u32)
        ensures value { self.new ≡ remove_entry (is_at (nat_cmp id)) self.old }
        ensures ordered { IsStrictlySortedBy nat_cmp (keys_of self.old) }
    {
        // For the proof alone: the ids of a map ascend.
        let _ordered = self.reaches.len();
        if let Some(reach) = self.reaches.remove(&id) {
            self.day_sets.clear(&reach, id);
        }
    }

    /// An equal index, which later changes of this one don't reach, as changes of it don't reach this one.
    pub fn share(&self) -> Result<DayIndex, Fault>
        ensures value { Gives result self.now }
        ensures memory { IsOkUnless result memory_fault }
    {
        Ok(DayIndex {
            alloc: self.alloc,
            reaches: copy_of(&self.reaches)?,
            day_sets: self.day_sets.share()?,
        })
    }

    /// The ids of the stamps that are near the days from one to another with a today, ascending, each examined once as the
    /// meter counts. Out of memory is the only refusal, and then nothing is counted.
    pub fn candidates(
        &self,
        meter: &mut Meter,
        from: Day,
        to: Day,
        today: Day,
    ) -> Result<Vec<u32>, Fault>
        requires order { from ≤ to }
        ensures value { GivesItems result (candidate_ids from to today self.now) }
        ensures exact { IfOk result (λ ids. AreCandidates self.now from to today ids.items) }
        ensures counts { OnOk result (CountsCandidates self.now from to today meter.old meter.new) }
        ensures unchanged { OnErr result (meter.new ≡ meter.old) }
        ensures memory { IsOkUnless result memory_fault }
        ensures ordered { IsStrictlySortedBy nat_cmp (keys_of self.now) }
    {
        let ids = self.near_ids(from.number(), to.number(), today.number())?;
        count_examined(meter, ids.len());
        Ok(ids)
    }

    /// The ids of the stamps that touch the days from one to another, whatever day is today, ascending, each examined once as
    /// the meter counts. Out of memory is the only refusal, and then nothing is counted.
    pub fn ids_touching(&self, meter: &mut Meter, from: Day, to: Day) -> Result<Vec<u32>, Fault>
        requires order { from ≤ to }
        ensures value { GivesItems result (touching_ids from to self.now) }
        ensures exact { IfOk result (λ ids. AreTouching self.now from to ids.items) }
        ensures counts { OnOk result (CountsTouching self.now from to meter.old meter.new) }
        ensures unchanged { OnErr result (meter.new ≡ meter.old) }
        ensures memory { IsOkUnless result memory_fault }
    {
        let ids = self.near_ids(from.number(), to.number(), to.number() + 1)?;
        count_examined(meter, ids.len());
        Ok(ids)
    }

    fn near_ids(&self, from: u32, to: u32, today: u32) -> Result<Vec<u32>, AllocError>
        requires days { (1 ≤ from) × (from ≤ to) × (to < DAY_LIMIT) × (today < DAY_LIMIT) }
        ensures exact { IfOk result (λ ids. AreCandidates self.now from to today ids.items) }
        ensures once { IfOk result (λ ids. IsStrictlySortedBy nat_cmp ids.items) }
        ensures ordered { IsStrictlySortedBy nat_cmp (keys_of self.now) }
    {
        // For the proof alone: the ids of a map ascend.
        let _ordered = self.reaches.len();
        let found = sorted_ids(self, from, to, today)?;
        let mut ids = Vec::new(self.alloc);
        for id in found.as_slice() {
            if self.is_candidate(from, to, today, *id) {
                ids.push(*id)?;
            }
        }
        Ok(ids)
    }

    // Whether the stamp with the id is near.
    fn is_candidate(&self, from: u32, to: u32, today: u32, id: u32) -> bool
        ensures value { result ≡ is_candidate self.now from to today id }
    {
        match self.reaches.get(&id) {
            None => false,
            Some(reach) => reach.touches(from, to) || reach.warns(from, to, today),
        }
    }
}

// Counts so many examined stamps.
fn count_examined(meter: &mut Meter, count: usize)
    ensures { meter.new ≡ examined count meter.old }
{
    for _ in 0..count {
        meter.tick(Tick::Examine);
    }
}

// The ids among which those of all near stamps are, ascending, each once.
fn sorted_ids(index: &DayIndex, from: u32, to: u32, today: u32) -> Result<Vec<u32>, AllocError>
    requires days { (1 ≤ from) × (from ≤ to) × (to < DAY_LIMIT) × (today < DAY_LIMIT) }
    ensures all { IfOk result (λ ids. HasCandidates index.now from to today ids.items) }
    ensures once { IfOk result (λ ids. IsStrictlySortedBy nat_cmp ids.items) }
{
    let mut ids = gather_ids(index, from, to, today)?;
    sort_once(&mut ids);
    Ok(ids)
}

// Brings ids into their order; of equal ones one stays.
fn sort_once(ids: &mut Vec<u32>)
    ensures keeps { Keeps ids.old.items ids.new.items }
    ensures once { IsStrictlySortedBy nat_cmp ids.new.items }
{
    ids.sort_unstable();
    ids.dedup();
}

// The ids among which those of all near stamps are, some more than once.
fn gather_ids(index: &DayIndex, from: u32, to: u32, today: u32) -> Result<Vec<u32>, AllocError>
    requires days { (1 ≤ from) × (from ≤ to) × (to < DAY_LIMIT) × (today < DAY_LIMIT) }
    ensures all { IfOk result (λ ids. HasCandidates index.now from to today ids.items) }
{
    let asked = lies_in(from, to, today);
    let mut found = Vec::new(index.alloc);
    gather(&mut found, &index.day_sets.days, from, to)?;
    gather_if(
        &mut found,
        &index.day_sets.days,
        asked,
        today + WARNING_DAYS,
    )?;
    gather(&mut found, &index.day_sets.repeating, 0, to)?;
    gather(&mut found, &index.day_sets.delayed, from, to)?;
    gather_if(&mut found, &index.day_sets.warned, asked, today)?;
    gather_ranges(&mut found, &index.day_sets.ranges, from)?;
    Ok(found)
}

// Adds the ids of ranges that began before the days and may reach into them.
fn gather_ranges(
    found: &mut Vec<u32>,
    ranges: &BTreeSet<(u32, u32)>,
    from: u32,
) -> Result<(), AllocError>
    requires { from < DAY_LIMIT }
    ensures keeps { OnOk result (Keeps found.old.items found.new.items) }
    ensures adds { OnOk result (AddsRanges ranges.now from found.new.items) }
{
    let mut class = 0;
    'classes: while class < 7 {
        let base = DAY_LIMIT * class;
        let low = from.saturating_sub(bound_of(class));
        gather(found, ranges, base + low, base + from)?;
        class += 1;
    }
    Ok(())
}

//! The stamps of a file's headings, found by days.
ghost use Rattle.std.specs.Prelude.{◌≡◌, ◌≤◌, ◌<◌, ◌+◌, ◌^◌, ◌∷◌, [], true, get_or, length, IfOk, OnErr, OnOk, IsOkUnless};
ghost use Rattle.std.specs.List.Sorted.{IsStrictlySortedBy};
ghost use Rattle.std.specs.Ordering.{nat_cmp};
ghost use Rattle.org_base.specs.Codes.{memory_fault};
ghost use Rattle.org_index.specs.Ticks.{Examines};
ghost use Rattle.org_stamp_index.specs.Index.{AreFresh, AreKeptAlikeIf, HasPut, HasSet, HasTaken, HaveTaken, IsCopy, IsIndexOf, IsReplaced, PutsIds};
ghost use Rattle.org_stamp_index.specs.Near.{CountsNearOf, HoldNearOf};

use crate::alike::are_alike;
use crate::heading_ids::{add_headings, renumber_headings, sort_once, splice_ids};
use crate::near_query::{NearQuery, is_reminding};
use org_base::{Code, Fault, Meter, Profile};
use org_entry::{Entry, EntryStamp, write_active};
use org_index::DayIndex;
use org_outline::Outline;
use org_settings::Settings;
use std::alloc::{AllocError, Global};
use std::ops::Range;
use std::rc::Rc;

// So many ids may always lead to no stamp.
const MOST_RETIRED: usize = 65_536;

// So many ids can be given: they are numbers of 32 bits.
const MOST_IDS: usize = 4_294_967_296;

// The stamps of a file's headings in two indexes: of those that press, and of the others. Ids count up from 0 and are never
// given twice.
#[derive(Debug, Drop)]
pub(crate) struct StampIndex {
    // By which the stamps were read, and in which they are looked at.
    pub(crate) settings: Rc<Settings>,
    pub(crate) profile: Profile,
    pub(crate) reminding: DayIndex,
    pub(crate) plain: DayIndex,
    // By id the place of its heading.
    pub(crate) heading_of: Vec<usize>,
    // By place the first id of its heading's stamps; the others follow.
    pub(crate) first_id_of: Vec<u32>,
    // How many ids lead to no stamp any more.
    retired: usize,
}

impl StampIndex {
    // The stamps of all entries of an outline, read by settings, as they are looked at in a profile.
    pub(crate) fn of(
        alloc: Global,
        outline: &Outline,
        settings: &Rc<Settings>,
        profile: Profile,
    ) -> Result<StampIndex, Fault>
        ensures value { IfOk result (IsIndexOf settings.now.value outline.now) }
        ensures settings { IfOk result (λ x. x.settings.value ≡ settings.now.value) }
        ensures profile { IfOk result (λ x. x.profile ≡ profile) }
        ensures memory { IsOkUnless result memory_fault }
    {
        let mut index = StampIndex {
            settings: settings.clone()?,
            profile,
            reminding: DayIndex::new(alloc),
            plain: DayIndex::new(alloc),
            heading_of: Vec::new(alloc),
            first_id_of: Vec::new(alloc),
            retired: 0,
        };
        let first_id_of = index.put_entries(alloc, outline, &(0..outline.count()))?;
        index.first_id_of = first_id_of;
        Ok(index)
    }

    // Puts the stamps of an entry in the place of those of the one at a place of an outline. Out of memory is the only refusal;
    // then the index is of no use any more.
    pub(crate) fn set(
        &mut self,
        alloc: Global,
        outline: &Outline,
        place: usize,
        entry: &Entry,
    ) -> Result<(), Fault>
        requires is { IsIndexOf self.old.settings.value outline.now self.old }
        requires within { place < length outline.now }
        ensures ok { OnOk result (HasSet outline.now place entry.now self.old self.new) }
        ensures settings { OnOk result (self.new.settings.value ≡ self.old.settings.value) }
        ensures memory { IsOkUnless result memory_fault }
    {
        let settings = self.settings.clone()?;
        let mut own = Vec::new(alloc);
        write_active(&mut own, settings.as_ref(), outline.entry(place))?;
        let first = self.first_id(place);
        self.take_stamps(first, own.as_slice());
        write_active(&mut own, settings.as_ref(), entry)?;
        let first = self.put_stamps(place, own.as_slice())?;
        self.first_id_of[place] = first;
        Ok(())
    }

    // Whether of the stamps of two entries the same is kept, wherever they stand: then one in the place of the other changes nothing.
    pub(crate) fn keeps_alike(
        &self,
        alloc: Global,
        entry: &Entry,
        other: &Entry,
    ) -> Result<bool, AllocError>
        ensures alike { IfOk result (AreKeptAlikeIf self.now entry.now other.now) }
    {
        let settings = self.settings.as_ref();
        let mut stamps = Vec::new(alloc);
        write_active(&mut stamps, settings, entry)?;
        let mut others = Vec::new(alloc);
        write_active(&mut others, settings, other)?;
        Ok(are_alike(self.profile, stamps.as_slice(), others.as_slice()))
    }

    // Puts the stamps of the entries of an outline in the place of those of an earlier one, whose entries in a range were replaced:
    // only the stamps of entries that went or came are looked at, and the place of each heading once. Out of memory is the only
    // refusal; then the index is of no use any more.
    pub(crate) fn replace(
        &mut self,
        alloc: Global,
        before: &Outline,
        range: &Range<usize>,
        after: &Outline,
    ) -> Result<(), Fault>
        requires is { IsIndexOf self.old.settings.value before.now self.old }
        requires order { range.now.start ≤ range.now.end }
        requires within { range.now.end ≤ length before.now }
        requires change { IsReplaced before.now range.now.start range.now.end after.now }
        ensures ok { OnOk result (IsIndexOf self.old.settings.value after.now self.new) }
        ensures settings { OnOk result (self.new.settings.value ≡ self.old.settings.value) }
        ensures memory { IsOkUnless result memory_fault }
    {
        let behind = after.count() - (before.count() - range.end);
        self.take_entries(alloc, before, range)?;
        renumber_headings(&mut self.heading_of, range.end, behind);
        let first_id_of = self.put_entries(alloc, after, &(range.start..behind))?;
        self.first_id_of = splice_ids(
            alloc,
            self.first_id_of.as_slice(),
            range,
            first_id_of.as_slice(),
        )?;
        Ok(())
    }

    // Whether it has the stamps as they are read by these settings and looked at in a profile.
    pub(crate) fn is_of(&self, settings: &Settings, profile: Profile) -> bool
        ensures settings { result ≡ true → self.now.settings.value ≡ settings.now }
        ensures profile { result ≡ true → self.now.profile ≡ profile }
    {
        self.profile == profile && self.settings.as_ref().is_same(settings)
    }

    // Whether so many ids lead to no stamp any more that it is better made anew.
    pub(crate) fn needs_rebuild(&self) -> bool {
        self.retired > MOST_RETIRED && self.retired > self.heading_of.len() / 2
    }

    // The first id of the stamps of the heading at a place.
    fn first_id(&self, place: usize) -> usize
        requires { place < length self.now.first_id_of.items }
        ensures value { result ≡ get_or self.now.first_id_of.items place 0 }
    {
        self.first_id_of[place] as usize
    }

    // Puts the stamps of the entries of an outline in a range in, under ids that were never given; for each entry the first of its
    // ids. Out of memory is the only refusal; then the index is of no use any more.
    fn put_entries(
        &mut self,
        alloc: Global,
        outline: &Outline,
        range: &Range<usize>,
    ) -> Result<Vec<u32>, Fault>
        requires unused_ids { AreFresh self.old }
        requires order { range.now.start ≤ range.now.end }
        requires within { range.now.end ≤ length outline.now }
        ensures ok { IfOk result (PutsIds outline.now range.now.start range.now.end self.old self.new) }
        ensures memory { IsOkUnless result memory_fault }
    {
        let settings = self.settings.clone()?;
        let mut own = Vec::new(alloc);
        let mut first_id_of = Vec::with_capacity(alloc, range.end - range.start)?;
        for place in range.start..range.end {
            write_active(&mut own, settings.as_ref(), outline.entry(place))?;
            let first = self.put_stamps(place, own.as_slice())?;
            first_id_of.push(first)?;
        }
        Ok(first_id_of)
    }

    // Takes the stamps of the entries of an outline in a range out. Out of memory is the only refusal; then the index is of no use
    // any more.
    fn take_entries(
        &mut self,
        alloc: Global,
        outline: &Outline,
        range: &Range<usize>,
    ) -> Result<(), Fault>
        requires is { IsIndexOf self.old.settings.value outline.now self.old }
        requires order { range.now.start ≤ range.now.end }
        requires within { range.now.end ≤ length outline.now }
        ensures ok { OnOk result (HaveTaken outline.now range.now.start range.now.end self.old self.new) }
        ensures memory { IsOkUnless result memory_fault }
    {
        let settings = self.settings.clone()?;
        let mut own = Vec::new(alloc);
        for place in range.start..range.end {
            write_active(&mut own, settings.as_ref(), outline.entry(place))?;
            let first = self.first_id(place);
            self.take_stamps(first, own.as_slice());
        }
        Ok(())
    }

    // Puts stamps of the heading at a place in, under ids that were never given; the first of these ids. Out of memory is the
    // only refusal; then the index is of no use any more.
    fn put_stamps(&mut self, place: usize, stamps: &[EntryStamp]) -> Result<u32, Fault>
        requires unused_ids { AreFresh self.old }
        ensures first { IfOk result (λ first. first ≡ length self.old.heading_of.items) }
        ensures ok { OnOk result (HasPut place stamps.now self.old self.new) }
        ensures memory { IsOkUnless result memory_fault }
    {
        let first = self.heading_of.len();
        if first >= MOST_IDS {
            return Err(Fault::Plain(Code::Memory));
        }
        for stamp in stamps {
            self.put_stamp(place, stamp)?;
        }
        Ok(first as u32)
    }

    // Puts a stamp of the heading at a place in, under an id that was never given.
    fn put_stamp(&mut self, place: usize, stamp: &EntryStamp) -> Result<(), Fault>
        requires unused_ids { AreFresh self.old }
        ensures ok { OnOk result (HasPut place (stamp.now ∷ []) self.old self.new) }
        ensures memory { IsOkUnless result memory_fault }
    {
        let id = self.heading_of.len();
        if id >= MOST_IDS {
            return Err(Fault::Plain(Code::Memory));
        }
        let id = id as u32;
        self.heading_of.push(place)?;
        if is_reminding(stamp) {
            self.reminding.put(&stamp.stamp, self.profile, id)
        } else {
            self.plain.put(&stamp.stamp, self.profile, id)
        }
    }

    // Takes stamps out, whose ids count up from a first one. It takes no memory.
    fn take_stamps(&mut self, first: usize, stamps: &[EntryStamp])
        requires at_most { first + length stamps.now ≤ 2 ^ 32 }
        ensures value { HasTaken first stamps.now self.old self.new }
    {
        self.retired = self.retired.saturating_add(stamps.len());
        for (ahead, stamp) in stamps.iter().enumerate() {
            let id = (first + ahead) as u32;
            if is_reminding(stamp) {
                self.reminding.take(id);
            } else {
                self.plain.take(id);
            }
        }
    }

    // An equal index, which later changes of this one don't reach.
    pub(crate) fn copy(&self) -> Result<StampIndex, Fault>
        ensures value { IfOk result (IsCopy self.now) }
        ensures memory { IsOkUnless result memory_fault }
    {
        Ok(StampIndex {
            settings: self.settings.clone()?,
            profile: self.profile,
            reminding: self.reminding.share()?,
            plain: self.plain.share()?,
            heading_of: self.heading_of.clone()?,
            first_id_of: self.first_id_of.clone()?,
            retired: self.retired,
        })
    }

    // The places of the headings that own a stamp near the days, ascending; each such stamp is examined, as the meter counts. Out
    // of memory is the only refusal, and then some may have been counted.
    pub(crate) fn near(
        &self,
        alloc: Global,
        meter: &mut Meter,
        asked: &NearQuery,
    ) -> Result<Vec<usize>, Fault>
        requires order { asked.now.from ≤ asked.now.to }
        requires profile { asked.now.profile ≡ self.now.profile }
        ensures value { IfOk result (λ places. HoldNearOf asked.now self.now places.items) }
        ensures once { IfOk result (λ places. IsStrictlySortedBy nat_cmp places.items) }
        ensures counts { OnOk result (CountsNearOf asked.now self.now meter.old meter.new) }
        ensures partial { OnErr result (Examines meter.old meter.new) }
        ensures memory { IsOkUnless result memory_fault }
    {
        let (from, to) = (asked.from, asked.to);
        let reminding = self.reminding.candidates(meter, from, to, asked.today)?;
        let plain = self.plain.ids_touching(meter, from, to)?;
        let mut places = Vec::new(alloc);
        add_headings(
            &mut places,
            self.heading_of.as_slice(),
            reminding.as_slice(),
        )?;
        add_headings(&mut places, self.heading_of.as_slice(), plain.as_slice())?;
        sort_once(&mut places);
        Ok(places)
    }
}

//! An outline with its stamps by days.
ghost use Rattle.std.specs.Prelude.{◌≡◌, ◌<◌, ◌≤◌, length, slice_set, IfOk, OnErr, OnOk, IsOkUnless};
ghost use Rattle.std.specs.List.{splice};
ghost use Rattle.std.specs.List.Sorted.{IsStrictlySortedBy};
ghost use Rattle.std.specs.Ordering.{nat_cmp};
ghost use Rattle.org_base.specs.Codes.{memory_fault};
ghost use Rattle.org_base.specs.Results.{Gives};
ghost use Rattle.org_stamp_index.specs.Held.{KeepsIndexOf};
ghost use Rattle.org_stamp_index.specs.Index.{IsCopy, IsIndexOf, IsReplaced};
ghost use Rattle.org_stamp_index.specs.Near.{CountsNear, HoldNear};
ghost use Rattle.org_index.specs.Ticks.{Examines};

use crate::index::StampIndex;
use crate::near_query::NearQuery;
use org_base::{Fault, Meter, Profile};
use org_entry::Entry;
use org_outline::{Entries, Outline};
use org_settings::Settings;
use std::alloc::Global;
use std::marker::Model;
use std::ops::Range;
use std::rc::Rc;

/// The entries of one text with the tree of their headings, seen as their list. Beside them it may keep their stamps by days,
/// which no answer shows.
#[derive(Debug, Drop)]
pub struct IndexedOutline {
    outline: Outline,
    index: Option<Rc<StampIndex>>,
}

impl Model for IndexedOutline {
    ghost use Rattle.std.specs.Prelude.{List};
    ghost use Rattle.org_stamp_index.specs.Held.{KeepsIndexOf};
    ghost use Rattle.org_entry.specs.declared.entry.Entry.{Entry};

    ghost Value = { List Entry };

    ghost view = { λ d. d.outline };

    ghost invariant = { λ d. KeepsIndexOf d.outline d.index };
}

impl IndexedOutline {
    /// An outline whose stamps aren't kept by days.
    pub fn new(outline: Outline) -> IndexedOutline
        ensures value { result ≡ outline }
    {
        IndexedOutline {
            outline,
            index: None,
        }
    }

    /// An equal one, at the cost of one count for each part, which later changes of this one don't reach.
    pub fn share(&self) -> Result<IndexedOutline, Fault>
        ensures value { Gives result self.now }
        ensures memory { IsOkUnless result memory_fault }
    {
        let outline = self.outline.share()?;
        let index = match &self.index {
            None => None,
            Some(index) => Some(index.clone()?),
        };
        Ok(IndexedOutline { outline, index })
    }

    /// The outline.
    pub fn outline(&self) -> &Outline
        ensures value { result.now ≡ self.now }
    {
        &self.outline
    }

    /// Whether [`IndexedOutline::set`] would make no pass over what is kept: nobody shares it, and both entries have one level.
    pub fn is_set_at_once(&self, place: usize, entry: &Entry) -> bool
        requires { place < length self.now }
    {
        let is_own = match &self.index {
            None => true,
            Some(index) => Rc::strong_count(index) == 1,
        };
        is_own && self.outline.is_set_at_once(place, entry)
    }

    /// Puts an entry, which others may hold too, in the place of the one at a place. Where both have one level it costs what the
    /// stamps of both cost; where what is kept of them differs and others share it, it is copied first. Out of memory is the only refusal, and
    /// leaves the entries as before.
    pub fn set(&mut self, alloc: Global, place: usize, entry: &Rc<Entry>) -> Result<(), Fault>
        requires { place < length self.old }
        ensures ok { OnOk result (self.new ≡ slice_set self.old place entry.now.value) }
        ensures err { OnErr result (self.new ≡ self.old) }
        ensures memory { IsOkUnless result memory_fault }
    {
        let index = match self.index.take() {
            None => None,
            Some(index) => self.index_with_entry(alloc, index, place, entry.as_ref()),
        };
        self.outline.set(place, entry)?;
        self.index = index;
        Ok(())
    }

    /// Puts entries in the place of those in a range. It takes a pass over the entries; of stamps that are kept by days it looks
    /// at those of the entries that go or come alone, unless others share them: then they are copied first. Out of memory is the
    /// only refusal, and leaves the entries as before.
    pub fn replace(
        &mut self,
        alloc: Global,
        range: &Range<usize>,
        entries: Entries,
    ) -> Result<(), Fault>
        requires order { range.now.start ≤ range.now.end }
        requires within { range.now.end ≤ length self.old }
        ensures ok { OnOk result (self.new ≡ splice self.old range.now.start range.now.end entries) }
        ensures err { OnErr result (self.new ≡ self.old) }
        ensures memory { IsOkUnless result memory_fault }
    {
        let before = self.outline.share()?;
        let index = self.index.take();
        if let Err(refused) = self.outline.replace(range.start..range.end, entries) {
            return Err(refused.fault());
        }
        self.index = index_with_range(alloc, index, &before, range, &self.outline);
        Ok(())
    }

    // The indexes with the stamps of an entry in the place of those of the one at a place; None where they are worn, or where
    // memory is refused.
    fn index_with_entry(
        &self,
        alloc: Global,
        index: Rc<StampIndex>,
        place: usize,
        entry: &Entry,
    ) -> Option<Rc<StampIndex>>
        requires is { IsIndexOf index.value.settings.value self.now index.value }
        requires within { place < length self.now }
        ensures value { KeepsIndexOf (slice_set self.now place entry.now) result }
    {
        if index.as_ref().needs_rebuild() {
            return None;
        }
        let before = self.outline.entry(place);
        if index.as_ref().keeps_alike(alloc, before, entry).ok()? {
            return Some(index);
        }
        let mut index = own_copy(index).ok()?;
        index.set(alloc, &self.outline, place, entry).ok()?;
        Rc::new(alloc, index).ok()
    }

    /// Keeps the stamps by days from now on, as they are read by settings and looked at in a profile. Where they are
    /// kept so already no entry is looked at; else all are.
    pub fn keep_index(
        &mut self,
        alloc: Global,
        settings: &Rc<Settings>,
        profile: Profile,
    ) -> Result<(), Fault>
        ensures value { self.new ≡ self.old }
        ensures memory { IsOkUnless result memory_fault }
    {
        if let Some(index) = &self.index
            && index.as_ref().is_of(settings.as_ref(), profile)
        {
            return Ok(());
        }
        let index = StampIndex::of(alloc, &self.outline, settings, profile)?;
        self.index = Some(Rc::new(alloc, index)?);
        Ok(())
    }

    // The places of the headings that own a stamp near the days, as it is read by settings, ascending; each such stamp is examined,
    // as the meter counts. Where the stamps aren't kept so by days, they are brought so for this call. Out of memory is the only
    // refusal, and then some may have been counted.
    pub(crate) fn near(
        &self,
        alloc: Global,
        meter: &mut Meter,
        settings: &Rc<Settings>,
        asked: &NearQuery,
    ) -> Result<Vec<usize>, Fault>
        requires order { asked.now.from ≤ asked.now.to }
        ensures value { IfOk result (λ found. HoldNear asked.now settings.now.value self.now found.items) }
        ensures once { IfOk result (λ places. IsStrictlySortedBy nat_cmp places.items) }
        ensures counts { OnOk result (CountsNear asked.now settings.now.value self.now meter.old meter.new) }
        ensures partial { OnErr result (Examines meter.old meter.new) }
        ensures memory { IsOkUnless result memory_fault }
    {
        let profile = asked.profile;
        if let Some(index) = &self.index
            && index.as_ref().is_of(settings.as_ref(), profile)
        {
            return index.as_ref().near(alloc, meter, asked);
        }
        let index = StampIndex::of(alloc, &self.outline, settings, profile)?;
        index.near(alloc, meter, asked)
    }
}

// The indexes with the stamps of an outline in the place of those of an earlier one, whose entries in a range were replaced; None
// where there are none, where they are worn, or where memory is refused.
fn index_with_range(
    alloc: Global,
    index: Option<Rc<StampIndex>>,
    before: &Outline,
    range: &Range<usize>,
    after: &Outline,
) -> Option<Rc<StampIndex>>
    requires keeps { KeepsIndexOf before.now index }
    requires order { range.now.start ≤ range.now.end }
    requires within { range.now.end ≤ length before.now }
    requires change { IsReplaced before.now range.now.start range.now.end after.now }
    ensures value { KeepsIndexOf after.now result }
{
    let index = index?;
    if index.as_ref().needs_rebuild() {
        return None;
    }
    let mut index = own_copy(index).ok()?;
    index.replace(alloc, before, range, after).ok()?;
    Rc::new(alloc, index).ok()
}

// The indexes alone: where others share them, a copy.
fn own_copy(index: Rc<StampIndex>) -> Result<StampIndex, Fault>
    ensures value { IfOk result (IsCopy index.value) }
{
    match Rc::try_unwrap(index) {
        Ok(index) => Ok(index),
        Err(shared) => shared.as_ref().copy(),
    }
}

//! The outline of sections, kept beside them while they change.
ghost use Rattle.std.specs.Prelude.{◌≡◌, ◌+◌, ◌<◌, ◌≤◌, length, IfSome, IsOkUnless, None, Some};
ghost use Rattle.std.specs.List.{count_by};
ghost use Rattle.org_base.specs.Codes.{memory_fault};
ghost use Rattle.org_base.specs.Results.{Gives};
ghost use Rattle.org_store.specs.Sections.{entries_in, is_pending};
ghost use Rattle.org_store.specs.CachedOutline.{Fits, IsWithStaleRange, IsCachedPlace, Shows, Stands, StandsWith, widened};

use crate::outline::{entries_between, outline_in};
use crate::section::Section;
use org_base::Fault;
use org_sequence::Sequence;
use org_stamp_index::IndexedOutline;
use std::alloc::{AllocError, Global};

// An outline that stands beside sections: its entries are what those of them say that were read.
#[derive(Debug, Drop)]
pub(crate) struct CachedOutline {
    outline: IndexedOutline,
    // Where the entries and the sections differ, if they do.
    stale: Option<StaleRange>,
}

// A stretch where entries and sections differ. Before it the first sections, so many, have as many of the first entries, and after
// it the last ones as many of the last.
#[derive(Clone, Copy, Debug)]
pub(crate) struct StaleRange {
    valid_front: usize,
    valid_back: usize,
}

impl CachedOutline {
    // An outline that has an entry for each section.
    pub(crate) fn of(outline: IndexedOutline) -> CachedOutline
        ensures outline { result.outline ≡ outline }
        ensures stale { result.stale ≡ None }
    {
        CachedOutline {
            outline,
            stale: None,
        }
    }

    // An equal one, which later changes of this one don't reach.
    pub(crate) fn share(&self) -> Result<CachedOutline, AllocError>
        ensures value { Gives result self.now }
    {
        match self.outline.share() {
            Ok(outline) => Ok(CachedOutline {
                outline,
                stale: self.stale,
            }),
            Err(_) => Err(AllocError),
        }
    }

    // The same, where nothing is known any more of what stands after the first sections, so many, and before the last ones.
    pub(crate) fn with_stale_range(self, valid_front: usize, valid_back: usize) -> CachedOutline
        ensures outline { result.outline ≡ self.outline }
        ensures stale { result.stale ≡ Some (widened valid_front valid_back self.stale) }
    {
        let stale = match self.stale {
            None => StaleRange {
                valid_front,
                valid_back,
            },
            Some(stale) => StaleRange {
                valid_front: stale.valid_front.min(valid_front),
                valid_back: stale.valid_back.min(valid_back),
            },
        };
        CachedOutline {
            outline: self.outline,
            stale: Some(stale),
        }
    }

    // The same with what the section at a place says, of so many sections. Where that would take a pass over all entries, the stale range
    // reaches to it from now on: who asks next closes it then, and who only edits pays for none. None where memory is refused.
    pub(crate) fn put(
        self,
        alloc: Global,
        section: &Section,
        place: usize,
        count: usize,
    ) -> Option<CachedOutline>
        requires within { place < count }
        requires fits { Fits self.stale count (length self.outline) }
        ensures value { IfSome result (StandsWith self section.now place count) }
    {
        let Some(at) = self.place_of(place, count) else {
            return Some(self);
        };
        if !section.is_put_at_once(&self.outline, at) {
            return Some(self.with_stale_range(place, count - place - 1));
        }
        let mut outline = self.outline;
        match section.put_entry(alloc, &mut outline, at) {
            Ok(()) => Some(CachedOutline {
                outline,
                stale: self.stale,
            }),
            Err(_) => None,
        }
    }

    // The place of the entry of the section at a place, of so many sections; None in the stale range.
    fn place_of(&self, place: usize, count: usize) -> Option<usize>
        requires within { place < count }
        requires fits { Fits self.now.stale count (length self.now.outline) }
        ensures value { IsCachedPlace self.now.stale place count (length self.now.outline) result }
    {
        let Some(stale) = self.stale else {
            return Some(place);
        };
        if place < stale.valid_front {
            return Some(place);
        }
        let left = count - place;
        if left > stale.valid_back {
            return None;
        }
        Some(self.outline.outline().count() - left)
    }

    // The outline of all sections. Where there is a stale range, it takes a pass over the entries; where that is wider
    // than all else, the outline is made anew.
    fn refresh(self, alloc: Global, list: &Sequence<Section>) -> Result<IndexedOutline, Fault>
        requires stands { Stands self.stale list.now self.outline }
        requires read { count_by is_pending list.now ≡ 0 }
        ensures value { Gives result (entries_in list.now) }
        ensures memory { IsOkUnless result memory_fault }
    {
        let mut outline = self.outline;
        let Some(stale) = self.stale else {
            return Ok(outline);
        };
        let entries_end = outline.outline().count() - stale.valid_back;
        let sections_end = list.len() as usize - stale.valid_back;
        if stale.is_wide(entries_end.max(sections_end)) {
            return outline_in(alloc, list);
        }
        let entries = entries_between(alloc, list, stale.valid_front, sections_end)?;
        outline.replace(alloc, &(stale.valid_front..entries_end), entries)?;
        Ok(outline)
    }
}

impl StaleRange {
    // Whether it has more entries or sections than stand before it and after it, where it ends before a place.
    fn is_wide(&self, end: usize) -> bool
        requires { self.now.valid_front ≤ end }
    {
        end - self.valid_front > self.valid_front.saturating_add(self.valid_back)
    }
}

// A share of an outline that stands beside sections, where there is one.
pub(crate) fn share_cached(
    cached: &Option<CachedOutline>,
) -> Result<Option<CachedOutline>, AllocError>
    ensures value { Gives result cached.now }
{
    match cached {
        None => Ok(None),
        Some(cached) => Ok(Some(cached.share()?)),
    }
}

// What stands beside sections of which others stand now after the first ones, so many, and before the last ones.
pub(crate) fn with_stale_range(
    cached: Option<CachedOutline>,
    valid_front: usize,
    valid_back: usize,
) -> Option<CachedOutline>
    ensures value { IsWithStaleRange valid_front valid_back cached result }
{
    Some(cached?.with_stale_range(valid_front, valid_back))
}

// The outline of sections, of which all were read: what stands beside them, or one that is made anew.
pub(crate) fn refresh(
    alloc: Global,
    cached: Option<CachedOutline>,
    list: &Sequence<Section>,
) -> Result<IndexedOutline, Fault>
    requires shows { Shows cached list.now }
    requires read { count_by is_pending list.now ≡ 0 }
    ensures value { Gives result (entries_in list.now) }
    ensures memory { IsOkUnless result memory_fault }
{
    match cached {
        None => outline_in(alloc, list),
        Some(cached) => cached.refresh(alloc, list),
    }
}

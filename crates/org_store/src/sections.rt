//! The sections of a file with their outline.
ghost use Rattle.std.specs.Prelude.{◌≡◌, ◌+◌, ◌^◌, ◌<◌, ◌∷◌, [], length, OnOk, OnErr, IsOkUnless};
ghost use Rattle.std.specs.List.{count_by, splice, sum_by};
ghost use Rattle.org_base.specs.Codes.{memory_fault};
ghost use Rattle.org_base.specs.Results.{Gives};
ghost use Rattle.org_store.specs.Sections.{entries_in, is_pending, section_len};
ghost use Rattle.org_store.specs.CachedOutline.{Follows};

use crate::cached_outline::{CachedOutline, refresh, share_cached, with_stale_range};
use crate::section::Section;
use crate::touched::NewSections;
use org_base::{Fault, Profile};
use org_class::Settings;
use org_sequence::Sequence;
use org_stamp_index::IndexedOutline;
use std::alloc::{AllocError, Global};
use std::marker::Model;
use std::rc::Rc;

// What is kept of the sections of a file, seen as their list. Where an outline stands beside them, it has an entry for each of
// them, but for a stale range where there is one: of those that were read what they say, of the others what stood there before.
#[derive(Debug, Drop)]
pub(crate) struct Sections {
    list: Sequence<Section>,
    cached: Option<CachedOutline>,
}

impl Model for Sections {
    ghost use Rattle.std.specs.Prelude.{List};
    ghost use Rattle.org_store.specs.Sections.{SectionView};
    ghost use Rattle.org_store.specs.CachedOutline.{Shows};

    ghost Value = { List SectionView };

    ghost view = { λ s. s.list };

    ghost invariant = { λ s. Shows s.cached s.list };
}

impl Sections {
    // These sections, without an outline.
    pub(crate) fn new(list: Sequence<Section>) -> Sections
        ensures value { result ≡ list }
    {
        Sections { list, cached: None }
    }

    // Their list.
    pub(crate) fn list(&self) -> &Sequence<Section>
        ensures value { result.now ≡ self.now }
    {
        &self.list
    }

    // The same sections, which share all of it.
    pub(crate) fn share(&self) -> Result<Sections, AllocError>
        ensures value { Gives result self.now }
    {
        let list = self.list.share()?;
        let cached = share_cached(&self.cached)?;
        Ok(Sections { list, cached })
    }

    // The same sections, to which the outline goes over.
    pub(crate) fn take_cache(&mut self) -> Result<Sections, AllocError>
        ensures value { Gives result self.old }
        ensures same { self.new ≡ self.old }
    {
        let list = self.list.share()?;
        Ok(Sections {
            list,
            cached: self.cached.take(),
        })
    }

    // Takes the sections of a changed text over. Where their number stays the outline does too; else it has a stale range there, which
    // the next question closes.
    pub(crate) fn follow(&mut self, changed: NewSections)
        requires follows { Follows self.old changed.first changed.end changed.list }
        ensures value { self.new ≡ changed.list }
    {
        let NewSections { list, first, end } = changed;
        let stays = list.len() == self.list.len();
        let valid_back = self.list.len() - end;
        self.list = list;
        if !stays {
            self.cached = with_stale_range(self.cached.take(), first as usize, valid_back as usize);
        }
    }

    // Puts a section in the place of another, and what it says into the outline; where memory is refused for that alone,
    // the outline is forgotten. Else out of memory leaves the sections as before.
    pub(crate) fn set(
        &mut self,
        alloc: Global,
        place: u32,
        section: Section,
    ) -> Result<(), AllocError>
        requires within { place < length self.old }
        requires size_fits { sum_by section_len self.old + section_len section < 2 ^ 32 }
        ensures ok { OnOk result (self.new ≡ splice self.old place (place + 1) (section ∷ [])) }
        ensures err { OnErr result (self.new ≡ self.old) }
    {
        self.list.set(place, section)?;
        let Some(cached) = self.cached.take() else {
            return Ok(());
        };
        let count = self.list.len() as usize;
        self.cached = cached.put(alloc, self.list.get(place), place as usize, count);
        Ok(())
    }

    // What they say, shared: the outline, which is made first where there is none, and whose stale range is closed
    // first where there is one.
    pub(crate) fn outline(&mut self, alloc: Global) -> Result<IndexedOutline, Fault>
        requires read { count_by is_pending self.old ≡ 0 }
        ensures value { Gives result (entries_in self.old) }
        ensures same { self.new ≡ self.old }
        ensures memory { IsOkUnless result memory_fault }
    {
        let outline = refresh(alloc, self.cached.take(), &self.list)?;
        let share = outline.share()?;
        self.cached = Some(CachedOutline::of(outline));
        Ok(share)
    }

    // Keeps the stamps of what they say by days, as they are read by settings and looked at in a profile.
    pub(crate) fn keep_index(
        &mut self,
        alloc: Global,
        settings: &Rc<Settings>,
        profile: Profile,
    ) -> Result<(), Fault>
        requires read { count_by is_pending self.old ≡ 0 }
        ensures same { self.new ≡ self.old }
        ensures memory { IsOkUnless result memory_fault }
    {
        let mut outline = self.outline(alloc)?;
        outline.keep_index(alloc, settings, profile)?;
        self.cached = Some(CachedOutline::of(outline));
        Ok(())
    }
}

//! The sections that a change of a text touches.
ghost use Rattle.std.specs.Prelude.{◌≡◌, ◌+◌, ◌≤◌, length, map, IfOk, OnOk, OnErr, IsOkUnless};
ghost use Rattle.std.specs.List.{sum_by};
ghost use Rattle.org_base.specs.Codes.{memory_fault};
ghost use Rattle.org_base.specs.Results.{Gives};
ghost use Rattle.org_class.specs.Changes.{ended_before, begun_by, first_touched_by};
ghost use Rattle.org_store.specs.Change.{AreEdited, LiesIn, edited, edited_end, edited_list, first_edited};
ghost use Rattle.org_store.specs.Counts.{NewClassified, FewNewClassified};
ghost use Rattle.org_store.specs.File.{AreOf};
ghost use Rattle.org_store.specs.Sections.{section_len};
ghost use Rattle.org_store.specs.CachedOutline.{Follows};

use crate::change::Change;
use crate::classify::classify_part;
use crate::section::Section;
use crate::sectioned_text::SectionedText;
use org_base::{Fault, Meter, Span};
use org_class::has_heading_at;
use org_sequence::Sequence;
use org_text::Text;
use std::alloc::Global;

// How many sections end before a place.
#[tactic(auto, using(crate::proofs::PlaceLemmas::ended_item, crate::proofs::PlaceLemmas::ended_none))]
fn ended_before(list: &Sequence<Section>, at: u32) -> u32
    requires within { at ≤ sum_by section_len list.now }
    ensures value { result ≡ ended_before at (map section_len list.now) }
{
    if at == 0 {
        return 0;
    }
    let (place, _) = list.find(at - 1);
    place
}

// How many sections begin at a place or before it.
#[tactic(auto, using(crate::proofs::PlaceLemmas::begun_item, crate::proofs::PlaceLemmas::begun_all))]
fn begun_by(list: &Sequence<Section>, at: u32) -> u32
    requires within { at ≤ sum_by section_len list.now }
    ensures value { result ≡ begun_by at (map section_len list.now) }
{
    if at >= list.size() {
        return list.len();
    }
    let (place, _) = list.find(at);
    place + 1
}

// The first section that a change touches.
fn first_touched<T: Text>(list: &Sequence<Section>, new: &T, at: u32) -> u32
    requires within { at ≤ sum_by section_len list.now }
    requires there { at ≤ length (T.content new.now) }
    ensures value { result ≡ first_touched_by (map section_len list.now) (T.content new.now) at }
{
    let first = ended_before(list, at);
    if first == 0 {
        return 0;
    }
    let start = list.size_before(first);
    if has_heading_at(new, start as usize) {
        return first;
    }
    first - 1
}

// The touched sections, from `first` to before `end`, and the part of the new text in their place.
#[derive(Clone, Copy)]
pub(crate) struct TouchedSections {
    pub(crate) first: u32,
    pub(crate) end: u32,
    pub(crate) part: Span,
}

// What a change of a text touches; the sections of the new text's part stand in the place of the touched ones.
pub(crate) fn touched_sections<T: Text>(
    old: &SectionedText<'_, T>,
    new: &T,
    change: Change<'_>,
) -> TouchedSections
    requires sections_of_text { AreOf (T.content old.now.text.now) old.now.list.now }
    requires within { LiesIn (T.content old.now.text.now) change }
    requires changed { T.content new.now ≡ edited (T.content old.now.text.now) change }
    ensures first { result.first ≡ first_edited (T.content old.now.text.now) change.entry }
    ensures end { result.end ≡ edited_end (T.content old.now.text.now) change.entry }
    ensures order { result.first ≤ result.end }
    ensures last { result.end ≤ length old.now.list.now }
    ensures inside { result.part.at + result.part.len ≤ length (T.content new.now) }
    ensures part { AreEdited (T.content old.now.text.now) change.entry (T.content new.now) result.part }
{
    // For the proof alone: their contracts say that the texts are not too long.
    let _old = old.text.len();
    let _new = new.len();
    let (at, del) = (change.at as u32, change.del as u32);
    let first = first_touched(old.list, new, at);
    let end = begun_by(old.list, at + del);
    let from = old.list.size_before(first);
    let stop = old.list.size_before(end);
    let to = stop - del + change.ins.len() as u32;
    TouchedSections {
        first,
        end,
        part: Span {
            at: from,
            len: to - from,
        },
    }
}

// The sections of a text that is another one with a change. Before the change, others stood from `first` to before `end` in the
// place of the new ones.
#[derive(Debug, Drop)]
pub(crate) struct NewSections {
    pub(crate) list: Sequence<Section>,
    pub(crate) first: u32,
    pub(crate) end: u32,
}

// The sections of a text that is another one with a change: those that the change touches are classified anew, each once as
// the meter counts, and the others are as before. Out of memory is the only refusal; then some of them may have been
// counted.
pub(crate) fn changed_list<T: Text>(
    alloc: Global,
    meter: &mut Meter,
    old: &SectionedText<'_, T>,
    new: &T,
    change: Change<'_>,
) -> Result<NewSections, Fault>
    requires sections_of_text { AreOf (T.content old.now.text.now) old.now.list.now }
    requires within { LiesIn (T.content old.now.text.now) change }
    requires changed { T.content new.now ≡ edited (T.content old.now.text.now) change }
    ensures value { IfOk result (λ c. c.list ≡ edited_list old.now.list.now (T.content old.now.text.now) change.entry) }
    ensures follows { IfOk result (λ c. Follows old.now.list.now c.first c.end c.list) }
    ensures counts { OnOk result (NewClassified (T.content old.now.text.now) change.entry meter.old meter.new) }
    ensures partial { OnErr result (FewNewClassified (T.content old.now.text.now) change.entry meter.old meter.new) }
    ensures memory { IsOkUnless result memory_fault }
{
    // For the proof alone: their contracts say that the texts are not too long.
    let _old = old.text.len();
    let _new = new.len();
    let touched = touched_sections(old, new, change);
    let fresh = classify_part(alloc, meter, new, touched.part)?;
    let mut list = old.list.share()?;
    list.replace(touched.first, touched.end, fresh.as_slice())?;
    Ok(NewSections {
        list,
        first: touched.first,
        end: touched.end,
    })
}

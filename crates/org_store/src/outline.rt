//! The outline of sections.
ghost use Rattle.std.specs.Prelude.{◌≡◌, ◌≤◌, length, IsOkUnless};
ghost use Rattle.std.specs.List.{between};
ghost use Rattle.org_base.specs.Codes.{memory_fault};
ghost use Rattle.org_base.specs.Results.{Gives};
ghost use Rattle.org_store.specs.Sections.{entries_in};

use crate::section::Section;
use org_base::Fault;
use org_outline::{Entries, Outline};
use org_sequence::Sequence;
use org_stamp_index::IndexedOutline;
use std::alloc::Global;

// The outline of those sections that were read, which shares their entries.
pub(crate) fn outline_in(alloc: Global, list: &Sequence<Section>) -> Result<IndexedOutline, Fault>
    ensures value { Gives result (entries_in list.now) }
    ensures memory { IsOkUnless result memory_fault }
{
    let entries = shared_entries(alloc, list)?;
    let outline = Outline::of(alloc, entries)?;
    Ok(IndexedOutline::new(outline))
}

// The entries of those sections that were read, shared.
fn shared_entries(alloc: Global, list: &Sequence<Section>) -> Result<Entries, Fault>
    ensures value { Gives result (entries_in list.now) }
    ensures memory { IsOkUnless result memory_fault }
{
    let mut entries = Entries::with_room(alloc, list.len() as usize)?;
    for section in list {
        section.push_entry(&mut entries)?;
    }
    Ok(entries)
}

// The entries of those sections from one place up to another that were read, shared.
pub(crate) fn entries_between(
    alloc: Global,
    list: &Sequence<Section>,
    start: usize,
    end: usize,
) -> Result<Entries, Fault>
    requires order { start ≤ end }
    requires within { end ≤ length list.now }
    ensures value { Gives result (entries_in (between start end list.now)) }
    ensures memory { IsOkUnless result memory_fault }
{
    // For the proof alone: places are numbers of 32 bits.
    let _count = list.len();
    let mut entries = Entries::with_room(alloc, end - start)?;
    for place in start..end {
        list.get(place as u32).push_entry(&mut entries)?;
    }
    Ok(entries)
}

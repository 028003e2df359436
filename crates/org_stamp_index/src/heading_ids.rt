//! The places of headings by the ids of their stamps.
ghost use Rattle.std.specs.Prelude.{◌≡◌, ◌≤◌, length, map, OnOk};
ghost use Rattle.std.specs.List.{splice};
ghost use Rattle.std.specs.List.Sorted.{IsStrictlySortedBy};
ghost use Rattle.std.specs.Ordering.{nat_cmp};
ghost use Rattle.org_base.specs.Results.{GivesItems};
ghost use Rattle.org_stamp_index.specs.Index.{moved};
ghost use Rattle.org_stamp_index.specs.Near.{AddHeadings, AddsHeading, KeepPlaces};

use std::alloc::{AllocError, Global};
use std::ops::Range;

// The places of these ids, with those that are there already.
pub(crate) fn add_headings(
    places: &mut Vec<usize>,
    heading_of: &[usize],
    ids: &[u32],
) -> Result<(), AllocError>
    ensures keeps { OnOk result (KeepPlaces places.old.items places.new.items) }
    ensures adds { OnOk result (AddHeadings heading_of.now ids.now places.new.items) }
{
    for id in ids {
        add_heading(places, heading_of, *id)?;
    }
    Ok(())
}

// The place of an id, if it has one, with those that are there already.
fn add_heading(places: &mut Vec<usize>, heading_of: &[usize], id: u32) -> Result<(), AllocError>
    ensures keeps { OnOk result (KeepPlaces places.old.items places.new.items) }
    ensures adds { OnOk result (AddsHeading heading_of.now id places.new.items) }
{
    if let Some(heading) = heading_of.get(id as usize) {
        places.push(*heading)?;
    }
    Ok(())
}

// Brings places into their order; of equal ones one stays.
pub(crate) fn sort_once(places: &mut Vec<usize>)
    ensures keeps { KeepPlaces places.old.items places.new.items }
    ensures once { IsStrictlySortedBy nat_cmp places.new.items }
{
    places.sort_unstable();
    places.dedup();
}

// Gives places their new numbers, where what stands at an end and after it begins at another place.
pub(crate) fn renumber_headings(heading_of: &mut [usize], end: usize, behind: usize)
    ensures value { heading_of.new ≡ map (moved end behind) heading_of.old }
{
    for heading in heading_of.iter_mut() {
        *heading = renumbered_heading(*heading, end, behind);
    }
}

// The new number of one place.
fn renumbered_heading(heading: usize, end: usize, behind: usize) -> usize
    ensures value { result ≡ moved end behind heading }
{
    if heading < end {
        heading
    } else {
        (heading - end).saturating_add(behind)
    }
}

// Ids with others in the place of those in a range.
pub(crate) fn splice_ids(
    alloc: Global,
    ids: &[u32],
    range: &Range<usize>,
    plain: &[u32],
) -> Result<Vec<u32>, AllocError>
    requires order { range.now.start ≤ range.now.end }
    requires within { range.now.end ≤ length ids.now }
    ensures value { GivesItems result (splice ids.now range.now.start range.now.end plain.now) }
{
    let mut all = Vec::new(alloc);
    all.extend_from_slice(&ids[..range.start])?;
    all.extend_from_slice(plain)?;
    all.extend_from_slice(&ids[range.end..])?;
    Ok(all)
}

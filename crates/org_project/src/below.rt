//! How many headings below a heading count.
ghost use Rattle.std.specs.Prelude.{◌≡◌, ◌<◌, length};
ghost use Rattle.org_base.specs.Results.{GivesItems};
ghost use Rattle.org_project.specs.Below.{all_below, all_stuck, counted_before, one};
ghost use Rattle.org_sum.specs.Sums.{own, own_at};

use org_entry::Entry;
use org_outline::Outline;
use std::alloc::{AllocError, Global};

/// Of each entry, how many of the headings below it count: those of which it is an ancestor.
pub fn tasks_below(
    alloc: Global,
    outline: &Outline,
    counted: &[bool],
) -> Result<Vec<usize>, AllocError>
    requires count { length counted.now ≡ length outline.now }
    ensures value { GivesItems result (all_below outline.now counted.now) }
{
    let before = counted_before(alloc, outline, counted)?;
    let ends = outline.ends(alloc)?;
    let mut below = Vec::new(alloc);
    for i in 0..outline.count() {
        below.push(before[ends[i]] - before[i + 1])?;
    }
    Ok(below)
}

/// How many headings before each place count, and at the end how many in all.
pub(crate) fn counted_before(
    alloc: Global,
    outline: &Outline,
    counted: &[bool],
) -> Result<Vec<usize>, AllocError>
    requires count { length counted.now ≡ length outline.now }
    ensures value { GivesItems result (counted_before outline.now counted.now) }
{
    let mut before = Vec::new(alloc);
    let mut sum = 0;
    for i in 0..outline.count() {
        before.push(sum)?;
        sum += one_at(outline, counted, i);
    }
    before.push(sum)?;
    Ok(before)
}

// One where the entry at a place is a heading that counts.
fn one_at(outline: &Outline, counted: &[bool], place: usize) -> usize
    requires count { length counted.now ≡ length outline.now }
    requires within { place < length outline.now }
    ensures value { result ≡ own_at one outline.now counted.now place }
{
    one_of(outline.entry(place), counted[place])
}

fn one_of(entry: &Entry, counts: bool) -> usize
    ensures value { result ≡ own one entry.now counts }
{
    if counts && entry.head.is_some() { 1 } else { 0 }
}

/// Of each entry, whether it is stuck: neither itself nor a heading below it keeps it going (Org manual 9.6, "Stuck projects").
pub fn stuck(alloc: Global, outline: &Outline, moving: &[bool]) -> Result<Vec<bool>, AllocError>
    requires count { length moving.now ≡ length outline.now }
    ensures value { GivesItems result (all_stuck outline.now moving.now) }
{
    let before = counted_before(alloc, outline, moving)?;
    let ends = outline.ends(alloc)?;
    let mut stuck = Vec::new(alloc);
    for i in 0..outline.count() {
        stuck.push(before[ends[i]] == before[i])?;
    }
    Ok(stuck)
}

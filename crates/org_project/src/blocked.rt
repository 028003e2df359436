//! Tasks that can't be done yet.
ghost use Rattle.std.specs.List.{range_with_len};
ghost use Rattle.std.specs.Prelude.{◌≡◌, ◌<◌, ◌≤◌, length, map};
ghost use Rattle.org_outline.specs.Places.{behind};
ghost use Rattle.org_base.specs.Results.{GivesItems};
ghost use Rattle.org_project.specs.Below.{counted_before};
ghost use Rattle.org_project.specs.Topmost.{of_parent};
ghost use Rattle.org_project.specs.Blocked.{all_blocks, all_waiting, block_by, block_of, count_at, is_ahead, is_more, waits_by, waits_in};

use crate::below::{counted_before, tasks_below};
use crate::outermost::{both_at, flag_at};
use org_outline::Outline;
use std::alloc::{AllocError, Global};

/// Of each entry of an outline, whether its keyword is an open one, and whether the headings below it are done in order.
#[derive(Clone, Copy, Debug)]
pub struct Tasks<'a> {
    pub undone: &'a [bool],
    pub ordered: &'a [bool],
}

/// Why a task is blocked.
#[derive(Clone, Copy, Debug, PartialEq, Eq)]
pub enum Block {
    /// A heading below it is open.
    Below,
    /// It waits for headings before it.
    Before,
}

/// Of each entry, why it is blocked as a task (Org manual 9.6, "TODO dependencies"), if it is one and is blocked: a heading below it
/// is open, or it waits. A heading waits where its parent is ordered and an open heading stands between the two, or its parent is
/// open and waits itself.
pub fn blocks(
    alloc: Global,
    outline: &Outline,
    tasks: &Tasks<'_>,
) -> Result<Vec<Option<Block>>, AllocError>
    requires count { length tasks.now.undone.now ≡ length outline.now }
    ensures value { GivesItems result (all_blocks outline.now tasks.now) }
{
    let below = tasks_below(alloc, outline, tasks.undone)?;
    let waiting = waiting(alloc, outline, tasks)?;
    let mut blocks = Vec::new(alloc);
    for i in 0..outline.count() {
        blocks.push(block_at(tasks.undone, below.as_slice(), waiting.as_slice(), i))?;
    }
    Ok(blocks)
}

// Why the entry at a place is blocked, by what is known of all.
fn block_at(undone: &[bool], below: &[usize], waiting: &[bool], place: usize) -> Option<Block>
    ensures value { result ≡ block_by undone.now below.now waiting.now place }
{
    block_of(
        flag_at(undone, place),
        count_at(below, place),
        flag_at(waiting, place),
    )
}

// Why an entry is blocked: whether it is open, how many below it are, and whether it waits.
fn block_of(is_open: bool, below: usize, waits: bool) -> Option<Block>
    ensures value { result ≡ block_of is_open below waits }
{
    if !is_open {
        None
    } else if below > 0 {
        Some(Block::Below)
    } else if waits {
        Some(Block::Before)
    } else {
        None
    }
}

// Of each entry, whether it waits for others.
fn waiting(alloc: Global, outline: &Outline, tasks: &Tasks<'_>) -> Result<Vec<bool>, AllocError>
    requires count { length tasks.now.undone.now ≡ length outline.now }
    ensures value { GivesItems result (all_waiting outline.now tasks.now) }
{
    let before = counted_before(alloc, outline, tasks.undone)?;
    let mut waiting = Vec::new(alloc);
    for i in 0..outline.count() {
        waiting.push(waits(outline, tasks, before.as_slice(), waiting.as_slice(), i))?;
    }
    Ok(waiting)
}

// Whether an entry waits for others, where this is known of those before it, and how many are open before each.
fn waits(
    outline: &Outline,
    tasks: &Tasks<'_>,
    before: &[usize],
    waiting: &[bool],
    place: usize,
) -> bool
    requires within { place < length outline.now }
    requires before { before.now ≡ counted_before outline.now tasks.now.undone.now }
    requires known { waiting.now ≡ map (waits_in outline.now tasks.now) (range_with_len 0 place) }
    ensures value { result ≡ waits_in outline.now tasks.now place }
{
    waits_below(tasks, before, waiting, outline.parent(place), place)
}

// Whether an entry waits that has this parent, if it has one.
fn waits_below(
    tasks: &Tasks<'_>,
    before: &[usize],
    waiting: &[bool],
    parent: Option<usize>,
    place: usize,
) -> bool
    requires earlier { behind parent ≤ place }
    ensures value { result ≡ of_parent parent (waits_by tasks.now before.now waiting.now place) }
{
    match parent {
        Some(parent) => {
            is_ahead(tasks.ordered, before, parent, place) || both_at(tasks.undone, waiting, parent)
        }
        None => false,
    }
}

// Whether a parent is ordered, and a heading between it and an entry is open.
fn is_ahead(ordered: &[bool], before: &[usize], parent: usize, place: usize) -> bool
    requires earlier { parent < place }
    ensures value { result ≡ is_ahead ordered.now before.now parent place }
{
    flag_at(ordered, parent) && is_more(before, parent + 1, place)
}

// Whether a count at one place is less than that at another.
fn is_more(counts: &[usize], one: usize, other: usize) -> bool
    ensures value { result ≡ is_more counts.now one other }
{
    count_at(counts, one) < count_at(counts, other)
}

fn count_at(counts: &[usize], place: usize) -> usize
    ensures value { result ≡ count_at counts.now place }
{
    match counts.get(place) {
        Some(count) => *count,
        None => 0,
    }
}

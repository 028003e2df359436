//! The levels of entries, and by them parents and subtree ends. Those of all entries are found in one pass that jumps along
//! what is known already, so that it takes time linear in the entries.
ghost use Rattle.std.specs.Prelude.{◌≡◌, ℕ, ◌<◌, length, map, slice_index};
ghost use Rattle.org_base.specs.Results.{GivesItems};
ghost use Rattle.org_outline.specs.Levels.{level_of, levels};
ghost use Rattle.org_outline.specs.Parents.{up_to_parent, all_up_to_parent};
ghost use Rattle.org_outline.specs.Tree.{all_ends, end_of, ends, level_at, AreEndsBehind};

use org_entry::Entry;
use std::alloc::{AllocError, Global};
use std::marker::Model;
use std::rc::Rc;

// The level of an entry; None where it is no heading.
pub(crate) fn level_of(entry: &Entry) -> Option<u32>
    ensures value { result ≡ level_of entry.now }
{
    let head = entry.head.as_ref()?;
    Some(head.level)
}

// The levels of entries, read from their heads; seen as their list.
#[derive(Drop)]
pub(crate) struct Levels<'a> {
    list: &'a [Rc<Entry>],
}

impl<'a> Model for Levels<'a> {
    ghost use Rattle.std.specs.Prelude.{ℕ, List, Option, map};
    ghost use Rattle.org_outline.specs.Levels.{levels};

    ghost Value = { List (Option ℕ) };

    ghost view = { λ l. levels (map (λ e. e.value) l.list.now) };
}

impl<'a> Levels<'a> {
    // Those of these entries.
    pub(crate) fn of(list: &'a [Rc<Entry>]) -> Levels<'a>
        ensures value { result ≡ levels (map (λ e. e.value) list.now) }
    {
        Levels { list }
    }

    // How many there are.
    pub(crate) fn count(&self) -> usize
        ensures value { result ≡ length self.now }
    {
        self.list.len()
    }

    // The one at a place.
    #[tactic(auto, using(crate::proofs::ByPlace::within_levels))]
    pub(crate) fn get(&self, place: usize) -> Option<u32>
        requires within { place < length self.now }
        ensures value { result ≡ level_at self.now place }
    {
        level_in(self.list, place)
    }

    // Where the subtree of an entry ends, by a pass over it.
    pub(crate) fn end_of(&self, place: usize) -> usize
        requires within { place < length self.now }
        ensures value { result ≡ end_of self.now place }
    {
        let count = self.count();
        let level = self.get(place);
        let mut end = place + 1;
        while end < count && !ends_subtree(level, self.get(end)) {
            end += 1;
        }
        end
    }
}

// The level of the entry at a place of a list.
#[tactic(auto, using(crate::proofs::ByPlace::level_there))]
fn level_in(list: &[Rc<Entry>], place: usize) -> Option<u32>
    requires within { place < length list.now }
    ensures value { result ≡ level_at (levels (map (λ e. e.value) list.now)) place }
{
    level_of(&list[place])
}

// Whether what stands later ends the subtree of an entry, by their levels.
fn ends_subtree(level: Option<u32>, later: Option<u32>) -> bool
    ensures value { result ≡ ends level later }
{
    match (level, later) {
        (None, _) => true,
        (Some(_), None) => false,
        (Some(own), Some(other)) => other <= own,
    }
}

// How many entries there are up to the parent of an entry, with it, from the same of those before it. An earlier heading
// whose level isn't smaller has nothing between its parent and itself that has a smaller level, so the search goes on at
// its parent.
fn up_to_parent(levels: &Levels<'_>, parents: &[usize], place: usize) -> usize
    requires within { place < length levels.now }
    requires count { length parents.now ≡ place }
    requires before { (k : ℕ) → k < place → slice_index parents.now k ≡ up_to_parent levels.now k }
    ensures value { result ≡ up_to_parent levels.now place }
{
    let Some(level) = levels.get(place) else {
        return 0;
    };
    let mut rest = place;
    while rest > 0 {
        let candidate = rest - 1;
        match levels.get(candidate) {
            None => rest = candidate,
            Some(other) => {
                if other < level {
                    return rest;
                }
                rest = parents[candidate];
            }
        }
    }
    0
}

// The same of all entries, by their places.
pub(crate) fn parent_table(alloc: Global, levels: &Levels<'_>) -> Result<Vec<usize>, AllocError>
    ensures value { GivesItems result (all_up_to_parent levels.now) }
{
    let mut parents = Vec::with_capacity(alloc, levels.count())?;
    for place in 0..levels.count() {
        parents.push(up_to_parent(levels, &parents, place))?;
    }
    Ok(parents)
}

// Where the subtree of an entry ends, from the subtree ends of those after it. With an entry its whole subtree is below,
// so the search goes on at its end.
fn end_from(levels: &Levels<'_>, all_ends: &[usize], place: usize) -> usize
    requires within { place < length levels.now }
    requires count { length all_ends.now ≡ length levels.now }
    requires later { AreEndsBehind levels.now place all_ends.now }
    ensures value { result ≡ end_of levels.now place }
{
    let mut end = place + 1;
    while end < levels.count() {
        if ends_subtree(levels.get(place), levels.get(end)) {
            return end;
        }
        end = all_ends[end];
    }
    end
}

// The subtree ends of all entries, by their places.
pub(crate) fn end_table(alloc: Global, levels: &Levels<'_>) -> Result<Vec<usize>, AllocError>
    ensures value { GivesItems result (all_ends levels.now) }
{
    let mut all_ends = vec![in alloc; 0; levels.count()]?;
    let mut place = levels.count();
    while place > 0 {
        place -= 1;
        all_ends[place] = end_from(levels, &all_ends, place);
    }
    Ok(all_ends)
}

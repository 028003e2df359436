//! The stamps of a planning line that have moved.
ghost use Rattle.std.specs.Prelude.{◌≡◌, ◌++◌, ◌+◌, ◌≤◌, OnOk, length};
ghost use Rattle.org_act.specs.Moved.{has_moved, moved_pairs, pair_if};
ghost use Rattle.org_base.specs.Results.{GivesItems};

use org_stamp::{Pair, next_pair};
use std::alloc::{AllocError, Global};
use std::slice;

/// The pairs of a planning line whose stamps differ from those that stood in their places before; of a range the first one
/// alone counts.
pub fn moved_pairs(alloc: Global, old: &[u8], new: &[u8]) -> Result<Vec<Pair>, AllocError>
    ensures value { GivesItems result (moved_pairs old.now new.now) }
{
    let mut moved = Vec::new(alloc);
    let mut old_at = 0;
    let mut at = 0;
    while let Some(pair) = next_pair(new, at) {
        let Some(before) = next_pair(old, old_at) else {
            return Ok(moved);
        };
        old_at = before.end;
        at = pair.end;
        let has_moved = has_moved(old, new, &before, &pair);
        push_if(&mut moved, has_moved, &pair)?;
    }
    Ok(moved)
}

// Whether the stamp of a pair differs from that of one of another line.
fn has_moved(old: &[u8], new: &[u8], before: &Pair, pair: &Pair) -> bool
    requires in_old { before.now.at + before.now.len ≤ length old.now }
    requires in_new { pair.now.at + pair.now.len ≤ length new.now }
    ensures value { result ≡ has_moved old.now new.now before.now pair.now }
{
    old[before.at..before.at + before.len] != new[pair.at..pair.at + pair.len]
}

// Puts a pair after others, if it is wanted.
fn push_if(pairs: &mut Vec<Pair>, is_wanted: bool, pair: &Pair) -> Result<(), AllocError>
    ensures value { OnOk result (pairs.new.items ≡ pairs.old.items ++ pair_if is_wanted pair.now) }
{
    if is_wanted {
        pairs.extend_from_slice(slice::from_ref(pair))?;
    }
    Ok(())
}

//! The items of a leaf, searched.
ghost use Rattle.std.specs.Prelude.{◌≡◌, ◌<◌, ◌≤◌, length};
ghost use Rattle.std.specs.List.{sum_by};
ghost use Rattle.org_sequence.specs.declared.tree.TheConstants.{MAX_LEAF};
ghost use Rattle.org_sequence.specs.Parts.{IsItemOf, IsFirstPassing};
ghost use Rattle.org_sequence.specs.Sums.{amount_in, bears};

use crate::measured::{Measure, Measured, Sign, amount, has_sign};

// The item of a leaf that holds a place in a measure, and how much is counted before it.
pub(crate) fn find_in<T: Measured>(items: &[T], measure: Measure, place: u32) -> (u32, u32)
    requires at_most { length items.now ≤ MAX_LEAF }
    requires within { place < sum_by (amount_in T.size T.lines measure) items.now }
    ensures { IsItemOf (amount_in T.size T.lines measure) items.now place result.0 result.1 }
{
    let mut before = 0;
    for (at, item) in items.iter().enumerate() {
        let amount = amount(item, measure);
        if place - before < amount {
            return (at as u32, before);
        }
        before += amount;
    }
    unreachable!()
}

// The first item of a leaf from a place on that bears a sign.
pub(crate) fn first_in<T: Measured>(items: &[T], sign: Sign, from: u32) -> Option<u32>
    requires at_most { length items.now ≤ MAX_LEAF }
    requires within { from ≤ length items.now }
    ensures { IsFirstPassing (bears T.pending T.flagged sign) items.now from result }
{
    for (at, item) in items[from as usize..].iter().enumerate() {
        if has_sign(item, sign) {
            return Some(from + at as u32);
        }
    }
    None
}

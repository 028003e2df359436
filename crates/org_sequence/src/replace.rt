//! A part of a tree replaced.
ghost use Rattle.std.specs.Prelude.{◌≡◌, ◌+◌, ◌^◌, ◌<◌, ◌≤◌, length, IfOk};
ghost use Rattle.std.specs.List.{sum_by, splice};
ghost use Rattle.org_sequence.specs.declared.tree.TheConstants.{MAX_LEAF};
ghost use Rattle.org_sequence.specs.Parts.{items_of};

use crate::join::join_of;
use crate::leaf::leaf_of;
use crate::measured::Measured;
use crate::tree::{Node, Root, Tree};
use std::alloc::{AllocError, Global};

// The items of a leaf with those from one place to another replaced by those of a tree.
#[tactic(auto, using(crate::proofs::Splices::spliced_length, crate::proofs::Splices::spliced_size, crate::proofs::Splices::parts_size))]
fn replace_in_leaf<T: Measured>(
    alloc: Global,
    items: &[T],
    from: usize,
    to: usize,
    middle: &Root<T>,
) -> Result<Root<T>, AllocError>
    requires order { from ≤ to }
    requires within { to ≤ length items.now }
    requires at_most { length items.now ≤ MAX_LEAF }
    requires size_fits { sum_by T.size items.now + sum_by T.size (items_of middle.now) < 2 ^ 32 }
    ensures { IfOk result (λ t. items_of t ≡ splice items.now from to (items_of middle.now)) }
{
    let front = leaf_of(alloc, &items[..from])?;
    let back = leaf_of(alloc, &items[to..])?;
    let rest = join_of(alloc, middle, &back)?;
    join_of(alloc, &front, &rest)
}

// The items with those from one place to another replaced by those of a tree.
#[tactic(auto, using(crate::proofs::Splices::spliced_length, crate::proofs::Splices::splice_left))]
fn replace<T: Measured>(
    alloc: Global,
    tree: &Tree<T>,
    from: u32,
    to: u32,
    middle: &Root<T>,
) -> Result<Root<T>, AllocError>
    requires order { from ≤ to }
    requires within { to ≤ length tree.now.0 }
    requires size_fits { sum_by T.size tree.now.0 + sum_by T.size (items_of middle.now) < 2 ^ 32 }
    ensures { IfOk result (λ t. items_of t ≡ splice tree.now.0 from to (items_of middle.now)) }
{
    match &tree.node {
        Node::Leaf(items, _) => replace_in_leaf(alloc, items, from as usize, to as usize, middle),
        Node::Fork(left, right, _, _) => {
            let count = left.count();
            if to <= count {
                let front = replace(alloc, left, from, to, middle)?;
                let back = Some(right.clone()?);
                join_of(alloc, &front, &back)
            } else if from >= count {
                let front = Some(left.clone()?);
                let back = replace(alloc, right, from - count, to - count, middle)?;
                join_of(alloc, &front, &back)
            } else {
                let front = replace(alloc, left, from, count, middle)?;
                let back = replace(alloc, right, 0, to - count, &None)?;
                join_of(alloc, &front, &back)
            }
        }
    }
}

// The items under a root with those from one place up to another replaced.
pub(crate) fn replace_between<T: Measured>(
    alloc: Global,
    root: &Root<T>,
    from: u32,
    to: u32,
    middle: &Root<T>,
) -> Result<Root<T>, AllocError>
    requires order { from ≤ to }
    requires within { to ≤ length (items_of root.now) }
    requires fits { sum_by T.size (items_of root.now) + sum_by T.size (items_of middle.now) < 2 ^ 32 }
    ensures { IfOk result (λ t. items_of t ≡ splice (items_of root.now) from to (items_of middle.now)) }
{
    match root {
        Some(tree) => replace(alloc, tree, from, to, middle),
        None => middle.clone(),
    }
}

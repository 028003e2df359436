//! The items of a leaf.
ghost use Rattle.std.specs.Prelude.{◌≡◌, ◌^◌, ◌<◌, ◌≤◌, ◌++◌, length, IfOk};
ghost use Rattle.std.specs.List.{sum_by};
ghost use Rattle.org_sequence.specs.declared.tree.TheConstants.{MAX_LEAF};
ghost use Rattle.org_sequence.specs.Parts.{items_of};

use crate::measured::Measured;
use crate::sums::sums_of;
use crate::tree::{Node, Root, Tree};
use std::alloc::{AllocError, Global};
use std::rc::Rc;

// Equal items after those of a list.
#[tactic(auto, using(crate::proofs::Joins::copied_more))]
pub(crate) fn push_all<T: Measured>(into: &mut Vec<T>, items: &[T]) -> Result<(), AllocError>
    ensures { IfOk result (λ _. into.new.items ≡ into.old.items ++ items.now) }
{
    for item in items {
        into.push(item.share()?)?;
    }
    Ok(())
}

// A leaf.
pub(crate) fn leaf<T: Measured>(alloc: Global, items: Vec<T>) -> Result<Rc<Tree<T>>, AllocError>
    requires some { 0 < length items.items }
    requires at_most { length items.items ≤ MAX_LEAF }
    requires size_fits { sum_by T.size items.items < 2 ^ 32 }
    ensures { IfOk result (λ t. t.value ≡ (items.items, 0)) }
{
    let sums = sums_of(&items);
    let tree = Tree {
        node: Node::Leaf(items, sums),
    };
    Ok(Rc::new(alloc, tree)?)
}

// A leaf of equal items, if there are any.
pub(crate) fn leaf_of<T: Measured>(alloc: Global, items: &[T]) -> Result<Root<T>, AllocError>
    requires at_most { length items.now ≤ MAX_LEAF }
    requires size_fits { sum_by T.size items.now < 2 ^ 32 }
    ensures { IfOk result (λ t. items_of t ≡ items.now) }
{
    if items.is_empty() {
        return Ok(None);
    }
    let mut copy = Vec::with_capacity(alloc, items.len())?;
    push_all(&mut copy, items)?;
    let tree = leaf(alloc, copy)?;
    Ok(Some(tree))
}

//! Trees put side by side.
ghost use Rattle.std.specs.Prelude.{◌≡◌, ◌+◌, ◌^◌, ◌<◌, ◌≤◌, ◌++◌, IfOk};
ghost use Rattle.std.specs.List.{sum_by};
ghost use Rattle.org_sequence.specs.Parts.{items_of};
ghost use Rattle.org_sequence.specs.Shape.{DifferByAtMost, IsHeightAfter, IsHeightNear, forked};

use crate::leaf::{leaf, leaf_of, push_all};
use crate::measured::Measured;
use crate::tree::{MAX_LEAF, Node, Root, Tree};
use std::alloc::{AllocError, Global};
use std::rc::Rc;

// Two trees of nearly one height, side by side.
#[tactic(auto, using(crate::proofs::Joins::joined_sums, crate::proofs::Joins::joined_size, crate::proofs::Joins::joined_length, crate::proofs::Least::least_fork))]
fn fork<T: Measured>(
    alloc: Global,
    left: Rc<Tree<T>>,
    right: Rc<Tree<T>>,
) -> Result<Rc<Tree<T>>, AllocError>
    requires heights { DifferByAtMost 1 left.value.1 right.value.1 }
    requires size_fits { sum_by T.size left.value.0 + sum_by T.size right.value.0 < 2 ^ 32 }
    ensures { IfOk result (λ t. t.value ≡ forked left.value right.value) }
{
    let sums = left.sums().plus(right.sums());
    let height = left.height().max(right.height()) + 1;
    let tree = Tree {
        node: Node::Fork(left, right, sums, height),
    };
    Ok(Rc::new(alloc, tree)?)
}

// A tree whose left side is two higher than what it is joined with.
#[tactic(auto, using(crate::proofs::Joins::joined_length, crate::proofs::Joins::joined_size))]
fn lean_left<T: Measured>(
    alloc: Global,
    left: &Tree<T>,
    right: Rc<Tree<T>>,
) -> Result<Rc<Tree<T>>, AllocError>
    requires two_higher { left.now.1 ≡ right.value.1 + 2 }
    requires size_fits { sum_by T.size left.now.0 + sum_by T.size right.value.0 < 2 ^ 32 }
    ensures items { IfOk result (λ t. t.value.0 ≡ left.now.0 ++ right.value.0) }
    ensures height { IfOk result (λ t. (left.now.1 ≤ t.value.1) × (t.value.1 ≤ left.now.1 + 1)) }
{
    let Node::Fork(a, b, _, _) = &left.node else {
        unreachable!()
    };
    if a.height() >= b.height() {
        let inner = fork(alloc, b.clone()?, right)?;
        return fork(alloc, a.clone()?, inner);
    }
    let middle = b.as_ref();
    let Node::Fork(c, d, _, _) = &middle.node else {
        unreachable!()
    };
    let front = fork(alloc, a.clone()?, c.clone()?)?;
    let back = fork(alloc, d.clone()?, right)?;
    fork(alloc, front, back)
}

#[tactic(auto, using(crate::proofs::Joins::joined_length, crate::proofs::Joins::joined_size))]
fn lean_right<T: Measured>(
    alloc: Global,
    left: Rc<Tree<T>>,
    right: &Tree<T>,
) -> Result<Rc<Tree<T>>, AllocError>
    requires two_higher { right.now.1 ≡ left.value.1 + 2 }
    requires size_fits { sum_by T.size left.value.0 + sum_by T.size right.now.0 < 2 ^ 32 }
    ensures items { IfOk result (λ t. t.value.0 ≡ left.value.0 ++ right.now.0) }
    ensures height { IfOk result (λ t. (right.now.1 ≤ t.value.1) × (t.value.1 ≤ right.now.1 + 1)) }
{
    let Node::Fork(a, b, _, _) = &right.node else {
        unreachable!()
    };
    if b.height() >= a.height() {
        let inner = fork(alloc, left, a.clone()?)?;
        return fork(alloc, inner, b.clone()?);
    }
    let middle = a.as_ref();
    let Node::Fork(c, d, _, _) = &middle.node else {
        unreachable!()
    };
    let front = fork(alloc, left, c.clone()?)?;
    let back = fork(alloc, d.clone()?, b.clone()?)?;
    fork(alloc, front, back)
}

// Two trees whose heights differ by at most two, side by side.
#[tactic(auto, using(crate::proofs::Joins::joined_length, crate::proofs::Joins::joined_size))]
fn join_balanced<T: Measured>(
    alloc: Global,
    left: Rc<Tree<T>>,
    right: Rc<Tree<T>>,
) -> Result<Rc<Tree<T>>, AllocError>
    requires near { DifferByAtMost 2 left.value.1 right.value.1 }
    requires size_fits { sum_by T.size left.value.0 + sum_by T.size right.value.0 < 2 ^ 32 }
    ensures items { IfOk result (λ t. t.value.0 ≡ left.value.0 ++ right.value.0) }
    ensures height { IfOk result (λ t. IsHeightAfter left.value.1 right.value.1 t.value.1) }
{
    let (hl, hr) = (left.height(), right.height());
    if hl > hr + 1 {
        lean_left(alloc, left.as_ref(), right)
    } else if hr > hl + 1 {
        lean_right(alloc, left, right.as_ref())
    } else {
        fork(alloc, left, right)
    }
}

// Two leaves, side by side: one leaf where they fit into one.
#[tactic(auto, using(crate::proofs::Joins::joined_length, crate::proofs::Joins::joined_size))]
fn join_leaves<T: Measured>(
    alloc: Global,
    left: &Rc<Tree<T>>,
    right: &Rc<Tree<T>>,
) -> Result<Rc<Tree<T>>, AllocError>
    requires left_low { left.now.value.1 ≡ 0 }
    requires right_low { right.now.value.1 ≡ 0 }
    requires size_fits { sum_by T.size left.now.value.0 + sum_by T.size right.now.value.0 < 2 ^ 32 }
    ensures items { IfOk result (λ t. t.value.0 ≡ left.now.value.0 ++ right.now.value.0) }
    ensures height { IfOk result (λ t. t.value.1 ≤ 1) }
{
    let (first, second) = (left.as_ref(), right.as_ref());
    let Node::Leaf(a, _) = &first.node else {
        unreachable!()
    };
    let Node::Leaf(b, _) = &second.node else {
        unreachable!()
    };
    if a.len() + b.len() > MAX_LEAF {
        return fork(alloc, left.clone()?, right.clone()?);
    }
    let mut items = Vec::with_capacity(alloc, a.len() + b.len())?;
    push_all(&mut items, a)?;
    push_all(&mut items, b)?;
    leaf(alloc, items)
}

// Two trees, side by side.
#[tactic(auto, using(crate::proofs::Joins::joined_length, crate::proofs::Joins::joined_size))]
pub(crate) fn join<T: Measured>(
    alloc: Global,
    left: &Rc<Tree<T>>,
    right: &Rc<Tree<T>>,
) -> Result<Rc<Tree<T>>, AllocError>
    requires size_fits { sum_by T.size left.now.value.0 + sum_by T.size right.now.value.0 < 2 ^ 32 }
    ensures items { IfOk result (λ t. t.value.0 ≡ left.now.value.0 ++ right.now.value.0) }
    ensures height { IfOk result (λ t. IsHeightNear left.now.value.1 right.now.value.1 t.value.1) }
{
    let (hl, hr) = (left.height(), right.height());
    if hl > hr + hr.min(1) {
        let tree = left.as_ref();
        let Node::Fork(a, b, _, _) = &tree.node else {
            unreachable!()
        };
        let joined = join(alloc, b, right)?;
        join_balanced(alloc, a.clone()?, joined)
    } else if hr > hl + hl.min(1) {
        let tree = right.as_ref();
        let Node::Fork(a, b, _, _) = &tree.node else {
            unreachable!()
        };
        let joined = join(alloc, left, a)?;
        join_balanced(alloc, joined, b.clone()?)
    } else if hl == 0 {
        join_leaves(alloc, left, right)
    } else {
        fork(alloc, left.clone()?, right.clone()?)
    }
}

// One after the other.
pub(crate) fn join_of<T: Measured>(
    alloc: Global,
    left: &Root<T>,
    right: &Root<T>,
) -> Result<Root<T>, AllocError>
    requires fits { sum_by T.size (items_of left.now) + sum_by T.size (items_of right.now) < 2 ^ 32 }
    ensures { IfOk result (λ t. items_of t ≡ items_of left.now ++ items_of right.now) }
{
    match (left, right) {
        (Some(a), Some(b)) => {
            let tree = join(alloc, a, b)?;
            Ok(Some(tree))
        }
        (None, _) => right.clone(),
        (_, None) => left.clone(),
    }
}

// Equal items of a list, under a root.
#[tactic(auto, using(crate::proofs::Splices::halves_size, crate::proofs::Splices::halves_join))]
pub(crate) fn build<T: Measured>(alloc: Global, items: &[T]) -> Result<Root<T>, AllocError>
    requires size_fits { sum_by T.size items.now < 2 ^ 32 }
    ensures { IfOk result (λ t. items_of t ≡ items.now) }
{
    if items.len() <= MAX_LEAF {
        return leaf_of(alloc, items);
    }
    let (first, second) = items.split_at(items.len() / 2);
    let front = build(alloc, first)?;
    let back = build(alloc, second)?;
    join_of(alloc, &front, &back)
}

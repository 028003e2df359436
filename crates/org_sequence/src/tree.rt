//! A balanced tree over leaves of items, seen as its items and its height.
ghost use Rattle.std.specs.Prelude.{◌≡◌, ◌+◌, ◌^◌, ◌<◌, ◌≤◌, length, take, drop};
ghost use Rattle.std.specs.List.{sum_by, count_by};
ghost use Rattle.org_sequence.specs.Parts.{HoldsPlace, IsItemOf, IsFirstPassing};
ghost use Rattle.org_sequence.specs.Shape.{least};
ghost use Rattle.org_sequence.specs.Sums.{AreSums, amount_in, bears};

use crate::measured::{Measure, Measured, Sign};
use crate::search::{find_in, first_in};
use crate::sums::{Sums, sums_of};
use std::marker::Model;
use std::rc::Rc;

// The most items of a leaf: fewer make paths longer, more are copied at each edit.
pub(crate) const MAX_LEAF: usize = 32;

#[cycle(tree)]
#[derive(Debug, Drop)]
pub(crate) struct Tree<T: Measured> {
    pub(crate) node: Node<T>,
}

#[cycle(tree)]
#[derive(Debug, Drop)]
pub(crate) enum Node<T: Measured> {
    // The items and their sums.
    Leaf(Vec<T>, Sums),
    // Left, right, the sums of both, the height.
    Fork(Rc<Tree<T>>, Rc<Tree<T>>, Sums, u32),
}

// A tree, or none for no items.
pub(crate) type Root<T> = Option<Rc<Tree<T>>>;

impl<T: Measured> Model for Tree<T> {
    ghost use Rattle.std.specs.Prelude.{ℕ, List};

    ghost Value = { List T × ℕ };

    ghost use Rattle.org_sequence.specs.Shape.{items_and_height, IsTree};

    ghost view = { λ a. items_and_height a.node };

    ghost invariant = { λ a. IsTree T.size T.lines T.pending T.flagged a.node };

    ghost size = { λ d. d.1 };

    ghost use Rattle.org_sequence.specs.Falls.{falls};

    ghost size_decreases = { λ a h. falls T.Measured a.node h };
}

impl<T: Measured> Tree<T> {
    pub(crate) fn sums(&self) -> Sums
        ensures value { AreSums T.size T.lines T.pending T.flagged self.now.0 result }
        ensures some { 0 < length self.now.0 }
        ensures low { self.now.1 < result.count }
        ensures shallow { least self.now.1 ≤ result.count }
    {
        match &self.node {
            Node::Leaf(_, sums) => *sums,
            Node::Fork(_, _, sums, _) => *sums,
        }
    }

    pub(crate) fn count(&self) -> u32
        ensures value { result ≡ length self.now.0 }
    {
        self.sums().count
    }

    // How much the items count in a measure.
    pub(crate) fn total(&self, measure: Measure) -> u32
        ensures value { result ≡ sum_by (amount_in T.size T.lines measure) self.now.0 }
    {
        match measure {
            Measure::Size => self.sums().size,
            Measure::Lines => self.sums().lines,
        }
    }

    // How many items bear a sign.
    pub(crate) fn signs(&self, sign: Sign) -> u32
        ensures value { result ≡ count_by (bears T.pending T.flagged sign) self.now.0 }
    {
        match sign {
            Sign::Pending => self.sums().pending,
            Sign::Flag => self.sums().flags,
        }
    }

    pub(crate) fn height(&self) -> u32
        ensures value { result ≡ self.now.1 }
        ensures has_room { result + 1 < 2 ^ 32 }
    {
        match self.node {
            Node::Leaf(_, _) => 0,
            Node::Fork(_, _, _, height) => height,
        }
    }

    // The items from a place on, as far as they lie together.
    pub(crate) fn run_at(&self, at: u32) -> &[T]
        requires { at < length self.now.0 }
        ensures some { 0 < length result.now }
        ensures run { result.now ≡ take (length result.now) (drop at self.now.0) }
        ensures within { at + length result.now ≤ length self.now.0 }
    {
        match &self.node {
            Node::Leaf(items, _) => &items.as_slice()[at as usize..],
            Node::Fork(left, right, _, _) => {
                let count = left.count();
                if at < count {
                    left.run_at(at)
                } else {
                    right.run_at(at - count)
                }
            }
        }
    }

    // The item that holds a place in a measure, and how much is counted before it.
    pub(crate) fn find(&self, measure: Measure, place: u32) -> (u32, u32)
        requires { place < sum_by (amount_in T.size T.lines measure) self.now.0 }
        ensures { IsItemOf (amount_in T.size T.lines measure) self.now.0 place result.0 result.1 }
    {
        match &self.node {
            Node::Leaf(items, _) => find_in(items, measure, place),
            Node::Fork(left, right, _, _) => {
                let total = left.total(measure);
                if place < total {
                    left.find(measure, place)
                } else {
                    let (at, before) = right.find(measure, place - total);
                    (left.count() + at, total + before)
                }
            }
        }
    }

    // The item that holds a place where sizes are counted, lent, and the size of the items before it.
    pub(crate) fn item_at(&self, place: u32) -> (&T, u32)
        requires { place < sum_by T.size self.now.0 }
        ensures { HoldsPlace T.size self.now.0 place result.0.now result.1 }
    {
        match &self.node {
            Node::Leaf(items, _) => {
                let (at, before) = find_in(items, Measure::Size, place);
                (&items[at as usize], before)
            }
            Node::Fork(left, right, _, _) => {
                let size = left.sums().size;
                if place < size {
                    return left.item_at(place);
                }
                let (item, before) = right.item_at(place - size);
                (item, size + before)
            }
        }
    }

    // The first item from a place on that bears a sign.
    pub(crate) fn first_from(&self, sign: Sign, at: u32) -> Option<u32>
        requires { at ≤ length self.now.0 }
        ensures { IsFirstPassing (bears T.pending T.flagged sign) self.now.0 at result }
    {
        if self.signs(sign) == 0 {
            return None;
        }
        match &self.node {
            Node::Leaf(items, _) => first_in(items, sign, at),
            Node::Fork(left, right, _, _) => {
                let count = left.count();
                if at >= count {
                    return match right.first_from(sign, at - count) {
                        Some(i) => Some(count + i),
                        None => None,
                    };
                }
                if let Some(i) = left.first_from(sign, at) {
                    return Some(i);
                }
                match right.first_from(sign, 0) {
                    Some(i) => Some(count + i),
                    None => None,
                }
            }
        }
    }

    // What the items before a place add up to.
    pub(crate) fn sums_before(&self, at: u32) -> Sums
        requires { at ≤ length self.now.0 }
        ensures { AreSums T.size T.lines T.pending T.flagged (take at self.now.0) result }
    {
        match &self.node {
            Node::Leaf(items, _) => sums_of(&items.as_slice()[..at as usize]),
            Node::Fork(left, right, _, _) => {
                let count = left.count();
                if at < count {
                    left.sums_before(at)
                } else {
                    left.sums().plus(right.sums_before(at - count))
                }
            }
        }
    }
}

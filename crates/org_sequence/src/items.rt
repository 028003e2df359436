//! The items of a sequence, one after the other.
ghost use Rattle.std.specs.Prelude.{◌≡◌, [], ◌∷◌, length, MatchOption};
ghost use Rattle.std.specs.Iterator.{at_most};

use crate::measured::Measured;
use crate::sequence::Sequence;
use std::marker::Model;

/// The items of a sequence that are left, seen as their list.
#[derive(Debug, Drop)]
pub struct Items<'a, T: Measured> {
    sequence: &'a Sequence<T>,
    // Items that lie together, and the place after them.
    run: &'a [T],
    at: u32,
}

impl<'a, T: Measured> Model for Items<'a, T> {
    ghost use Rattle.std.specs.Prelude.{List, ◌++◌, drop};

    ghost Value = { List T };

    ghost view = { λ s. s.run.now ++ drop s.at s.sequence.now };
}

impl<T: Measured> Sequence<T> {
    /// The items in order.
    pub fn iter(&self) -> Items<'_, T>
        ensures value { result ≡ self.now }
    {
        Items {
            sequence: self,
            run: &[],
            at: 0,
        }
    }
}

impl<'a, T: Measured> IntoIterator for &'a Sequence<T> {
    type Item = &'a T;

    type IntoIter = Items<'a, T>;

    ghost into_iter_gives = { λ sequence items. items ≡ sequence.now };

    fn into_iter(self) -> Items<'a, T> {
        self.iter()
    }
}

impl<'a, T: Measured> Iterator for Items<'a, T> {
    type Item = &'a T;

    ghost next_gives = { λ s r t. MatchOption r ((s ≡ []) × (t ≡ [])) (λ x. s ≡ x.now ∷ t) };

    ghost remaining = { λ s. at_most (length s) };

    #[tactic(auto, using(crate::proofs::Finds::run_joined))]
    fn next(&mut self) -> Option<&'a T> {
        let sequence = self.sequence;
        if let Some((first, rest)) = self.run.split_first() {
            self.run = rest;
            return Some(first);
        }
        if self.at >= sequence.len() {
            return None;
        }
        let run = sequence.run_at(self.at);
        self.at += run.len() as u32;
        let (first, rest) = run.split_first().unwrap();
        self.run = rest;
        Some(first)
    }
}

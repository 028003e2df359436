//! The way up from an entry.
ghost use Rattle.std.specs.Prelude.{◌≡◌, ◌<◌, length};
ghost use Rattle.std.specs.Iterator.{YieldsFirst, item_count};
ghost use Rattle.org_outline.specs.Levels.{levels};
ghost use Rattle.org_outline.specs.Tree.{ancestors};

use crate::outline::Outline;
use std::marker::Model;

/// The places of an entry's ancestors that are still to come, the nearest first: contracts see their list.
#[derive(Debug, Drop)]
pub struct Ancestors<'a> {
    outline: &'a Outline,
    next: Option<usize>,
}

impl<'a> Model for Ancestors<'a> {
    ghost use Rattle.std.specs.Prelude.{ℕ, List, ◌≤◌, length};
    ghost use Rattle.org_outline.specs.Levels.{levels};
    ghost use Rattle.org_outline.specs.Places.{behind};
    ghost use Rattle.org_outline.specs.Tree.{up_from};

    ghost Value = { List ℕ };

    ghost view = { λ s. up_from (levels s.outline.now) s.next };

    ghost invariant = { λ s. behind s.next ≤ length s.outline.now };
}

impl Outline {
    /// The places of the ancestors, the nearest first: the parent, its parent and so on.
    pub fn ancestors(&self, place: usize) -> Ancestors<'_>
        requires { place < length self.now }
        ensures value { result ≡ ancestors (levels self.now) place }
    {
        Ancestors {
            outline: self,
            next: self.parent(place),
        }
    }
}

impl<'a> Iterator for Ancestors<'a> {
    type Item = usize;

    ghost next_gives = { YieldsFirst (λ s. s) };

    ghost remaining = { item_count (λ s. s) };

    fn next(&mut self) -> Option<usize> {
        let place = self.next?;
        self.next = self.outline.parent(place);
        Some(place)
    }
}

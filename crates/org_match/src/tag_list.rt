//! Tags that an expression is asked about.
ghost use Rattle.std.specs.Prelude.{◌≡◌, ◌<◌, ℕ, List, Some, length, slice_get};

use org_base::Texts;

/// Tags, lent one by one, so that those of a heading needn't be copied out of its text.
pub trait TagList {
    // the tags, in any order
    ghost list: { Self → List (List ℕ) };

    /// How many there are.
    fn tag_count(&self) -> usize
        ensures value { result ≡ length (list self.now) };

    /// The one at a place, from 0.
    fn tag(&self, place: usize) -> &[u8]
        requires { place < length (list self.now) }
        ensures value { slice_get (list self.now) place ≡ Some result.now };
}

impl TagList for Texts {
    ghost list = { λ texts. texts };

    fn tag_count(&self) -> usize {
        self.count()
    }

    fn tag(&self, place: usize) -> &[u8] {
        self.get(place)
    }
}

//! What an entry has by itself or by an ancestor.
ghost use Rattle.std.specs.Prelude.{◌≡◌, ◌<◌, length};
ghost use Rattle.org_inherit.specs.Tables.{one_passes, passes};

use crate::hidden::hides;
use crate::tables::has_tags;
use org_entry::Entry;
use org_outline::Outline;

// What an entry is asked for.
#[derive(Clone, Copy)]
pub(crate) enum Test {
    // Whether it hides itself and what is below it.
    Hides,
    // Whether it has own tags.
    HasTags,
}

impl Test {
    // Whether an entry passes by itself.
    fn passes(self, entry: &Entry) -> bool
        ensures value { result ≡ passes self entry.now }
    {
        match self {
            Test::Hides => hides(entry),
            Test::HasTags => has_tags(entry),
        }
    }
}

// Whether the entry at a place or an ancestor of it passes the test.
pub(crate) fn lineage_passes(outline: &Outline, place: usize, test: Test) -> bool
    requires within { place < length outline.now }
    ensures value { result ≡ one_passes (passes test) outline.now place }
{
    let mut next = Some(place);
    while let Some(place) = next {
        if test.passes(outline.entry(place)) {
            return true;
        }
        next = outline.parent(place);
    }
    false
}

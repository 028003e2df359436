//! The headings of files, as expressions are asked of them.
ghost use Rattle.org_agenda.specs.Facts.{IsFactsAt};

use crate::facts::HeadingFacts;
use org_inherit::{Heading, Inherit};

/// The heading of the entry at a place of a file, which itself stands at one; None where there is no such entry, or one
/// without head. It takes no memory.
pub fn heading_at<'a, 'b>(
    inherit: &'a Inherit<'b>,
    file: usize,
    place: usize,
) -> Option<HeadingFacts<'a, 'b>>
    ensures { IsFactsAt inherit.now file place result }
{
    match Heading::at(inherit, file, place) {
        Some(heading) => Some(HeadingFacts { heading }),
        None => None,
    }
}

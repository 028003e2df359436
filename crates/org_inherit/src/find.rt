//! Headings by their places.
ghost use Rattle.org_inherit.specs.Headings.{IsFoundAt, IsFoundIn};

use crate::headings::Heading;
use crate::inherit::Inherit;
use crate::inherits::Inherits;

impl<'a, 'b> Heading<'a, 'b> {
    /// The heading of the entry at a place of a file, which itself stands at one; None where there is no such entry, or
    /// one without head. It takes no memory.
    pub fn at(inherit: &'a Inherit<'b>, file: usize, place: usize) -> Option<Heading<'a, 'b>>
        ensures { IsFoundAt inherit.now file place result }
    {
        let outline = inherit.outline();
        if place >= outline.count() {
            return None;
        }
        let entry = outline.entry(place);
        match &entry.head {
            Some(head) => Some(Heading {
                inherit,
                file,
                place,
                entry,
                head,
            }),
            None => None,
        }
    }

    /// The heading at a place of the file at another; none where it isn't there.
    pub fn find(inherits: &'a Inherits<'b>, file: usize, place: usize) -> Option<Heading<'a, 'b>>
        ensures { IsFoundIn inherits.now file place result }
    {
        if file >= inherits.count() {
            return None;
        }
        Heading::at(inherits.get(file), file, place)
    }
}

//! A line of a section, and what is known where it begins.

use crate::beside_kinds::BesideKind;
use crate::finding::{Cause, LinePart};
use crate::notes::Note;
use org_base::Span;
use org_base::words::is_blank;
use org_class::Class;

// How things stand with a heading.
#[derive(Clone, Copy, PartialEq, Eq)]
pub(crate) enum State {
    // It has no keyword.
    NoTask,
    Open,
    Done,
}

// What is known of a section before a line of it.
#[derive(Clone, Copy)]
pub(crate) struct Above {
    // Whether a heading stands above.
    pub headed: bool,
    // How its keyword says that things stand with it.
    pub state: State,
    // Whether the last block that opened holds no text.
    pub in_example: bool,
    // What stands directly under the heading.
    pub first: Option<Cause>,
    // What stands first under the heading and its planning line.
    pub below: Option<Cause>,
}

impl Above {
    // Before the first line.
    pub(crate) fn new() -> Above {
        Above {
            headed: false,
            state: State::NoTask,
            in_example: false,
            first: Some(Cause::NoHeading),
            below: Some(Cause::NoHeading),
        }
    }

    // After a heading.
    pub(crate) fn of_heading(state: State) -> Above {
        Above {
            headed: true,
            state,
            in_example: false,
            first: None,
            below: None,
        }
    }

    // After a line that is no heading.
    pub(crate) fn after(self, class: Class, line: &[u8], number: u32) -> Above {
        let cause = match class {
            Class::Planning => Cause::Planning(number),
            Class::DrawerOpen => Cause::Drawer(number),
            _ if is_blank(line) => Cause::Blank(number),
            _ => Cause::Text(number),
        };
        let mut after = self;
        if after.first.is_none() {
            after.first = Some(cause);
        }
        if after.below.is_none() && !matches!(class, Class::Planning) {
            after.below = Some(cause);
        }
        after
    }
}

// A line of a section.
#[derive(Clone, Copy)]
pub(crate) struct Here {
    // Its first byte in the text.
    pub at: u32,
    // Its number, from 1.
    pub number: u32,
    pub class: Class,
    // What of the section comes after it.
    pub rest: Span,
    pub above: Above,
}

impl Here {
    // A part of the line.
    pub(crate) fn part(self, place: usize, len: usize) -> LinePart {
        LinePart {
            line_at: self.at,
            place,
            len,
            line: self.number,
        }
    }

    // A finding from a place of the line on that explains no mark.
    pub(crate) fn note(self, kind: BesideKind, place: usize, len: usize) -> Note {
        Note {
            part: self.part(place, len),
            kind,
            cause: None,
        }
    }
}

//! What is known of a text while it is gone over.

use crate::clocks::Clocks;
use crate::drawers::Ahead;
use crate::file::About;
use crate::here::Above;
use crate::hidden::HidingHeading;
use crate::notes::Notes;
use crate::properties::MetNames;
use std::alloc::{AllocError, Global};

// What was seen of a text so far.
#[derive(Drop)]
pub(crate) struct Seen<'a> {
    pub alloc: Global,
    pub about: &'a About<'a>,
    // What was found that explains no mark.
    pub notes: Notes,
    // The clocks that count.
    pub clocks: Clocks,
    // How many lines were begun.
    pub lines: u32,
    // How many blocks say that they begin, and neither do nor have had an end.
    pub open_blocks: u32,
    // The line of the first category.
    pub category: Option<u32>,
    // The names of the drawer.
    pub names: MetNames,
    // The words in capitals that stand in front of headings and are no keywords.
    pub capitals: MetNames,
    // What hides the last heading, if it is hidden.
    pub hiding: Option<HidingHeading>,
    // What is known of the section before the line.
    pub above: Above,
    // What comes after a line of the section.
    pub ahead: Option<Ahead>,
}

impl<'a> Seen<'a> {
    // Nothing was seen yet.
    pub(crate) fn new(alloc: Global, about: &'a About<'a>) -> Seen<'a> {
        Seen {
            alloc,
            about,
            notes: Notes::new(alloc),
            clocks: Clocks::new(alloc),
            lines: 0,
            open_blocks: 0,
            category: None,
            names: MetNames::new(alloc),
            capitals: MetNames::new(alloc),
            hiding: None,
            above: Above::new(),
            ahead: None,
        }
    }

    // The number of the line that begins, from 1.
    pub(crate) fn next_line(&mut self) -> u32 {
        self.lines = self.lines.saturating_add(1);
        self.lines
    }

    // Puts what can be said only at the end.
    pub(crate) fn end(&mut self) -> Result<(), AllocError> {
        self.clocks.push_overlaps(&mut self.notes)
    }
}

//! Planning that shows on no day, since its heading is hidden.

use crate::beside_kinds::BesideKind;
use crate::finding::Cause;
use crate::here::{Here, State};
use crate::notes::Notes;
use crate::settings::part_of;
use org_head::Head;
use org_stamp::stamps_in;
use std::alloc::AllocError;

// A heading that hides itself and those below it.
#[derive(Clone, Copy)]
pub(crate) struct HidingHeading {
    // Its stars.
    level: usize,
    // Its line.
    line: u32,
}

// The heading that hides the one of this line, if one does, where another hid the heading before: that one, where it has
// fewer stars, else the heading itself.
pub(crate) fn hidden_by(
    before: Option<HidingHeading>,
    here: Here,
    level: usize,
    hides: bool,
) -> Option<HidingHeading> {
    match before {
        Some(above) if above.level < level => Some(above),
        _ if hides => Some(HidingHeading {
            level,
            line: here.number,
        }),
        _ => None,
    }
}

// Whether a heading hides itself: by the word COMMENT, or by the tag ARCHIVE.
pub(crate) fn hides(head: &Head, line: &[u8]) -> bool {
    head.comment || has_archive(head, line)
}

fn has_archive(head: &Head, line: &[u8]) -> bool {
    for tag in head.tags.as_slice() {
        if part_of(line, tag.at as usize, tag.len as usize) == b"ARCHIVE".as_slice() {
            return true;
        }
    }
    false
}

// Puts the first active stamp of a planning line, where its heading is open and hidden.
pub(crate) fn push_hidden(
    notes: &mut Notes,
    here: Here,
    line: &[u8],
    hidden: Option<HidingHeading>,
) -> Result<(), AllocError> {
    let Some(hidden) = hidden else {
        return Ok(());
    };
    if here.above.state != State::Open {
        return Ok(());
    }
    for found in stamps_in(line) {
        if found.stamp.active {
            let note = here.note(BesideKind::HiddenPlanning, found.at, found.len);
            return notes.push(note.with_cause(Some(Cause::Other(hidden.line))));
        }
    }
    Ok(())
}

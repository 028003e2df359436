//! Findings that explain no mark.

use crate::beside_kinds::BesideKind;
use crate::finding::{Cause, LinePart};
use std::alloc::{AllocError, Global};

// Such a finding: by its kind it says of nothing that it isn't read.
#[derive(Clone, Copy)]
pub(crate) struct Note {
    pub part: LinePart,
    pub kind: BesideKind,
    pub cause: Option<Cause>,
}

impl Note {
    // The same, where this stands in its way.
    pub(crate) fn with_cause(self, cause: Option<Cause>) -> Note {
        Note { cause, ..self }
    }
}

// Such findings of a text.
#[derive(Drop)]
pub(crate) struct Notes {
    list: Vec<Note>,
}

impl Notes {
    // None.
    pub(crate) fn new(alloc: Global) -> Notes {
        Notes {
            list: Vec::new(alloc),
        }
    }

    // Puts one more at the end.
    pub(crate) fn push(&mut self, note: Note) -> Result<(), AllocError> {
        self.list.push(note)?;
        Ok(())
    }

    // All of them, to go over.
    pub(crate) fn as_slice(&self) -> &[Note] {
        self.list.as_slice()
    }
}

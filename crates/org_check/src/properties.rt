//! What the lines of a property drawer say and don't do.

use crate::beside_kinds::BesideKind;
use crate::blocks::push_first_active;
use crate::finding::Cause;
use crate::here::Here;
use crate::notes::Notes;
use org_base::NameSet;
use org_base::words::{first_word, same_word, trim, trim_start};
use org_drawer::effort_minutes;
use org_stamp::leading_spaces;
use std::alloc::{AllocError, Global};

// The names that were met so far, in small letters, and the first line of each.
#[derive(Drop)]
pub(crate) struct MetNames {
    alloc: Global,
    names: NameSet,
    lines: Vec<u32>,
}

impl MetNames {
    // None.
    pub(crate) fn new(alloc: Global) -> MetNames {
        MetNames {
            alloc,
            names: NameSet::new(alloc),
            lines: Vec::new(alloc),
        }
    }

    // The first line in which the name was met, if there is one; else it is this line.
    pub(crate) fn meet(&mut self, name: &[u8], line: u32) -> Result<Option<u32>, AllocError> {
        let folded = name.to_ascii_lowercase(self.alloc)?;
        if let Some(place) = self.names.place(folded.as_slice()) {
            return Ok(self.lines.as_slice().get(place).copied());
        }
        self.names.add(folded)?;
        self.lines.push(line)?;
        Ok(None)
    }
}

// Puts what a line of a drawer says and doesn't do.
pub(crate) fn push_node(
    notes: &mut Notes,
    names: &mut MetNames,
    here: Here,
    line: &[u8],
) -> Result<(), AllocError> {
    let word = first_word(line);
    let text = trim_start(line);
    if let [b':', name @ .., b':'] = word {
        if word.len() <= text.len() {
            push_effort(notes, here, line, name, trim(&text[word.len()..]))?;
        }
        push_name(notes, names, here, line, name)?;
    }
    push_first_active(notes, here, BesideKind::StampInDrawer, line)
}

fn push_effort(
    notes: &mut Notes,
    here: Here,
    line: &[u8],
    name: &[u8],
    value: &[u8],
) -> Result<(), AllocError> {
    if same_word(name, b"Effort") && !value.is_empty() && effort_minutes(value).is_none() {
        push_line(notes, here, BesideKind::UnreadEffort, line, None)?;
    }
    Ok(())
}

// Puts a name that has a value already, and one that match expressions take for something else.
fn push_name(
    notes: &mut Notes,
    names: &mut MetNames,
    here: Here,
    line: &[u8],
    name: &[u8],
) -> Result<(), AllocError> {
    if is_special(name) {
        push_line(notes, here, BesideKind::SpecialProperty, line, None)?;
    }
    if name.ends_with(b"+") {
        return Ok(());
    }
    match names.meet(name, here.number)? {
        Some(first) => push_line(
            notes,
            here,
            BesideKind::RepeatedProperty,
            line,
            Some(Cause::Other(first)),
        ),
        None => Ok(()),
    }
}

fn push_line(
    notes: &mut Notes,
    here: Here,
    kind: BesideKind,
    line: &[u8],
    cause: Option<Cause>,
) -> Result<(), AllocError> {
    let note = here.note(kind, leading_spaces(line), trim(line).len());
    notes.push(note.with_cause(cause))
}

// Whether match expressions take the name for what a heading says itself, whatever its drawer says.
fn is_special(name: &[u8]) -> bool {
    same_word(name, b"TODO")
        || same_word(name, b"PRIORITY")
        || same_word(name, b"LEVEL")
        || same_word(name, b"ITEM")
        || same_word(name, b"TAGS")
        || same_word(name, b"ALLTAGS")
        || same_word(name, b"FILE")
        || same_word(name, b"SCHEDULED")
        || same_word(name, b"DEADLINE")
        || same_word(name, b"CLOSED")
}

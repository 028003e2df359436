//! Ends of blocks that don't begin, and what stands in blocks.

use crate::beside_kinds::BesideKind;
use crate::here::Here;
use crate::notes::Notes;
use crate::settings::is_known_setting;
use org_base::words::{first_word, same_word, trim};
use org_class::{Class, begins_with, block_name};
use org_stamp::{leading_spaces, stamps_in};
use std::alloc::AllocError;

// Whether the lines of the block that the line opens are no text: source, an example, what is exported as it is, a comment.
pub(crate) fn opens_example(line: &[u8]) -> bool {
    let name = block_name(line);
    same_word(name, b"src")
        || same_word(name, b"example")
        || same_word(name, b"export")
        || same_word(name, b"comment")
}

// Whether the line ends a block, if one begins for it.
pub(crate) fn is_block_end(class: Class, line: &[u8]) -> bool {
    matches!(class, Class::Plain | Class::Setting) && begins_with(first_word(line), b"#+END_")
}

// Puts the end of a block that has no beginning.
pub(crate) fn push_block_end(notes: &mut Notes, here: Here, line: &[u8]) -> Result<(), AllocError> {
    notes.push(here.note(
        BesideKind::StrayBlockEnd,
        leading_spaces(line),
        trim(line).len(),
    ))
}

// Puts what a line inside a block says and doesn't do.
pub(crate) fn push_verbatim(notes: &mut Notes, here: Here, line: &[u8]) -> Result<(), AllocError> {
    if is_known_setting(trim(line), true) {
        notes.push(here.note(
            BesideKind::SettingInBlock,
            leading_spaces(line),
            trim(line).len(),
        ))?;
    }
    let kind = if here.above.in_example {
        BesideKind::StampInExample
    } else {
        BesideKind::StampInBlock
    };
    push_first_active(notes, here, kind, line)
}

// Puts a finding of this kind where the first active stamp of the line stands.
pub(crate) fn push_first_active(
    notes: &mut Notes,
    here: Here,
    kind: BesideKind,
    line: &[u8],
) -> Result<(), AllocError> {
    for found in stamps_in(line) {
        if found.stamp.active {
            return notes.push(here.note(kind, found.at, found.len));
        }
    }
    Ok(())
}

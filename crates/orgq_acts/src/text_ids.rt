//! The short ids that headings have in the text that their file gets.

use crate::heading::HeadingText;
use org_base::{Code, Fault, Texts};
use org_client::{FileSet, HeadingAt, RowIds};
use org_text::{Text, Whole};
use std::alloc::{AllocError, Global};

// How many letters acts print: they do over any files.
const LETTERS: usize = 8;

/// The short ids of the headings on some lines of a text that a heading's file gets; an empty one where no heading stands there.
pub fn ids_on_lines(
    alloc: Global,
    heading: &HeadingText,
    text: &str,
    lines: &[u64],
) -> Result<Texts, AllocError> {
    match found_ids(alloc, heading, text, lines) {
        Ok(ids) => Ok(ids),
        Err(fault) => match fault.code() {
            Code::Memory => Err(AllocError),
            _ => Ok(Texts::new(alloc)),
        },
    }
}

/// The id at a place among some.
pub fn id_at(ids: &Texts, place: usize) -> &[u8] {
    if place < ids.count() {
        ids.get(place)
    } else {
        &[]
    }
}

fn found_ids(
    alloc: Global,
    heading: &HeadingText,
    text: &str,
    lines: &[u64],
) -> Result<Texts, Fault> {
    let file_set = file_of(alloc, heading, text)?;
    let inherits = file_set.inherits()?;
    let found = headings_on(alloc, &file_set, lines)?;
    let ids = RowIds::of(alloc, &file_set, &inherits, found.as_slice())?;
    texts_of(alloc, &ids, found.as_slice())
}

// A heading's file with a text.
fn file_of(alloc: Global, heading: &HeadingText, text: &str) -> Result<FileSet<Whole>, Fault> {
    let mut file_set: FileSet<Whole> = FileSet::new(alloc, Texts::new(alloc));
    let whole = Whole::of_string(alloc, heading.with_behind(alloc, text)?)?;
    let name = String::from_str(alloc, heading.name.as_str())?;
    let path = String::from_str(alloc, heading.path.as_str())?;
    file_set.add_behind(name, path, whole, heading.behind.len())?;
    Ok(file_set)
}

// The headings on some lines of the one file.
fn headings_on(
    alloc: Global,
    file_set: &FileSet<Whole>,
    lines: &[u64],
) -> Result<Vec<HeadingAt>, AllocError> {
    let mut found = Vec::new(alloc);
    for line in lines {
        found.push(HeadingAt {
            file: 0,
            heading: file_set.section_on(0, *line).unwrap_or(usize::MAX),
        })?;
    }
    Ok(found)
}

fn texts_of(alloc: Global, ids: &RowIds, headings: &[HeadingAt]) -> Result<Texts, Fault> {
    let mut texts = Texts::new(alloc);
    for heading in headings {
        push_text(alloc, &mut texts, ids, *heading)?;
    }
    Ok(texts)
}

fn push_text(
    alloc: Global,
    texts: &mut Texts,
    ids: &RowIds,
    heading: HeadingAt,
) -> Result<(), Fault> {
    let mut id = Vec::new(alloc);
    ids.push(&mut id, heading, LETTERS)?;
    texts.push(id.as_slice())
}

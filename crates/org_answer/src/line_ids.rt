//! The short ids of the headings of lines.
ghost use Rattle.std.specs.Prelude.{◌<◌, ◌≤◌, ◌++◌, ◌∷◌, [], OnOk};
ghost use Rattle.org_base.specs.Results.{Adds};
ghost use Rattle.org_client.specs.RowIds.{id_text};
ghost use Rattle.org_answer.specs.Shown.{AddsClean};

use crate::placed::heading_of;
use org_client::{HeadingAt, LoadReport, OneLine, ViewRow};
use org_layout::Line;
use org_text::Text;
use std::alloc::{AllocError, Global};

/// Appends the short id of a line's heading, if rows have ids and it has a heading, and a byte behind it.
#[tactic(auto, using(crate::proofs::ShownLemmas::places_nothing))]
pub fn push_line_id<T: Text>(
    out: &mut Vec<u8>,
    files: &LoadReport<'_, '_, T>,
    line: &Line,
    behind: u8,
) -> Result<(), AllocError>
    requires low { 32 ≤ behind }
    requires high { behind < 127 }
    ensures clean { OnOk result (AddsClean out.old.items out.new.items) }
{
    match heading_of(line) {
        Some((file, heading)) => push_heading_id(out, files, HeadingAt { file, heading }, behind),
        None => Ok(()),
    }
}

/// Appends the short id of a heading, if rows have ids, and a byte behind it.
#[tactic(auto, using(crate::proofs::IdLemmas::told_id, crate::proofs::ShownLemmas::places_nothing))]
pub(crate) fn push_heading_id<T: Text>(
    out: &mut Vec<u8>,
    files: &LoadReport<'_, '_, T>,
    heading: HeadingAt,
    behind: u8,
) -> Result<(), AllocError>
    requires low { 32 ≤ behind }
    requires high { behind < 127 }
    ensures clean { OnOk result (AddsClean out.old.items out.new.items) }
{
    if files.ids().is_none() {
        return Ok(());
    }
    push_told(out, files, heading, behind)?;
    Ok(())
}

fn push_told<T: Text>(
    out: &mut Vec<u8>,
    files: &LoadReport<'_, '_, T>,
    heading: HeadingAt,
    behind: u8,
) -> Result<(), AllocError>
    ensures value { Adds result out.old out.new (id_text files.now.ids heading 0 ++ behind ∷ []) }
{
    files.ids().push(out, heading, 0)?;
    out.push(behind)?;
    Ok(())
}

/// Appends the short id of a row's heading as one more field, if rows have ids; it is empty where the row has no heading.
pub(crate) fn push_id_field<T: Text>(
    alloc: Global,
    line: &mut OneLine,
    files: &LoadReport<'_, '_, T>,
    row: &ViewRow,
) -> Result<(), AllocError> {
    if files.ids().is_none() {
        return Ok(());
    }
    let mut id = Vec::new(alloc);
    if let Some((file, heading)) = row.heading() {
        files.ids().push(&mut id, HeadingAt { file, heading }, 0)?;
    }
    line.push(b',')?;
    line.field(id.as_slice())
}

/// The headings of lines, by the places of their files and sections.
pub fn headings_of_lines(alloc: Global, lines: &[Line]) -> Result<Vec<HeadingAt>, AllocError> {
    let mut headings = Vec::new(alloc);
    for line in lines {
        if let Some((file, heading)) = heading_of(line) {
            headings.push(HeadingAt { file, heading })?;
        }
    }
    Ok(headings)
}

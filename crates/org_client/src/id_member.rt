//! The short id of a row's heading among its members.
ghost use Rattle.std.specs.Prelude.{◌≡◌, ◌++◌, OnOk};
ghost use Rattle.org_base.specs.Results.{GivesItems};
ghost use Rattle.org_client.specs.Objects.{id_member_of, row_id};

use crate::one_line::OneLine;
use crate::row_ids::HeadingAt;
use crate::rows::{LoadReport, ViewRow};
use org_text::Text;
use std::alloc::{AllocError, Global};

/// Puts the member `id`, if rows have ids and the row is one of a heading.
pub(crate) fn push_id_member<T: Text>(
    alloc: Global,
    line: &mut OneLine,
    files: &LoadReport<'_, '_, T>,
    row: &ViewRow,
) -> Result<(), AllocError>
    ensures ok { OnOk result (line.new ≡ line.old ++ id_member_of (row_id files.now row.now)) }
{
    let id = id_text(alloc, files, row)?;
    push_some(line, id.as_slice())
}

fn push_some(line: &mut OneLine, id: &[u8]) -> Result<(), AllocError>
    ensures ok { OnOk result (line.new ≡ line.old ++ id_member_of id.now) }
{
    match id {
        [] => Ok(()),
        _ => line.text("id", id),
    }
}

/// The short id of a row's heading; none where rows have no ids.
pub(crate) fn id_text<T: Text>(
    alloc: Global,
    files: &LoadReport<'_, '_, T>,
    row: &ViewRow,
) -> Result<Vec<u8>, AllocError>
    ensures value { GivesItems result (row_id files.now row.now) }
{
    let mut text = Vec::new(alloc);
    if let Some((file, heading)) = row.heading() {
        files.ids().push(&mut text, HeadingAt { file, heading }, 0)?;
    }
    Ok(text)
}

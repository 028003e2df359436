//! Rows as objects of JSON, each in one line.
ghost use Rattle.std.specs.Prelude.{◌≡◌, ◌++◌, OnOk};
ghost use Rattle.org_base.specs.Results.{Gives};
ghost use Rattle.org_client.specs.Json.{ended};
ghost use Rattle.org_client.specs.Objects.{day_object, row_object};

use crate::id_member::push_id_member;
use crate::members::Members;
use crate::one_line::OneLine;
use crate::properties::push_properties;
use crate::row_members::{kind_of, put_members};
use crate::rows::{LoadReport, ViewRow};
use org_base::Fault;
use org_cal::Day;
use org_text::Text;
use std::alloc::{AllocError, Global};

/// The object of a row: its kind, then those members that apply, the properties that are asked for, at last the text of
/// its line.
pub fn json_line<T: Text>(
    alloc: Global,
    files: &LoadReport<'_, '_, T>,
    row: &ViewRow,
    text: &[u8],
) -> Result<OneLine, Fault>
    ensures value { Gives result (row_object files.now row.now text.now) }
{
    let mut members = Members::of_object(alloc, kind_of(row))?;
    put_members(alloc, &mut members, files, row)?;
    let mut line = members.into_line();
    push_properties(alloc, &mut line, files, row)?;
    push_id_member(alloc, &mut line, files, row)?;
    end(&mut line, text)?;
    Ok(line)
}

/// The object of a day: its kind, the day, and the text of its line.
pub fn day_line(alloc: Global, day: Day, text: &[u8]) -> Result<OneLine, Fault>
    ensures value { Gives result (day_object day text.now) }
{
    let mut members = Members::of_object(alloc, "day")?;
    members.date("day", Some(day))?;
    let mut line = members.into_line();
    end(&mut line, text)?;
    Ok(line)
}

/// Appends the text of a row's line as the last member of its object.
pub(crate) fn end(line: &mut OneLine, text: &[u8]) -> Result<(), AllocError>
    ensures ok { OnOk result (line.new ≡ line.old ++ ended text.now) }
{
    line.text("text", text)?;
    line.push(b'}')
}

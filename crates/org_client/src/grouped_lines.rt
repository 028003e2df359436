//! Rows with the group that they stand in, in forms of their own.

use crate::id_member::push_id_member;
use crate::json::end;
use crate::members::Members;
use crate::one_line::OneLine;
use crate::properties::push_properties;
use crate::row_members::{kind_of, put_members};
use crate::rows::{LoadReport, ViewRow};
use crate::template::{Part, Template, first_part, value_of};
use org_base::Fault;
use org_text::Text;
use std::alloc::{AllocError, Global};

/// The text of a row's line, and the name of the group that it stands in, if it is in one.
#[derive(Clone, Copy, Debug)]
pub struct GroupedText<'a> {
    pub text: &'a [u8],
    pub group: Option<&'a [u8]>,
}

/// The object of a row, as [`json_line`](crate::json_line) has it, with its group before its text.
pub fn grouped_json_line<T: Text>(
    alloc: Global,
    files: &LoadReport<'_, '_, T>,
    row: &ViewRow,
    shown: &GroupedText<'_>,
) -> Result<OneLine, Fault> {
    let mut members = Members::of_object(alloc, kind_of(row))?;
    put_members(alloc, &mut members, files, row)?;
    let mut line = members.into_line();
    end_object(alloc, &mut line, files, row, shown)?;
    Ok(line)
}

/// Appends to an object of a row what stands at its end: the properties that are asked for, its short id, its group, and the text
/// of its line.
pub fn end_object<T: Text>(
    alloc: Global,
    line: &mut OneLine,
    files: &LoadReport<'_, '_, T>,
    row: &ViewRow,
    shown: &GroupedText<'_>,
) -> Result<(), Fault> {
    push_properties(alloc, line, files, row)?;
    push_id_member(alloc, line, files, row)?;
    if let Some(group) = shown.group {
        line.text("group", group)?;
    }
    end(line, shown.text)?;
    Ok(())
}

/// Appends a row's group as one more field; it is empty where the row is in none.
pub fn push_group_field(line: &mut OneLine, group: Option<&[u8]>) -> Result<(), AllocError> {
    line.push(b',')?;
    line.field(group.unwrap_or(b""))
}

/// The line of a row after a template, as [`template_line`](crate::template_line) has it, where `{group}` is its group.
pub fn grouped_template_line<T: Text>(
    alloc: Global,
    files: &LoadReport<'_, '_, T>,
    row: &ViewRow,
    shown: &GroupedText<'_>,
    template: &Template<'_>,
) -> Result<OneLine, Fault> {
    let mut line = OneLine::new(alloc);
    let mut rest = template.text;
    for _part in 0..template.text.len() {
        if rest.is_empty() {
            break;
        }
        let (part, behind) = first_part(rest);
        match part {
            Part::Text(words) => line.push_seen(words.as_bytes())?,
            Part::Name("group") => line.push_seen(shown.group.unwrap_or(b""))?,
            Part::Name(name) => {
                let value = value_of(alloc, files, row, shown.text, name)?;
                line.append(&value)?;
            }
            Part::Brace => {}
        }
        rest = behind;
    }
    Ok(line)
}

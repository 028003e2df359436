//! Rows in forms of their own.

use crate::facts::Fact;
use crate::members::{push_fields, put_fact};
use org_answer::{Form, PrintOptions};
use org_base::Fault;
use org_client::{
    GroupedText, HeadingAt, LoadReport, Members, OneLine, Part, Template, ViewRow, csv_line,
    end_object, first_part, push_group_field, put_members,
};
use org_layout::ShownRow;
use org_text::Text;
use std::alloc::{AllocError, Global};

/// A row, what is said of its heading, the kind of that, the text of its line, and the group that it stands in, if rows stand in
/// groups.
#[derive(Clone, Copy)]
pub(crate) struct ShownText<'a> {
    pub row: ShownRow,
    pub fact: &'a Fact<'a>,
    pub kind: &'static str,
    pub text: &'a [u8],
    pub group: Option<&'a [u8]>,
    pub is_grouped: bool,
}

/// The line of a row in a form of its own.
pub(crate) fn row_line<T: Text>(
    alloc: Global,
    files: &LoadReport<'_, '_, T>,
    shown: &ShownText<'_>,
    look: &PrintOptions<'_, '_>,
) -> Result<OneLine, Fault> {
    match look.form {
        Form::Csv => csv_of(alloc, files, shown),
        Form::Template(template) => template_of(alloc, files, shown, &template),
        Form::Json | Form::Plain | Form::Places => json_of(alloc, files, shown),
    }
}

// The object of a row: what its heading says, what is said of it, and what stands at the end of all objects of rows.
fn json_of<T: Text>(
    alloc: Global,
    files: &LoadReport<'_, '_, T>,
    shown: &ShownText<'_>,
) -> Result<OneLine, Fault> {
    let row = ViewRow::Row(shown.row);
    let mut members = Members::of_object(alloc, shown.kind)?;
    put_members(alloc, &mut members, files, &row)?;
    put_fact(&mut members, shown.fact)?;
    let mut line = members.into_line();
    let end = GroupedText {
        text: shown.text,
        group: shown.group,
    };
    end_object(alloc, &mut line, files, &row, &end)?;
    Ok(line)
}

// The fields of a row: those of its heading in a list, and what is said of it; then the short id, if rows have ids, and the group, if
// they stand in groups.
fn csv_of<T: Text>(
    alloc: Global,
    files: &LoadReport<'_, '_, T>,
    shown: &ShownText<'_>,
) -> Result<OneLine, Fault> {
    let row = ViewRow::Row(shown.row);
    let mut line = csv_line(alloc, files, &row, shown.kind)?;
    push_fields(alloc, &mut line, shown.fact)?;
    if !files.ids().is_none() {
        let id = id_of(alloc, files, shown)?;
        line.push(b',')?;
        line.field(id.as_slice())?;
    }
    if shown.is_grouped {
        push_group_field(&mut line, shown.group)?;
    }
    Ok(line)
}

// The short id of a row's heading; none where rows have no ids.
fn id_of<T: Text>(
    alloc: Global,
    files: &LoadReport<'_, '_, T>,
    shown: &ShownText<'_>,
) -> Result<Vec<u8>, AllocError> {
    let at = HeadingAt {
        file: shown.row.row.file,
        heading: shown.row.row.heading,
    };
    let mut id = Vec::new(alloc);
    files.ids().push(&mut id, at, 0)?;
    Ok(id)
}

// The line of a row after a template.
fn template_of<T: Text>(
    alloc: Global,
    files: &LoadReport<'_, '_, T>,
    shown: &ShownText<'_>,
    template: &Template<'_>,
) -> Result<OneLine, Fault> {
    let mut line = OneLine::new(alloc);
    let mut rest = template.text();
    for _part in 0..template.text().len() {
        if rest.is_empty() {
            break;
        }
        let (part, behind) = first_part(rest);
        match part {
            Part::Text(words) => line.push_seen(words.as_bytes())?,
            Part::Name(name) => {
                let value = value_of(alloc, files, shown, name)?;
                line.append(&value)?;
            }
            Part::Brace => {}
        }
        rest = behind;
    }
    Ok(line)
}

// The value of a row's member; nothing where the row lacks it.
fn value_of<T: Text>(
    alloc: Global,
    files: &LoadReport<'_, '_, T>,
    shown: &ShownText<'_>,
    name: &str,
) -> Result<OneLine, Fault> {
    let row = ViewRow::Row(shown.row);
    let mut value = Members::of_name(alloc, name);
    value.text("kind", shown.kind.as_bytes())?;
    put_members(alloc, &mut value, files, &row)?;
    put_fact(&mut value, shown.fact)?;
    let id = id_of(alloc, files, shown)?;
    value.text("id", id.as_slice())?;
    value.text("group", shown.group.unwrap_or(b""))?;
    value.text("text", shown.text)?;
    Ok(value.into_line())
}

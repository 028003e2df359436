//! The lines of headings whose sections hold what is looked for.

use crate::line_ids::push_line_id;
use crate::placed::{push_file_name, push_place};
use crate::show::{Form, PrintOptions, push_seen, push_whole, row_line};
use org_base::Fault;
use org_client::{LoadReport, ViewRow, found_line, push_first_match};
use org_layout::{Line, LineTexts, ShownRow};
use org_search::Scan;
use org_text::Text;
use std::alloc::{AllocError, Global};
use std::str;

// In front of a line that matches, in place of the column of categories.
const INDENT: &[u8] = b"              ";

/// The lines of the rows of a search, each in the form that is asked for. In lines with places or without, the first line that
/// matches follows, if it isn't the heading itself; an object of JSON has all of them.
pub fn found_bytes<T: Text>(
    alloc: Global,
    files: &LoadReport<'_, '_, T>,
    lines: &[Line],
    scan: &mut Scan<'_>,
    look: &PrintOptions<'_, '_>,
) -> Result<Vec<u8>, Fault> {
    let mut texts = LineTexts::of(alloc, files.inherits, lines)?;
    let mut text = String::new(alloc);
    let mut out = Vec::new(alloc);
    for line in lines {
        text.clear();
        texts.push(&mut text, false, line)?;
        let found = FoundText {
            line,
            text: text.as_str().trim_end_matches('\n'),
            look,
        };
        push_found(alloc, &mut out, files, &found, scan)?;
    }
    Ok(out)
}

// A row that was found, with its text, and how it is printed.
#[derive(Clone, Copy)]
struct FoundText<'a, 'b, 'c> {
    line: &'a Line,
    text: &'a str,
    look: &'a PrintOptions<'b, 'c>,
}

impl FoundText<'_, '_, '_> {
    fn row(&self) -> Option<ShownRow> {
        match self.line {
            Line::Row(shown) => Some(*shown),
            _ => None,
        }
    }
}

// Appends a row in its form.
fn push_found<T: Text>(
    alloc: Global,
    out: &mut Vec<u8>,
    files: &LoadReport<'_, '_, T>,
    found: &FoundText<'_, '_, '_>,
    scan: &mut Scan<'_>,
) -> Result<(), Fault> {
    let Some(shown) = found.row() else {
        return Ok(());
    };
    let text = found.text.as_bytes();
    match found.look.form {
        Form::Plain | Form::Places => push_lines(alloc, out, files, found, scan),
        Form::Json => {
            let line = found_line(alloc, files, &shown, text, scan)?;
            Ok(push_whole(out, &line)?)
        }
        Form::Csv | Form::Template(_) => {
            let line = row_line(alloc, files, &ViewRow::Row(shown), text, found.look)?;
            Ok(push_whole(out, &line)?)
        }
    }
}

// Appends the line of a row and, if it isn't the heading's, the first one that matches.
fn push_lines<T: Text>(
    alloc: Global,
    out: &mut Vec<u8>,
    files: &LoadReport<'_, '_, T>,
    found: &FoundText<'_, '_, '_>,
    scan: &mut Scan<'_>,
) -> Result<(), Fault> {
    let is_seen = found.look.is_seen;
    match found.look.form {
        Form::Places => push_place(alloc, out, files, found.line, is_seen)?,
        Form::Plain | Form::Json | Form::Csv | Form::Template(_) => {
            push_line_id(out, files, found.line, b' ')?;
        }
    }
    push_seen(out, found.text, is_seen)?;
    out.push(b'\n')?;
    let Some(shown) = found.row() else {
        return Ok(());
    };
    let mut bytes = Vec::new(alloc);
    let (file, heading) = (shown.row.file, shown.row.heading);
    let Some(number) = push_first_match(alloc, &mut bytes, files.file_set, &shown.row, scan)? else {
        return Ok(());
    };
    if files
        .file_set
        .place(file, heading)
        .is_some_and(|place| place.line == number)
    {
        return Ok(());
    }
    if found.look.form == Form::Places && file < files.file_set.count() {
        let name = files.file_set.file(file).name();
        push_line_place(alloc, out, name, number, is_seen)?;
    }
    push_text(out, text_of(bytes.as_slice()), is_seen)?;
    Ok(())
}

// The text of bytes that were one.
fn text_of(bytes: &[u8]) -> &str {
    str::from_utf8(bytes).unwrap_or("")
}

// Appends a line that matches, without the blanks in front of it.
fn push_text(out: &mut Vec<u8>, text: &str, is_seen: bool) -> Result<(), AllocError> {
    out.extend_from_slice(INDENT)?;
    push_seen(
        out,
        text.trim_start_matches(|c: char| c == ' ' || c == '\t'),
        is_seen,
    )?;
    out.push(b'\n')?;
    Ok(())
}

// Appends the name of a file and the number of one of its lines.
fn push_line_place(
    alloc: Global,
    out: &mut Vec<u8>,
    name: &str,
    number: u32,
    is_seen: bool,
) -> Result<(), AllocError> {
    push_file_name(out, name, is_seen)?;
    let text = format!(in alloc; ":{number}:")?;
    out.extend_from_slice(text.as_bytes())
}

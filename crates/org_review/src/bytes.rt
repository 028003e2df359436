//! The bytes of rows.
use crate::facts::{Fact, Facts};
use crate::row_line::{ShownText, row_line};
use crate::row_text::{category_text, heading_text};
use crate::texts::{Shades, fact_text};
use org_agenda::Row;
use org_answer::{
    Form, GroupedLine, GroupedLines, PrintOptions, group_title, push_line_id, push_place,
    push_seen, push_title, push_whole,
};
use org_base::Fault;
use org_client::{GroupBy, LoadReport};
use org_inherit::Heading;
use org_layout::{Line, ShownRow};
use org_text::Text;
use std::alloc::{AllocError, Global};

/// How rows are printed: what is said of their headings, in which colours, by what they stand in groups, and as all answers are.
#[derive(Clone, Copy)]
pub struct ReviewLook<'a, 'b, 'c, 'd> {
    pub facts: Facts<'d>,
    pub shades: Shades,
    pub by: Option<GroupBy>,
    pub look: &'a PrintOptions<'b, 'c>,
}

/// The bytes of the first rows that are arranged, as many as may be shown, each in the form that is asked for.
pub fn review_bytes<T: Text>(
    alloc: Global,
    files: &LoadReport<'_, '_, T>,
    arranged: &GroupedLines,
    shown: &ReviewLook<'_, '_, '_, '_>,
) -> Result<Vec<u8>, Fault> {
    let mut out = Vec::new(alloc);
    let mut group: Option<usize> = None;
    let mut left = shown.look.limit.unwrap_or(u32::MAX);
    for line in arranged.lines() {
        if left == 0 {
            break;
        }
        match line {
            GroupedLine::Group(place) => {
                group = *place;
                push_name(&mut out, arranged.name(group), shown)?;
            }
            GroupedLine::Own(Line::Row(row)) => {
                let of = GroupedRow {
                    row: *row,
                    group: arranged.name(group),
                };
                push_row(alloc, &mut out, files, &of, shown)?;
                left -= 1;
            }
            GroupedLine::Own(_) => {}
        }
    }
    Ok(out)
}

// A row, and the name of its group, if it stands in one.
#[derive(Clone, Copy)]
struct GroupedRow<'a> {
    row: ShownRow,
    group: Option<&'a [u8]>,
}

// Appends the line of a group, in the forms that are lines of views.
fn push_name(
    out: &mut Vec<u8>,
    name: Option<&[u8]>,
    shown: &ReviewLook<'_, '_, '_, '_>,
) -> Result<(), AllocError> {
    match (shown.look.form, shown.by) {
        (Form::Plain | Form::Places, Some(by)) => {
            push_title(out, group_title(name, by), shown.look)
        }
        _ => Ok(()),
    }
}

// The text of a row in three parts: the category, what is said of its heading, and the heading.
#[derive(Drop)]
struct RowText {
    category: String,
    fact: String,
    heading: String,
}

// Appends the line of a row, if something is said of its heading.
fn push_row<T: Text>(
    alloc: Global,
    out: &mut Vec<u8>,
    files: &LoadReport<'_, '_, T>,
    of: &GroupedRow<'_>,
    shown: &ReviewLook<'_, '_, '_, '_>,
) -> Result<(), Fault> {
    let row = &of.row.row;
    let Some(fact) = shown.facts.get(row.file, row.heading) else {
        return Ok(());
    };
    let text = row_text(alloc, files, row, &fact, shown)?;
    match shown.look.form {
        Form::Plain | Form::Places => {
            push_front(alloc, out, files, &Line::Row(of.row), shown.look)?;
            Ok(push_text(out, &text, shown.look.is_seen)?)
        }
        Form::Json | Form::Csv | Form::Template(_) => {
            let whole = whole_text(alloc, &text)?;
            let of_row = ShownText {
                row: of.row,
                fact: &fact,
                kind: shown.facts.kind(),
                text: whole.as_bytes(),
                group: of.group,
                is_grouped: shown.by.is_some(),
            };
            let line = row_line(alloc, files, &of_row, shown.look)?;
            Ok(push_whole(out, &line)?)
        }
    }
}

// The text of a row: what is said of its heading in colours only where its line is one of the view.
fn row_text<T: Text>(
    alloc: Global,
    files: &LoadReport<'_, '_, T>,
    row: &Row,
    fact: &Fact<'_>,
    shown: &ReviewLook<'_, '_, '_, '_>,
) -> Result<RowText, Fault> {
    let shades = Shades {
        today: shown.shades.today,
        background: match shown.look.form {
            Form::Plain | Form::Places => shown.shades.background,
            Form::Json | Form::Csv | Form::Template(_) => None,
        },
    };
    let mut text = RowText {
        category: String::new(alloc),
        fact: fact_text(alloc, fact, &shades)?,
        heading: String::new(alloc),
    };
    if let Some(heading) = Heading::find(files.inherits, row.file, row.heading) {
        text.category = category_text(alloc, &heading)?;
        text.heading = heading_text(alloc, &heading)?;
    }
    Ok(text)
}

fn whole_text(alloc: Global, text: &RowText) -> Result<String, AllocError> {
    let mut whole = String::from_str(alloc, text.category.as_str())?;
    whole.push_str(text.fact.as_str())?;
    whole.push_str(text.heading.as_str())?;
    Ok(whole)
}

// Appends where the heading of a row stands, if that is wanted, else its short id, if rows have ids.
fn push_front<T: Text>(
    alloc: Global,
    out: &mut Vec<u8>,
    files: &LoadReport<'_, '_, T>,
    line: &Line,
    look: &PrintOptions<'_, '_>,
) -> Result<(), AllocError> {
    match look.form {
        Form::Places => push_place(alloc, out, files, line, look.is_seen),
        _ => push_line_id(out, files, line, b' '),
    }
}

// Appends the text of a row as a line.
fn push_text(out: &mut Vec<u8>, text: &RowText, is_seen: bool) -> Result<(), AllocError> {
    push_seen(out, text.category.as_str(), is_seen)?;
    out.extend_from_slice(text.fact.as_bytes())?;
    push_seen(out, text.heading.as_str(), is_seen)?;
    out.push(b'\n')?;
    Ok(())
}

//! Answers whose rows stand in groups.
ghost use Rattle.std.specs.Prelude.{IfOk};
ghost use Rattle.org_answer.specs.Shown.{AreCleanLines, IsSafe, KeepsClean};

use crate::arranging::Arrangement;
use crate::limits::left_after;
use crate::show::{
    Form, LineOfAnswer, PrintOptions, Written, is_due, push_line, push_title, push_whole, row_line,
};
use crate::view::Answer;
use org_base::{Fault, Texts};
use org_client::{
    GroupBy, GroupedText, LoadReport, OneLine, ViewRow, group_names, grouped_json_line,
    grouped_template_line, push_group_field,
};
use org_inherit::Inherits;
use org_layout::{Line, ShownRow};
use org_order::{GroupedRow, Groups};
use org_text::Text;
use std::alloc::{AllocError, Global};

/// A line of an answer in groups.
#[derive(Clone, Copy, Debug, PartialEq, Eq)]
pub enum GroupedLine {
    /// One that the answer has.
    Own(Line),
    /// One for a group, whose name stands at a place, if it has one.
    Group(Option<usize>),
}

/// The lines of an answer in groups, and the names of the groups.
#[derive(Debug, Drop)]
pub struct GroupedLines {
    lines: Vec<GroupedLine>,
    names: Texts,
}

impl GroupedLines {
    /// The lines.
    pub fn lines(&self) -> &[GroupedLine] {
        self.lines.as_slice()
    }

    /// The name of the group at a place, if it has one.
    pub fn name(&self, place: Option<usize>) -> Option<&[u8]> {
        name_at(&self.names, place)
    }
}

/// The lines of an answer as they are arranged: in groups where these are asked for, each row in each of its groups.
pub fn arranged_lines(
    alloc: Global,
    inherits: &Inherits<'_>,
    answer: &Answer,
    arrangement: &Arrangement<'_>,
) -> Result<GroupedLines, Fault> {
    let lines = answer.lines.as_slice();
    match arrangement.by {
        Some(by) => grouped_lines(alloc, inherits, lines, by, arrangement),
        None => own_lines(alloc, lines),
    }
}

// Lines in no groups.
fn own_lines(alloc: Global, lines: &[Line]) -> Result<GroupedLines, Fault> {
    let mut own = GroupedLines {
        lines: Vec::new(alloc),
        names: Texts::new(alloc),
    };
    for line in lines {
        own.lines.push(GroupedLine::Own(*line))?;
    }
    Ok(own)
}

/// What the group of a name is called, or the one without a name.
pub fn group_title(name: Option<&[u8]>, by: GroupBy) -> &str {
    match name {
        Some(name) => text_of(name),
        None => by.without(),
    }
}

/// The bytes of the first rows of an answer in groups, those of each day by themselves: a line for each group, or what a row's
/// form has for it. A row stands in each of its groups, and counts in each.
#[tactic(auto, using(crate::proofs::ShownLemmas::no_lines))]
pub fn grouped_bytes<T: Text>(
    alloc: Global,
    files: &LoadReport<'_, '_, T>,
    answer: &Answer,
    arrangement: &Arrangement<'_>,
    look: &PrintOptions<'_, '_>,
) -> Result<Vec<u8>, Fault>
    ensures clean { IsSafe look.now → IfOk result (λ out. AreCleanLines out.items) }
{
    let Some(by) = arrangement.by else {
        return Ok(Vec::new(alloc));
    };
    let lines = answer.lines.as_slice();
    let grouped = grouped_lines(alloc, files.inherits, lines, by, arrangement)?;
    let mut written = Written::new(alloc, files.inherits, lines, answer.with_effort)?;
    bytes_of(
        alloc,
        files,
        &mut written,
        &grouped,
        &GroupLook { by, look },
    )
}

// How groups are printed: by what they are made, and how answers are.
#[derive(Clone, Copy)]
struct GroupLook<'a, 'b, 'c> {
    by: GroupBy,
    look: &'a PrintOptions<'b, 'c>,
}

// The lines of an answer with the rows between any two that are no rows in groups.
fn grouped_lines(
    alloc: Global,
    inherits: &Inherits<'_>,
    lines: &[Line],
    by: GroupBy,
    arrangement: &Arrangement<'_>,
) -> Result<GroupedLines, Fault> {
    let mut grouped = GroupedLines {
        lines: Vec::new(alloc),
        names: Texts::new(alloc),
    };
    let mut rows = Vec::new(alloc);
    for line in lines {
        match line {
            Line::Row(shown) => rows.push(*shown)?,
            Line::Day(_) | Line::Step(..) | Line::Table(_) => {
                let groups = groups_of(alloc, inherits, rows.as_slice(), by, arrangement)?;
                push_groups(&mut grouped, rows.as_slice(), &groups)?;
                rows.clear();
                grouped.lines.push(GroupedLine::Own(*line))?;
            }
        }
    }
    let groups = groups_of(alloc, inherits, rows.as_slice(), by, arrangement)?;
    push_groups(&mut grouped, rows.as_slice(), &groups)?;
    Ok(grouped)
}

// The groups of rows, in their order.
fn groups_of(
    alloc: Global,
    inherits: &Inherits<'_>,
    rows: &[ShownRow],
    by: GroupBy,
    arrangement: &Arrangement<'_>,
) -> Result<Groups, Fault> {
    let mut groups = Groups::new(alloc);
    for place in 0..rows.len() {
        let names = group_names(alloc, inherits, &rows[place], by, arrangement.today)?;
        add_row(&mut groups, &names, place)?;
    }
    groups.put_in_order()?;
    Ok(groups)
}

// Puts a row into the groups of its names, or into the one without a name.
fn add_row(groups: &mut Groups, names: &Texts, place: usize) -> Result<(), AllocError> {
    if names.count() == 0 {
        return groups.add_unnamed(place);
    }
    for name in 0..names.count() {
        groups.add(names.get(name), place)?;
    }
    Ok(())
}

// Appends the lines of groups: of each its own, and those of its rows.
fn push_groups(
    grouped: &mut GroupedLines,
    rows: &[ShownRow],
    groups: &Groups,
) -> Result<(), Fault> {
    let mut last = None;
    for row in groups.rows() {
        if last != Some(row.group) {
            let place = keep_name(&mut grouped.names, groups, row)?;
            grouped.lines.push(GroupedLine::Group(place))?;
            last = Some(row.group);
        }
        if let Some(shown) = rows.get(row.place) {
            grouped.lines.push(GroupedLine::Own(Line::Row(*shown)))?;
        }
    }
    Ok(())
}

// Keeps the name of a row's group, if it has one, and gives its place among the names.
fn keep_name(names: &mut Texts, groups: &Groups, row: &GroupedRow) -> Result<Option<usize>, Fault> {
    let Some(name) = groups.name(row.group) else {
        return Ok(None);
    };
    let place = names.count();
    names.push(name)?;
    Ok(Some(place))
}

#[tactic(auto, using(crate::proofs::ShownLemmas::no_lines))]
fn bytes_of<T: Text>(
    alloc: Global,
    files: &LoadReport<'_, '_, T>,
    written: &mut Written<'_, '_>,
    grouped: &GroupedLines,
    shown: &GroupLook<'_, '_, '_>,
) -> Result<Vec<u8>, Fault>
    ensures clean { IsSafe shown.now.look.now → IfOk result (λ out. AreCleanLines out.items) }
{
    let mut out = Vec::new(alloc);
    let mut group: Option<usize> = None;
    let mut left = shown.look.limit.unwrap_or(u32::MAX);
    for line in grouped.lines.as_slice() {
        if left == 0 {
            break;
        }
        match line {
            GroupedLine::Group(place) => {
                group = *place;
                push_name(&mut out, name_at(&grouped.names, group), shown)?;
            }
            GroupedLine::Own(line) => {
                let own = OwnLine {
                    line,
                    group: name_at(&grouped.names, group),
                    look: shown.look,
                };
                push_own(alloc, &mut out, files, written, &own)?;
                left = left_after(left, line);
            }
        }
    }
    Ok(out)
}

// The name at a place, if a group has one.
fn name_at(names: &Texts, place: Option<usize>) -> Option<&[u8]> {
    match place {
        Some(place) if place < names.count() => Some(names.get(place)),
        _ => None,
    }
}

// Appends the line of a group, bold where days are, in the forms that are lines of views.
fn push_name(
    out: &mut Vec<u8>,
    name: Option<&[u8]>,
    shown: &GroupLook<'_, '_, '_>,
) -> Result<(), AllocError>
    ensures clean { IsSafe shown.now.look.now → KeepsClean result out.old out.new }
{
    match shown.look.form {
        Form::Plain | Form::Places => push_title(out, group_title(name, shown.by), shown.look),
        Form::Json | Form::Csv | Form::Template(_) => Ok(()),
    }
}

fn text_of(bytes: &[u8]) -> &str {
    str::from_utf8(bytes).unwrap_or("")
}

// A line that an answer has, the name of its group, if it is in one, and how it is printed.
#[derive(Clone, Copy)]
struct OwnLine<'a, 'b, 'c, 'd> {
    line: &'a Line,
    group: Option<&'a [u8]>,
    look: &'b PrintOptions<'c, 'd>,
}

fn push_own<T: Text>(
    alloc: Global,
    out: &mut Vec<u8>,
    files: &LoadReport<'_, '_, T>,
    written: &mut Written<'_, '_>,
    own: &OwnLine<'_, '_, '_, '_>,
) -> Result<(), Fault>
    ensures clean { IsSafe own.now.look.now → KeepsClean result out.old out.new }
{
    written.write(own.line)?;
    let shown = LineOfAnswer {
        line: own.line,
        is_due: is_due(files.inherits, own.line),
        days: &written.days,
        text: written.text.as_str().trim_end_matches('\n'),
    };
    match own.look.form {
        Form::Plain | Form::Places => push_line(alloc, out, files, &shown, own.look),
        Form::Json | Form::Csv | Form::Template(_) => push_row(alloc, out, files, &shown, own),
    }
}

// Appends the line of a row in a form of its own.
fn push_row<T: Text>(
    alloc: Global,
    out: &mut Vec<u8>,
    files: &LoadReport<'_, '_, T>,
    shown: &LineOfAnswer<'_>,
    own: &OwnLine<'_, '_, '_, '_>,
) -> Result<(), Fault>
    ensures clean { IsSafe own.now.look.now → KeepsClean result out.old out.new }
{
    let Some(row) = shown.row() else {
        return push_line(alloc, out, files, shown, own.look);
    };
    let text = GroupedText {
        text: shown.text.as_bytes(),
        group: own.group,
    };
    push_whole(out, &grouped_line(alloc, files, &row, &text, own.look)?)?;
    Ok(())
}

fn grouped_line<T: Text>(
    alloc: Global,
    files: &LoadReport<'_, '_, T>,
    row: &ViewRow,
    text: &GroupedText<'_>,
    look: &PrintOptions<'_, '_>,
) -> Result<OneLine, Fault> {
    match look.form {
        Form::Csv => {
            let mut line = row_line(alloc, files, row, text.text, look)?;
            push_group_field(&mut line, text.group)?;
            Ok(line)
        }
        Form::Template(template) => grouped_template_line(alloc, files, row, text, &template),
        Form::Json | Form::Plain | Form::Places => grouped_json_line(alloc, files, row, text),
    }
}

//! Answers as they are printed.
ghost use Rattle.std.specs.Prelude.{◌≡◌, [], ◌∷◌, ◌++◌, true, IfOk};
ghost use Rattle.org_base.specs.Results.{Adds};
ghost use Rattle.org_answer.specs.Shown.{AreCleanLines, IsSafe, KeepsClean, color_of, line_in, shown_text, title_in};

use crate::day::DayCanvas;
use crate::labels::is_due_row;
use crate::line_ids::{push_id_field, push_line_id};
use crate::placed::push_place;
use org_agenda::RowKind;
use org_base::Fault;
use org_cal::Day;
use org_client::{
    LoadReport, OneLine, ShownSum, Template, ViewRow, csv_line, day_line, json_line, template_line,
};
use org_inherit::Inherits;
use org_layout::{Line, LineTexts};
use org_text::Text;
use org_visible::{Escape, push_visible};
use std::alloc::{AllocError, Global};

/// In which form rows are printed.
#[derive(Clone, Copy, Debug, PartialEq, Eq)]
pub enum Form<'a> {
    /// The lines of the view.
    Plain,
    /// The same with `FILE:LINE:` in front of each row of a heading.
    Places,
    /// An object of JSON for each row.
    Json,
    /// The fields of a row between commas.
    Csv,
    /// A line for each row, with members of JSON in it.
    Template(Template<'a>),
}

/// How an answer is printed: its form, whether late rows and warnings stand out, whether control characters are written so
/// that they can be seen, whether short ids stand in front of rows, whether days have objects of JSON too, the words of
/// `--properties`, the kind of a list's rows, how many rows there are at most, whether the program ends after it, and what an
/// agenda of one day is drawn on where it comes in sections.
#[derive(Clone, Copy, Debug)]
pub struct PrintOptions<'a, 'b> {
    pub form: Form<'a>,
    pub is_colored: bool,
    pub is_seen: bool,
    pub has_ids: bool,
    pub has_days: bool,
    pub properties: Option<&'b [&'a str]>,
    pub list: &'static str,
    pub limit: Option<u32>,
    pub is_last: bool,
    pub canvas: Option<DayCanvas>,
}

impl PrintOptions<'_, '_> {
    /// Whether rows tell where their stamps stand.
    pub fn tells_stamps(&self) -> bool {
        matches!(self.form, Form::Json | Form::Template(_))
    }

    /// Whether rows tell their short ids.
    pub fn tells_ids(&self) -> bool {
        match &self.form {
            Form::Template(template) => self.has_ids || template.names("id"),
            Form::Plain | Form::Places | Form::Json | Form::Csv => self.has_ids,
        }
    }
}

/// Whether a line stands for a row of a day, which has a stamp.
pub fn has_stamp(line: &Line) -> bool {
    matches!(line, Line::Row(shown) if shown.day.is_some())
}

/// The bytes of some lines of a view, one by one.
pub(crate) fn lines_bytes<T: Text>(
    alloc: Global,
    files: &LoadReport<'_, '_, T>,
    lines: &[Line],
    with_effort: bool,
    look: &PrintOptions<'_, '_>,
) -> Result<Vec<u8>, Fault>
    ensures clean { IsSafe look.now → IfOk result (λ out. AreCleanLines out.items) }
{
    let mut written = Written {
        texts: LineTexts::of(alloc, files.inherits, lines)?,
        with_effort,
        text: String::new(alloc),
        days: None,
    };
    bytes_of(alloc, files, &mut written, lines, look)
}

// The text of a line, and what it is made of, which is kept from line to line; and the days of the clock table that it is of.
#[derive(Drop)]
pub(crate) struct Written<'a, 'b> {
    texts: LineTexts<'a, 'b>,
    with_effort: bool,
    pub text: String,
    pub days: Option<(Day, Day)>,
}

impl<'a, 'b> Written<'a, 'b> {
    // What these lines are written by.
    pub fn new(
        alloc: Global,
        inherits: &'a Inherits<'b>,
        lines: &[Line],
        with_effort: bool,
    ) -> Result<Written<'a, 'b>, Fault> {
        Ok(Written {
            texts: LineTexts::of(alloc, inherits, lines)?,
            with_effort,
            text: String::new(alloc),
            days: None,
        })
    }

    // Writes a line.
    pub fn write(&mut self, line: &Line) -> Result<(), Fault> {
        if let Line::Step(first, last) = line {
            self.days = Some((*first, *last));
        }
        self.text.clear();
        self.texts.push(&mut self.text, self.with_effort, line)
    }
}

#[tactic(auto, using(crate::proofs::ShownLemmas::no_lines))]
fn bytes_of<T: Text>(
    alloc: Global,
    files: &LoadReport<'_, '_, T>,
    written: &mut Written<'_, '_>,
    lines: &[Line],
    look: &PrintOptions<'_, '_>,
) -> Result<Vec<u8>, Fault>
    ensures clean { IsSafe look.now → IfOk result (λ out. AreCleanLines out.items) }
{
    let mut out = Vec::new(alloc);
    for line in lines {
        written.write(line)?;
        let shown = LineOfAnswer {
            line,
            is_due: is_due(files.inherits, line),
            days: &written.days,
            text: written.text.as_str().trim_end_matches('\n'),
        };
        push_line(alloc, &mut out, files, &shown, look)?;
    }
    Ok(out)
}

// Whether a line is the row of a deadline on its day, of a heading that isn't done.
pub(crate) fn is_due(inherits: &Inherits<'_>, line: &Line) -> bool {
    match line {
        Line::Row(shown) => is_due_row(inherits, &shown.row),
        Line::Day(_) | Line::Step(..) | Line::Table(_) => false,
    }
}

// A line of an answer: what it stands for, whether it is due, the days of its clock table, and its text.
#[derive(Clone, Copy)]
pub(crate) struct LineOfAnswer<'a> {
    pub line: &'a Line,
    pub is_due: bool,
    pub days: &'a Option<(Day, Day)>,
    pub text: &'a str,
}

impl LineOfAnswer<'_> {
    // The row, with its days where it is one of a clock table.
    pub fn row(&self) -> Option<ViewRow> {
        match (self.line, self.days) {
            (Line::Row(shown), _) => Some(ViewRow::Row(*shown)),
            (Line::Table(row), Some((first, last))) => Some(ViewRow::Sum(ShownSum {
                first: *first,
                last: *last,
                row: *row,
            })),
            _ => None,
        }
    }
}

// Appends a line in its form.
pub(crate) fn push_line<T: Text>(
    alloc: Global,
    out: &mut Vec<u8>,
    files: &LoadReport<'_, '_, T>,
    shown: &LineOfAnswer<'_>,
    look: &PrintOptions<'_, '_>,
) -> Result<(), Fault>
    ensures clean { IsSafe look.now → KeepsClean result out.old out.new }
{
    match look.form {
        Form::Plain => Ok(push_named(out, files, shown, look)?),
        Form::Places => Ok(push_placed(alloc, out, files, shown, look)?),
        Form::Json | Form::Csv | Form::Template(_) => push_row(alloc, out, files, shown, look),
    }
}

/// Appends a title, bold where colours are asked for.
#[tactic(auto, using(crate::proofs::ShownLemmas::keeps_title))]
pub fn push_title(
    out: &mut Vec<u8>,
    title: &str,
    look: &PrintOptions<'_, '_>,
) -> Result<(), AllocError>
    ensures clean { look.now.is_seen ≡ true → KeepsClean result out.old out.new }
{
    push_bold(out, title, look)?;
    Ok(())
}

fn push_bold(out: &mut Vec<u8>, title: &str, look: &PrintOptions<'_, '_>) -> Result<(), AllocError>
    ensures value { Adds result out.old out.new (title_in look.now title.now) }
{
    let color = if look.is_colored { "\x1b[1m" } else { "" };
    out.extend_from_slice(color.as_bytes())?;
    push_seen(out, title, look.is_seen)?;
    if !color.is_empty() {
        out.extend_from_slice(b"\x1b[0m")?;
    }
    out.push(b'\n')?;
    Ok(())
}

// Appends the short id of a line's heading, if rows have ids, and its text.
#[tactic(auto, using(crate::proofs::ShownLemmas::keeps_placed))]
fn push_named<T: Text>(
    out: &mut Vec<u8>,
    files: &LoadReport<'_, '_, T>,
    shown: &LineOfAnswer<'_>,
    look: &PrintOptions<'_, '_>,
) -> Result<(), AllocError>
    ensures clean { look.now.is_seen ≡ true → KeepsClean result out.old out.new }
{
    push_line_id(out, files, shown.line, b' ')?;
    push_text(out, shown, look)
}

// Appends the text of a line, in the colour of its kind where it has one.
fn push_text(
    out: &mut Vec<u8>,
    shown: &LineOfAnswer<'_>,
    look: &PrintOptions<'_, '_>,
) -> Result<(), AllocError>
    ensures { Adds result out.old out.new (line_in look.now shown.now) }
{
    let color = if look.is_colored {
        color_of(shown.is_due, shown.line)
    } else {
        ""
    };
    out.extend_from_slice(color.as_bytes())?;
    push_seen(out, shown.text, look.is_seen)?;
    if !color.is_empty() {
        out.extend_from_slice(b"\x1b[0m")?;
    }
    out.push(b'\n')?;
    Ok(())
}

/// Appends a text; its control characters, and marks that turn or hide text, so that they can be seen, if that is wanted.
pub fn push_seen(out: &mut Vec<u8>, text: &str, is_seen: bool) -> Result<(), AllocError>
    ensures value { Adds result out.old out.new (shown_text is_seen text.now) }
{
    if is_seen {
        return push_visible(out, text.as_bytes(), Escape::Caret);
    }
    out.extend_from_slice(text.as_bytes())?;
    Ok(())
}

// Days are bold, late rows red, warnings and what is due yellow.
fn color_of(is_due: bool, line: &Line) -> &'static str
    ensures { result.now ≡ color_of is_due line.now }
{
    match line {
        Line::Day(_) | Line::Step(..) => "\x1b[1m",
        Line::Row(shown) => match shown.row.kind {
            RowKind::LateSchedule | RowKind::LateDeadline => "\x1b[31m",
            RowKind::Warning => "\x1b[33m",
            RowKind::OnDeadline if is_due => "\x1b[33m",
            _ => "",
        },
        Line::Table(_) => "",
    }
}

// Appends the place of a line's heading, if it has one, and its text.
#[tactic(auto, using(crate::proofs::ShownLemmas::keeps_placed))]
fn push_placed<T: Text>(
    alloc: Global,
    out: &mut Vec<u8>,
    files: &LoadReport<'_, '_, T>,
    shown: &LineOfAnswer<'_>,
    look: &PrintOptions<'_, '_>,
) -> Result<(), AllocError>
    ensures clean { look.now.is_seen ≡ true → KeepsClean result out.old out.new }
{
    push_place(alloc, out, files, shown.line, look.is_seen)?;
    push_text(out, shown, look)
}

// Appends the line of a row, and the object of a day where days have any.
fn push_row<T: Text>(
    alloc: Global,
    out: &mut Vec<u8>,
    files: &LoadReport<'_, '_, T>,
    shown: &LineOfAnswer<'_>,
    look: &PrintOptions<'_, '_>,
) -> Result<(), Fault>
    ensures clean { KeepsClean result out.old out.new }
{
    let text = shown.text.as_bytes();
    if let Line::Day(day) = shown.line {
        return push_day(alloc, out, *day, text, look.has_days);
    }
    if let Some(row) = shown.row() {
        push_whole(out, &row_line(alloc, files, &row, text, look)?)?;
    }
    Ok(())
}

/// The line of a row in a form of its own; in others its text, whose control characters can be seen.
pub(crate) fn row_line<T: Text>(
    alloc: Global,
    files: &LoadReport<'_, '_, T>,
    row: &ViewRow,
    text: &[u8],
    look: &PrintOptions<'_, '_>,
) -> Result<OneLine, Fault> {
    match look.form {
        Form::Json => json_line(alloc, files, row, text),
        Form::Csv => {
            let mut line = csv_line(alloc, files, row, look.list)?;
            push_id_field(alloc, &mut line, files, row)?;
            Ok(line)
        }
        Form::Template(template) => template_line(alloc, files, row, text, &template),
        Form::Plain | Form::Places => {
            let mut line = OneLine::new(alloc);
            line.push_seen(text)?;
            Ok(line)
        }
    }
}

// Appends the object of a day, if days have any.
fn push_day(
    alloc: Global,
    out: &mut Vec<u8>,
    day: Day,
    text: &[u8],
    has_days: bool,
) -> Result<(), Fault>
    ensures clean { KeepsClean result out.old out.new }
{
    if !has_days {
        return Ok(());
    }
    push_whole(out, &day_line(alloc, day, text)?)?;
    Ok(())
}

/// Appends a line, which has no control character, and a line feed.
pub fn push_whole(out: &mut Vec<u8>, line: &OneLine) -> Result<(), AllocError>
    ensures value { Adds result out.old out.new (line.now ++ 10 ∷ []) }
    ensures clean { KeepsClean result out.old out.new }
{
    out.extend_from_slice(line.as_slice())?;
    out.push(b'\n')?;
    Ok(())
}

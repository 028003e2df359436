//! The lines of clocks.
ghost use Rattle.std.specs.Prelude.{◌≡◌, IfOk};
ghost use Rattle.org_answer.specs.Shown.{AreCleanLines, IsSafe, KeepsClean, is_safe};

use crate::show::{Form, PrintOptions, push_whole, row_line};
use org_base::Fault;
use org_client::{HeadingAt, LoadReport, ShownClock, ViewRow, push_clock_minute};
use org_inherit::Heading;
use org_text::Text;
use std::alloc::{AllocError, Global};
use std::str;

/// The lines of clocks, each in the form that is asked for.
#[tactic(auto, using(crate::proofs::ShownLemmas::no_lines))]
pub fn clock_lines<T: Text>(
    alloc: Global,
    files: &LoadReport<'_, '_, T>,
    clocks: &[ShownClock],
    look: &PrintOptions<'_, '_>,
) -> Result<Vec<u8>, Fault>
    ensures clean { IsSafe look.now → IfOk result (λ out. AreCleanLines out.items) }
{
    let mut out = Vec::new(alloc);
    for clock in clocks {
        push_clock(alloc, &mut out, files, clock, look)?;
    }
    Ok(out)
}

// Appends the line of a clock.
fn push_clock<T: Text>(
    alloc: Global,
    out: &mut Vec<u8>,
    files: &LoadReport<'_, '_, T>,
    clock: &ShownClock,
    look: &PrintOptions<'_, '_>,
) -> Result<(), Fault>
    ensures clean { IsSafe look.now → KeepsClean result out.old out.new }
{
    let text = clock_text(alloc, files, clock, look.form)?;
    let shown = ClockText {
        clock: *clock,
        text: text.as_str(),
    };
    push_row(alloc, out, files, &shown, look)
}

/// A clock, and its line in words.
#[derive(Clone, Copy)]
pub(crate) struct ClockText<'a> {
    pub clock: ShownClock,
    pub text: &'a str,
}

/// Appends the line of a clock in its form.
pub(crate) fn push_row<T: Text>(
    alloc: Global,
    out: &mut Vec<u8>,
    files: &LoadReport<'_, '_, T>,
    shown: &ClockText<'_>,
    look: &PrintOptions<'_, '_>,
) -> Result<(), Fault>
    ensures clean { IsSafe look.now → KeepsClean result out.old out.new }
{
    let text = shown.text.as_bytes();
    if !is_safe(look) {
        out.extend_from_slice(text)?;
        out.push(b'\n')?;
        return Ok(());
    }
    let row = ViewRow::Clock(shown.clock);
    let line = row_line(alloc, files, &row, text, look)?;
    Ok(push_whole(out, &line)?)
}

/// Whether no control character of a file may stand in what is printed.
pub(crate) fn is_safe(look: &PrintOptions<'_, '_>) -> bool
    ensures value { result ≡ is_safe look.now.form look.now.is_seen }
{
    match look.form {
        Form::Plain | Form::Places => look.is_seen,
        Form::Json | Form::Csv | Form::Template(_) => true,
    }
}

// The line of a clock in a form: its place, if that is wanted, its heading's short id, if rows have ids, when it begins, when it
// ends, its minutes as hours and minutes, and the title of its heading.
fn clock_text<T: Text>(
    alloc: Global,
    files: &LoadReport<'_, '_, T>,
    clock: &ShownClock,
    form: Form<'_>,
) -> Result<String, AllocError> {
    let row = &clock.row;
    let mut text = String::new(alloc);
    push_front(alloc, &mut text, files, clock, form)?;
    push_clock_minute(&mut text, row.from)?;
    text.push_str(" ")?;
    push_end(&mut text, row.to)?;
    let (hours, minutes) = (row.minutes / 60, row.minutes % 60);
    write!(text, " {hours:>5}:{minutes:02} ")?;
    push_title(&mut text, files, clock)?;
    Ok(text)
}

/// Appends the title of a clock's heading.
pub(crate) fn push_title<T: Text>(
    text: &mut String,
    files: &LoadReport<'_, '_, T>,
    clock: &ShownClock,
) -> Result<(), AllocError> {
    match Heading::find(files.inherits, clock.row.file, clock.row.heading) {
        Some(heading) => text.push_str(str::from_utf8(heading.title()).unwrap_or("")),
        None => Ok(()),
    }
}

/// Appends what stands in front of a clock in a form: its file and its line, and its heading's short id, if rows have ids; and a
/// space, since its line begins with a number.
pub(crate) fn push_front<T: Text>(
    alloc: Global,
    text: &mut String,
    files: &LoadReport<'_, '_, T>,
    clock: &ShownClock,
    form: Form<'_>,
) -> Result<(), AllocError> {
    let id = clock_id(alloc, files, clock)?;
    let id = str::from_utf8(&id).unwrap_or("");
    match form {
        Form::Places => push_place(text, files, clock, id),
        Form::Plain if !id.is_empty() => write!(text, "{id} "),
        Form::Plain | Form::Json | Form::Csv | Form::Template(_) => Ok(()),
    }
}

// The short id of a clock's heading; none where rows have no ids.
fn clock_id<T: Text>(
    alloc: Global,
    files: &LoadReport<'_, '_, T>,
    clock: &ShownClock,
) -> Result<Vec<u8>, AllocError> {
    let at = HeadingAt {
        file: clock.row.file,
        heading: clock.row.heading,
    };
    let mut id = Vec::new(alloc);
    files.ids().push(&mut id, at, 0)?;
    Ok(id)
}

fn push_place<T: Text>(
    text: &mut String,
    files: &LoadReport<'_, '_, T>,
    clock: &ShownClock,
    id: &str,
) -> Result<(), AllocError> {
    let file = clock.row.file;
    if file < files.file_set.count() {
        text.push_str(files.file_set.file(file).name())?;
    }
    let line = clock.place.line;
    if id.is_empty() {
        return write!(text, ":{line}: ");
    }
    write!(text, ":{line}@{id}: ")
}

// Appends an end, or the room of one.
fn push_end(text: &mut String, end: Option<u64>) -> Result<(), AllocError> {
    match end {
        Some(end) => push_clock_minute(text, end),
        None => text.push_str("                "),
    }
}

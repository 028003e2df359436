//! The text of a view, which is that of its lines.
ghost use Rattle.std.specs.Prelude.{◌≡◌, string_bytes, OnErr, IsOkUnless};
ghost use Rattle.org_base.specs.Codes.{memory_fault};
ghost use Rattle.org_base.specs.Results.{GivesText, Writes};
ghost use Rattle.org_layout.specs.Shown.{agenda_text, lines_text, list_text, table_text};

use crate::line::LineTexts;
use crate::shown::{Line, agenda_lines, list_lines, push_step_lines};
use crate::table::TableStep;
use org_agenda::{Agenda, Row};
use org_base::Fault;
use org_inherit::Inherits;
use std::alloc::Global;

/// The text of a view: that of each of its lines, one after the other.
///
/// - A day has `YYYY-MM-DD Ddd Www` with its ISO week.
/// - A row has two spaces and the category with a colon in a column of 12. One of a day has its times in another column of 12,
///   its label, and a space if there is a label. Then come keyword, cookie as written, title and all tags, those that aren't
///   empty, with one space between.
/// - A step of a clock table has its first and its last day.
/// - A row of a clock table has its clock sum in a column of 9, the effort sum in another if it is asked for, and `*`, the
///   name of a file, or the title of a heading after two spaces for each level. Sums are hours, a colon and two digits of
///   minutes.
///
/// A row whose heading isn't there has no line; of a sum's file or heading that isn't there neither name nor title is shown.
pub fn lines_text(
    alloc: Global,
    inherits: &Inherits<'_>,
    with_effort: bool,
    lines: &[Line],
) -> Result<String, Fault>
    ensures value { GivesText result (lines_text with_effort inherits.now lines.now) }
    ensures memory { IsOkUnless result memory_fault }
{
    let mut texts = LineTexts::of(alloc, inherits, lines)?;
    text_of(alloc, &mut texts, with_effort, lines)
}

fn text_of(
    alloc: Global,
    texts: &mut LineTexts<'_, '_>,
    with_effort: bool,
    lines: &[Line],
) -> Result<String, Fault>
    ensures value { GivesText result (lines_text with_effort texts.old lines.now) }
    ensures memory { IsOkUnless result memory_fault }
{
    let mut text = String::new(alloc);
    push_lines(&mut text, texts, with_effort, lines)?;
    Ok(text)
}

// Appends the texts of lines.
fn push_lines(
    out: &mut String,
    texts: &mut LineTexts<'_, '_>,
    with_effort: bool,
    lines: &[Line],
) -> Result<(), Fault>
    ensures ok { Writes result out.old out.new (lines_text with_effort texts.old lines.now) }
    ensures memory { IsOkUnless result memory_fault }
{
    for line in lines {
        texts.push(out, with_effort, line)?;
    }
    Ok(())
}

/// Appends the text of the list of some rows. Out of memory leaves `out` as it was.
pub fn list_text(
    alloc: Global,
    out: &mut String,
    rows: &[Row],
    inherits: &Inherits<'_>,
) -> Result<(), Fault>
    ensures ok { Writes result out.old out.new (list_text inherits.now rows.now) }
    ensures err { OnErr result (string_bytes out.new ≡ string_bytes out.old) }
    ensures memory { IsOkUnless result memory_fault }
{
    let lines = list_lines(alloc, rows)?;
    push_text(alloc, out, inherits, false, lines.as_slice())
}

/// Appends the text of an agenda. Out of memory is the only refusal, and leaves `out` as it was.
pub fn agenda_text(
    alloc: Global,
    out: &mut String,
    inherits: &Inherits<'_>,
    agenda: &Agenda,
) -> Result<(), Fault>
    ensures ok { Writes result out.old out.new (agenda_text inherits.now agenda.now) }
    ensures err { OnErr result (string_bytes out.new ≡ string_bytes out.old) }
    ensures memory { IsOkUnless result memory_fault }
{
    let lines = agenda_lines(alloc, agenda)?;
    push_text(alloc, out, inherits, false, lines.as_slice())
}

/// Appends the text of a step of a clock table. Out of memory leaves `out` as it was.
pub fn table_text(
    alloc: Global,
    out: &mut String,
    inherits: &Inherits<'_>,
    with_effort: bool,
    step: &TableStep<'_>,
) -> Result<(), Fault>
    ensures ok { Writes result out.old out.new (table_text with_effort inherits.now step.now) }
    ensures err { OnErr result (string_bytes out.new ≡ string_bytes out.old) }
    ensures memory { IsOkUnless result memory_fault }
{
    let mut lines = Vec::new(alloc);
    push_step_lines(&mut lines, step)?;
    push_text(alloc, out, inherits, with_effort, lines.as_slice())
}

// Appends the text of lines. Out of memory leaves `out` as it was.
fn push_text(
    alloc: Global,
    out: &mut String,
    inherits: &Inherits<'_>,
    with_effort: bool,
    lines: &[Line],
) -> Result<(), Fault>
    ensures ok { Writes result out.old out.new (lines_text with_effort inherits.now lines.now) }
    ensures err { OnErr result (string_bytes out.new ≡ string_bytes out.old) }
    ensures memory { IsOkUnless result memory_fault }
{
    let text = lines_text(alloc, inherits, with_effort, lines)?;
    out.push_str(text.as_str())?;
    Ok(())
}

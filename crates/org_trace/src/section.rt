//! The rows of a section.
ghost use Rattle.std.specs.Prelude.{◌≡◌, ◌+◌, ◌≤◌, length, slice_get, IsOkUnless};
ghost use Rattle.std.specs.Cow.{cow_slice_items};
ghost use Rattle.org_base.specs.Codes.{memory_fault};
ghost use Rattle.org_base.specs.Results.{Adds};
ghost use Rattle.org_trace.specs.Sections.{rows_of, entry_rows, rows_of_line, section_rows};

use crate::entry::LogEntry;
use crate::line::line_entry;
use crate::row::{LogQuery, LogRow, is_asked};
use org_base::{Fault, Meter, Span};
use org_class::{Class, classify};
use org_lines::{Line, Lines};
use org_settings::Settings;
use org_text::Text;
use std::alloc::{AllocError, Global};
use std::marker::Model;

// A section of a file, and what is asked of it.
#[derive(Drop)]
pub(crate) struct LogSection<'a> {
    pub file: usize,
    pub heading: usize,
    pub span: Span,
    pub settings: &'a Settings,
    pub asked: &'a LogQuery,
}

impl<'a> Model for LogSection<'a> {
    ghost use Rattle.org_trace.specs.Asked.{SectionAsked};

    ghost Value = { SectionAsked };

    ghost view = { λ s. record { file = s.file; heading = s.heading; span = s.span; keywords = s.settings.now.keywords; asked = s.asked.now } };
}

// Puts the rows of a section after others.
pub(crate) fn push_section<T: Text>(
    alloc: Global,
    rows: &mut Vec<LogRow>,
    text: &T,
    section: &LogSection<'_>,
) -> Result<(), Fault>
    requires within { section.now.span.at + section.now.span.len ≤ length (T.content text.now) }
    ensures ok { Adds result rows.old rows.new (section_rows section.now (T.content text.now)) }
    ensures memory { IsOkUnless result memory_fault }
{
    let classes = classify(alloc, &mut Meter::new(), text, section.span)?;
    push_lines(alloc, rows, text, section, classes.as_slice())
}

// The same where the lines are of these classes.
fn push_lines<T: Text>(
    alloc: Global,
    rows: &mut Vec<LogRow>,
    text: &T,
    section: &LogSection<'_>,
    classes: &[Class],
) -> Result<(), Fault>
    requires within { section.now.span.at + section.now.span.len ≤ length (T.content text.now) }
    ensures ok { Adds result rows.old rows.new (rows_of section.now (T.content text.now) classes.now) }
    ensures memory { IsOkUnless result memory_fault }
{
    // For the proof alone: its contract says that the text is not too long.
    let _len = text.len();
    let mut place = 0;
    for line in Lines::new(alloc, text, section.span) {
        let class = class_at(classes, place);
        push_line(rows, section, class, line?)?;
        place += 1;
    }
    Ok(())
}

// The class at a place, if there is one.
fn class_at(classes: &[Class], place: usize) -> Option<Class>
    ensures value { result ≡ slice_get classes.now place }
{
    classes.get(place).copied()
}

// Puts the row of a line after others, if it has one.
fn push_line(
    rows: &mut Vec<LogRow>,
    section: &LogSection<'_>,
    class: Option<Class>,
    line: Line<'_>,
) -> Result<(), Fault>
    requires whole { line.span.len ≡ length (cow_slice_items line.bytes) }
    ensures ok { Adds result rows.old rows.new (rows_of_line section.now class line.entry) }
    ensures memory { IsOkUnless result memory_fault }
{
    let Some(class) = class else {
        return Ok(());
    };
    let entry = line_entry(section.settings, class, line.bytes.as_slice());
    Ok(push_entry(rows, section, line.span.at, &entry)?)
}

// Puts the row of what a line logs after others, if that is asked for.
fn push_entry(
    rows: &mut Vec<LogRow>,
    section: &LogSection<'_>,
    at: u32,
    entry: &Option<LogEntry>,
) -> Result<(), AllocError>
    ensures { Adds result rows.old rows.new (entry_rows section.now at entry.now) }
{
    if let Some(entry) = entry {
        if is_asked(section.asked, entry) {
            rows.push(LogRow {
                file: section.file,
                heading: section.heading,
                at,
                entry: *entry,
            })?;
        }
    }
    Ok(())
}

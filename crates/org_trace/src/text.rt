//! The rows of a file's text.
ghost use Rattle.std.specs.Prelude.{◌≡◌, ◌+◌, ◌≤◌, length, IsOkUnless};
ghost use Rattle.std.specs.List.{All};
ghost use Rattle.org_base.specs.Codes.{memory_fault};
ghost use Rattle.org_base.specs.Results.{Adds};
ghost use Rattle.org_class.specs.Sections.{AreInside};
ghost use Rattle.org_trace.specs.Sections.{rows_if_shown, section_at, span_rows, text_rows};

use crate::row::{LogFile, LogRow, is_shown};
use crate::section::{LogSection, push_section};
use org_base::{Fault, Span};
use org_class::sections;
use org_text::Text;
use std::alloc::Global;

/// Puts the rows of a file's text after others, in the order of its lines: those of its sections that are shown, of which what
/// the line logs is asked for. One pass over the text.
pub fn push_log<T: Text>(
    alloc: Global,
    rows: &mut Vec<LogRow>,
    text: &T,
    of: &LogFile<'_>,
) -> Result<(), Fault>
    ensures ok { Adds result rows.old rows.new (text_rows of.now (T.content text.now)) }
    ensures memory { IsOkUnless result memory_fault }
{
    let spans = sections(alloc, text)?;
    push_spans(alloc, rows, text, of, spans.as_slice())
}

// The same of a text whose sections stand at these places.
fn push_spans<T: Text>(
    alloc: Global,
    rows: &mut Vec<LogRow>,
    text: &T,
    of: &LogFile<'_>,
    spans: &[Span],
) -> Result<(), Fault>
    requires inside { AreInside (T.content text.now) spans.now }
    ensures ok { Adds result rows.old rows.new (span_rows of.now (T.content text.now) 0 spans.now) }
    ensures memory { IsOkUnless result memory_fault }
{
    let mut heading = 0;
    for span in spans {
        push_shown(alloc, rows, text, of, &section_at(of, heading, *span))?;
        heading += 1;
    }
    Ok(())
}

// The section at a place of a file, which has a part of its text.
fn section_at<'a>(of: &LogFile<'a>, heading: usize, span: Span) -> LogSection<'a>
    ensures value { result ≡ section_at of.now heading span }
{
    LogSection {
        file: of.file,
        heading,
        span,
        settings: of.settings,
        asked: of.asked,
    }
}

// Puts the rows of a section after others, if they are shown.
fn push_shown<T: Text>(
    alloc: Global,
    rows: &mut Vec<LogRow>,
    text: &T,
    of: &LogFile<'_>,
    section: &LogSection<'_>,
) -> Result<(), Fault>
    requires within { section.now.span.at + section.now.span.len ≤ length (T.content text.now) }
    ensures ok { Adds result rows.old rows.new (rows_if_shown of.now section.now (T.content text.now)) }
    ensures memory { IsOkUnless result memory_fault }
{
    if is_shown(of.shown, section.heading) {
        push_section(alloc, rows, text, section)?;
    }
    Ok(())
}

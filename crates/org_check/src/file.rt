//! The findings of a file.
ghost use Rattle.std.specs.Prelude.{◌≡◌, ◌+◌, ◌≤◌, length, IfOk, IsOkUnless};
ghost use Rattle.org_base.specs.Codes.{memory_fault};
ghost use Rattle.org_check.specs.Marks.{section_marks, text_marks};
ghost use Rattle.org_check.specs.Said.{MarksAreSaid, Says};

use crate::beside_kinds::BesideKind;
use crate::finding::LinePart;
use crate::findings::Findings;
use crate::notes::Note;
use crate::section::check_section;
use crate::seen::Seen;
use org_base::{Fault, Meter, NameSet, Span};
use org_cal::Minute;
use org_class::{classify, sections};
use org_settings::Settings;
use org_text::Text;
use std::alloc::{AllocError, Global};

/// What is known beside a file's text.
#[derive(Clone, Copy)]
pub struct About<'a> {
    /// What its setting lines say.
    pub settings: &'a Settings,
    /// The keywords of the other files of the set.
    pub others: &'a NameSet,
    /// When it is asked. Without it each running clock counts as one that has run for long.
    pub now: Option<Minute>,
}

/// What looks planned in a text and will not show, or shows otherwise than it is written, in the order of the places.
/// Each place and line that looks planned and isn't read so has its finding, and each finding of such a kind is of one.
pub fn checks<'a, T: Text>(
    alloc: Global,
    meter: &mut Meter,
    text: &T,
    about: &'a About<'a>,
) -> Result<Findings, Fault>
    ensures marks { IfOk result (MarksAreSaid (T.content text.now)) }
    ensures memory { IsOkUnless result memory_fault }
{
    let mut findings = Findings::new(alloc);
    check_text(alloc, meter, text, about, &mut findings)?;
    findings.sort()?;
    Ok(findings)
}

// Puts the findings of a text, its marks in their order, then all else.
fn check_text<'a, T: Text>(
    alloc: Global,
    meter: &mut Meter,
    text: &T,
    about: &'a About<'a>,
    found: &mut Findings,
) -> Result<(), Fault>
    ensures said { Says result found.old found.new (text_marks (T.content text.now)) }
    ensures memory { IsOkUnless result memory_fault }
{
    let mut seen = Seen::new(alloc, about);
    push_byte_order_mark(&mut seen, text)?;
    check_sections(meter, text, &mut seen, found)?;
    seen.end()?;
    found.push_notes(seen.notes.as_slice())?;
    Ok(())
}

// Puts a byte order mark at the front.
fn push_byte_order_mark<T: Text>(seen: &mut Seen<'_>, text: &T) -> Result<(), AllocError> {
    if !text.piece_at(0).starts_with(b"\xEF\xBB\xBF") {
        return Ok(());
    }
    seen.notes.push(Note {
        part: LinePart {
            line_at: 0,
            place: 0,
            len: 3,
            line: 1,
        },
        kind: BesideKind::ByteOrderMark,
        cause: None,
    })
}

fn check_sections<T: Text>(
    meter: &mut Meter,
    text: &T,
    seen: &mut Seen<'_>,
    found: &mut Findings,
) -> Result<(), Fault>
    ensures said { Says result found.old found.new (text_marks (T.content text.now)) }
    ensures memory { IsOkUnless result memory_fault }
{
    let spans = sections(seen.alloc, text)?;
    for span in spans.as_slice() {
        check_one(meter, text, *span, seen, found)?;
    }
    Ok(())
}

// Puts the findings of a section.
fn check_one<T: Text>(
    meter: &mut Meter,
    text: &T,
    section: Span,
    seen: &mut Seen<'_>,
    found: &mut Findings,
) -> Result<(), Fault>
    requires within { section.at + section.len ≤ length (T.content text.now) }
    ensures said { Says result found.old found.new (section_marks (T.content text.now) section) }
    ensures memory { IsOkUnless result memory_fault }
{
    let classes = classify(seen.alloc, meter, text, section)?;
    check_section(text, section, classes.as_slice(), seen, found)
}

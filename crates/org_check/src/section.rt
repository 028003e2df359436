//! The findings of a section.
ghost use Rattle.std.specs.Prelude.{◌≡◌, ◌+◌, ◌≤◌, length, slice_get, IsOkUnless};
ghost use Rattle.org_base.specs.Codes.{memory_fault};
ghost use Rattle.org_check.specs.Marks.{marks_in, marks_in_line};
ghost use Rattle.org_check.specs.Said.{Says};

use crate::findings::Findings;
use crate::here::{Above, Here};
use crate::line::check_line;
use crate::marks::push_line_marks;
use crate::seen::Seen;
use org_base::{Fault, Span};
use org_class::Class;
use org_lines::{Line, Lines};
use org_text::Text;

// The section of a line, and the line's class, if there is one.
#[derive(Clone, Copy)]
struct LineIn {
    section: Span,
    class: Option<Class>,
}

// Puts the findings of a section whose lines are of these classes.
pub(crate) fn check_section<T: Text>(
    text: &T,
    section: Span,
    classes: &[Class],
    seen: &mut Seen<'_>,
    found: &mut Findings,
) -> Result<(), Fault>
    requires within { section.at + section.len ≤ length (T.content text.now) }
    ensures said { Says result found.old found.new (marks_in (T.content text.now) section classes.now) }
    ensures memory { IsOkUnless result memory_fault }
{
    seen.ahead = None;
    seen.above = Above::new();
    let mut place = 0;
    for line in Lines::new(seen.alloc, text, section) {
        let class = class_at(classes, place);
        check_in(text, LineIn { section, class }, line?, seen, found)?;
        place += 1;
    }
    Ok(())
}

// The class at a place, if there is one.
fn class_at(classes: &[Class], place: usize) -> Option<Class>
    ensures value { result ≡ slice_get classes.now place }
{
    classes.get(place).copied()
}

// Puts the findings of a line, if it has a class.
fn check_in<T: Text>(
    text: &T,
    of: LineIn,
    line: Line<'_>,
    seen: &mut Seen<'_>,
    found: &mut Findings,
) -> Result<(), Fault>
    requires within { of.section.at + of.section.len ≤ length (T.content text.now) }
    ensures said { Says result found.old found.new (marks_in_line of.class line.entry) }
    ensures memory { IsOkUnless result memory_fault }
{
    let Some(class) = of.class else {
        return Ok(());
    };
    let here = Here {
        at: line.span.at,
        number: seen.next_line(),
        class,
        rest: after_line(of.section, line.span),
        above: seen.above,
    };
    let bytes = line.bytes.as_slice();
    push_line_marks(text, here, bytes, seen, found)?;
    seen.above = check_line(seen, here, bytes)?;
    Ok(())
}

// What of a section comes after a line of it.
fn after_line(section: Span, line: Span) -> Span
    ensures within { result.at + result.len ≤ section.at + section.len }
{
    let end = section.at.saturating_add(section.len);
    let at = line.at.saturating_add(line.len);
    if at <= end {
        Span { at, len: end - at }
    } else {
        Span { at: end, len: 0 }
    }
}

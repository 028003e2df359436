//! Property drawers that aren't read.
ghost use Rattle.std.specs.Prelude.{◌+◌, ◌≤◌, length, IsOkUnless};
ghost use Rattle.org_base.specs.Codes.{memory_fault};

use crate::finding::{Cause, LinePart};
use crate::here::Here;
use crate::unread_kinds::DrawerKind;
use org_base::words::trim;
use org_base::{Fault, Span};
use org_class::is_drawer_end;
use org_drawer::is_node;
use org_lines::Lines;
use org_stamp::leading_spaces;
use org_text::Text;
use std::alloc::Global;

// What comes first, after a line of a section, of what decides whether a drawer that begins there ends: it is the same for
// each line up to that one.
#[derive(Clone, Copy)]
pub(crate) struct Ahead {
    // The first line that ends a drawer or gives no property; of none the number is the greatest that there is.
    pub stop_line: LinePart,
    stop: Stop,
    // The section's last line that ends a drawer, 0 where none does.
    last_end: u32,
}

#[derive(Clone, Copy)]
enum Stop {
    End,
    Other,
    Nothing,
}

// What comes after a line of a section, where it is known of an earlier line, or of none.
pub(crate) fn look_ahead<T: Text>(
    alloc: Global,
    text: &T,
    here: Here,
    known: Option<Ahead>,
) -> Result<Ahead, Fault>
    requires within { here.rest.at + here.rest.len ≤ length (T.content text.now) }
    ensures memory { IsOkUnless result memory_fault }
{
    let last_end = match known {
        Some(ahead) if here.number < ahead.stop_line.line => return Ok(ahead),
        Some(ahead) => ahead.last_end,
        None => last_end(alloc, text, here.rest, here.number)?,
    };
    let (stop_line, stop) = first_stop(alloc, text, here.rest, here.number)?;
    Ok(Ahead {
        stop_line,
        stop,
        last_end,
    })
}

// The first line that ends a drawer or gives no property, of those that come after a line of this number.
fn first_stop<T: Text>(
    alloc: Global,
    text: &T,
    rest: Span,
    number: u32,
) -> Result<(LinePart, Stop), Fault>
    requires within { rest.at + rest.len ≤ length (T.content text.now) }
    ensures memory { IsOkUnless result memory_fault }
{
    let mut here = number;
    for line in Lines::new(alloc, text, rest) {
        let line = line?;
        let bytes = line.bytes.as_slice();
        here = here.saturating_add(1);
        if is_drawer_end(bytes) {
            return Ok((whole_part(line.span.at, here, bytes), Stop::End));
        }
        if !is_node(bytes) {
            return Ok((whole_part(line.span.at, here, bytes), Stop::Other));
        }
    }
    Ok((whole_part(0, u32::MAX, &[]), Stop::Nothing))
}

// All of a line but the white space at its ends; of a blank one its front.
fn whole_part(line_at: u32, number: u32, line: &[u8]) -> LinePart {
    let len = trim(line).len();
    LinePart {
        line_at,
        place: if len == 0 { 0 } else { leading_spaces(line) },
        len,
        line: number,
    }
}

// The last line that ends a drawer, of those that come after a line of this number; 0 where none does.
fn last_end<T: Text>(alloc: Global, text: &T, rest: Span, number: u32) -> Result<u32, Fault>
    requires within { rest.at + rest.len ≤ length (T.content text.now) }
    ensures memory { IsOkUnless result memory_fault }
{
    let mut here = number;
    let mut last = 0;
    for line in Lines::new(alloc, text, rest) {
        let line = line?;
        here = here.saturating_add(1);
        if is_drawer_end(line.bytes.as_slice()) {
            last = here;
        }
    }
    Ok(last)
}

// Why a line `:PROPERTIES:` begins no drawer, and what stands in its way.
pub(crate) fn stray_drawer(here: Here, ahead: Ahead) -> (DrawerKind, Option<Cause>) {
    match ahead.stop {
        Stop::End => (DrawerKind::StrayDrawer, here.above.below),
        Stop::Other if here.number < ahead.last_end => {
            (DrawerKind::DrawerLine, Some(Cause::InDrawer(here.number)))
        }
        Stop::Other | Stop::Nothing => (DrawerKind::UnclosedDrawer, None),
    }
}

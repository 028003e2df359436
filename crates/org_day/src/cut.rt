//! Texts cut to so many columns.
ghost use Rattle.std.specs.Prelude.{◌≤◌, IfOk, string_bytes};
ghost use Rattle.org_day.specs.Widths.{columns_of};

use crate::sign::Signs;
use std::alloc::{AllocError, Global};
use unicode_segmentation::UnicodeSegmentation;
use unicode_width::UnicodeWidthStr;

/// A text in at most so many columns: the whole where it fits, else a front of it with the sign of a cut. What a person sees as
/// one character is never cut.
pub(crate) fn cut(
    alloc: Global,
    text: &str,
    columns: usize,
    signs: Signs,
) -> Result<String, AllocError>
    ensures within { IfOk result (λ cut. columns_of (string_bytes cut) ≤ columns) }
{
    if text.width() <= columns {
        return String::from_str(alloc, text);
    }
    let mut out = String::new(alloc);
    push_front(
        &mut out,
        text,
        columns.saturating_sub(signs.cut_sign().width()),
    )?;
    out.push_str(signs.cut_sign())?;
    drop_wider(&mut out, columns);
    Ok(out)
}

/// The same without a sign where it is cut.
pub(crate) fn cut_short(alloc: Global, text: &str, columns: usize) -> Result<String, AllocError>
    ensures within { IfOk result (λ cut. columns_of (string_bytes cut) ≤ columns) }
{
    let mut out = String::new(alloc);
    push_front(&mut out, text, columns)?;
    drop_wider(&mut out, columns);
    Ok(out)
}

// Appends as many characters of a text as there is room for, by their own widths, without spaces at the end.
fn push_front(out: &mut String, text: &str, columns: usize) -> Result<(), AllocError> {
    let mut room = columns;
    let mut end: usize = 0;
    for part in text.graphemes(true) {
        let width = part.width();
        if width > room {
            break;
        }
        room -= width;
        end = end.saturating_add(part.len());
    }
    match text.split_at_checked(end) {
        Some((front, _)) => out.push_str(front.trim_end_matches(' ')),
        None => Ok(()),
    }
}

// Leaves nothing of a text that is wider together than its characters are one by one, and wider than the columns.
fn drop_wider(out: &mut String, columns: usize)
    ensures within { columns_of (string_bytes out.new) ≤ columns }
{
    if out.as_str().width() > columns {
        out.clear();
    }
}

//! Texts cut and filled to so many columns.
ghost use Rattle.std.specs.Prelude.{◌≡◌, ◌<◌, chars, encode_utf8_all, replicate, string_bytes};
ghost use Rattle.org_look.specs.Cuts.{begun_text, cut_text, filled_text, front, if_fits, spread_text, weight};
ghost use Rattle.org_look.specs.Gives.{GivesStrip, GivesWide};
ghost use Rattle.org_look.specs.Results.{GivesText, Writes};

use crate::sign::{Sign, Signs};
use crate::strip::Strip;
use std::alloc::{AllocError, Global};
use unicode_width::{UnicodeWidthChar, UnicodeWidthStr};

/// A text in exactly so many columns: where it is shorter with spaces behind it, where it is longer a front of it with the
/// sign of a cut. No character is halved.
pub fn fill_text(
    alloc: Global,
    text: &str,
    columns: usize,
    signs: Signs,
) -> Result<Strip, AllocError>
    requires some { 0 < columns }
    ensures value { GivesStrip result (filled_text signs columns text.now) }
    ensures wide { GivesWide result columns }
{
    let mut cut = cut(alloc, text, columns, signs)?;
    let spaces = columns.saturating_sub(cut.as_str().width());
    push_spaces(&mut cut, spaces)?;
    Ok(Strip::of(alloc, cut))
}

/// A text in exactly so many columns: where it is shorter with spaces behind it, where it is longer as much of its front as there
/// is room for, without a sign of a cut.
pub fn fill_front(alloc: Global, text: &str, columns: usize) -> Result<Strip, AllocError>
    ensures value { GivesStrip result (spread_text columns text.now) }
    ensures wide { GivesWide result columns }
{
    let mut front = front_of(alloc, text, columns)?;
    let spaces = columns.saturating_sub(front.as_str().width());
    push_spaces(&mut front, spaces)?;
    Ok(Strip::of(alloc, front))
}

// The text where it fits, else as much of its front as there is room for.
fn front_of(alloc: Global, text: &str, columns: usize) -> Result<String, AllocError>
    ensures value { GivesText result (begun_text columns text.now) }
{
    let mut out = String::new(alloc);
    if text.width() <= columns {
        out.push_str(text)?;
        return Ok(out);
    }
    push_front(&mut out, text, columns)?;
    drop_wider(&mut out, columns);
    Ok(out)
}

/// A text in at most so many columns: the whole where it fits, else a front of it with the sign of a cut.
pub fn cut(alloc: Global, text: &str, columns: usize, signs: Signs) -> Result<String, AllocError>
    ensures value { GivesText result (cut_text signs columns text.now) }
{
    let mut out = String::new(alloc);
    if text.width() <= columns {
        out.push_str(text)?;
        return Ok(out);
    }
    push_front(&mut out, text, columns.saturating_sub(1))?;
    drop_wider(&mut out, columns.saturating_sub(1));
    out.push_str(Sign::Cut.text(signs))?;
    Ok(out)
}

// Appends as many characters of a text as there is room for, by their own widths.
fn push_front(out: &mut String, text: &str, columns: usize) -> Result<(), AllocError>
    ensures { Writes result out.old out.new (encode_utf8_all (front columns (chars text.now))) }
{
    let mut room = columns;
    for c in text.chars() {
        let weight = weight(c);
        if weight > room {
            return Ok(());
        }
        room -= weight;
        out.push(c)?;
    }
    Ok(())
}

// What a character counts: its width, and a selector that may widen the one before it as much as it may add.
pub(crate) fn weight(c: char) -> usize
    ensures { result ≡ weight c }
{
    match c {
        '\u{fe00}'..='\u{fe0f}' => 1,
        _ => c.width().unwrap_or(1),
    }
}

// Leaves nothing of a text that is wider together than its characters are one by one, and wider than the columns.
fn drop_wider(out: &mut String, columns: usize)
    ensures { string_bytes out.new ≡ if_fits columns (string_bytes out.old) }
{
    if out.as_str().width() > columns {
        out.clear();
    }
}

// Appends so many spaces.
fn push_spaces(out: &mut String, count: usize) -> Result<(), AllocError>
    ensures { Writes result out.old out.new (replicate count 32) }
{
    for _space in 0..count {
        out.push(' ')?;
    }
    Ok(())
}

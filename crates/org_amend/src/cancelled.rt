//! What goes where a clock is cancelled.
ghost use Rattle.std.specs.Prelude.{◌≡◌, ◌==◌, ◌+◌, ◌≤◌, ◌<◌, ◌^◌, ◌∷◌, [], IfOk, IfSome, IsOkUnless, length};
ghost use Rattle.org_amend.specs.Cancelled.{LiesIn, but_end, cancelled_part, closing_len, emptied_in, emptied_part, end_len, front_lines, guarded_part, has_front, section_without};
ghost use Rattle.org_amend.specs.Within.{IsWithin};
ghost use Rattle.org_base.specs.Codes.{memory_fault};
ghost use Rattle.org_base.specs.Results.{Gives, GivesItems};
ghost use Rattle.org_class.specs.Classes.{section_classes};
ghost use Rattle.org_lines.specs.Cuts.{lines_in};
ghost use Rattle.org_text.specs.Replace.{max_bytes};

use crate::entry::whole_of;
use crate::place::{DrawerName, drawer_of, is_front};
use crate::running::RunningClock;
use org_base::{Fault, Meter, Span};
use org_class::{Class, classify, is_drawer_end};
use org_lines::Lines;
use org_text::{Text, Whole};
use std::alloc::{AllocError, Global};
use std::str;

/// The part of a text that goes where a running clock of a section is cancelled: its line, and where this is all that stands in
/// the section's `LOGBOOK` drawer, the drawer. Where a line behind it would be read as planning or as a property then, the end of
/// the last line stays, as an empty line. The classes are those of the section's lines.
#[tactic(auto, unfolding(crate::specs::Cancelled::cancelled_part))]
pub fn cancelled_part<T: Text>(
    alloc: Global,
    text: &T,
    section: Span,
    classes: &[Class],
    clock: RunningClock,
) -> Result<Span, Fault>
    requires within { section.at + section.len ≤ length (T.content text.now) }
    requires clock { IsWithin section clock }
    ensures value { Gives result (cancelled_part (T.content text.now) section classes.now clock) }
    ensures within { IfOk result (λ part. part.at + part.len ≤ section.at + section.len) }
    ensures memory { IsOkUnless result memory_fault }
{
    let part = emptied_in(alloc, text, section, classes, clock)?;
    guarded_part(alloc, text, section, classes, part)
}

// The lines that go with a running clock of a section.
fn emptied_in<T: Text>(
    alloc: Global,
    text: &T,
    section: Span,
    classes: &[Class],
    clock: RunningClock,
) -> Result<Span, Fault>
    requires within { section.at + section.len ≤ length (T.content text.now) }
    requires clock { IsWithin section clock }
    ensures value { Gives result (emptied_in (T.content text.now) section classes.now clock) }
    ensures within { IfOk result (LiesIn section) }
    ensures memory { IsOkUnless result memory_fault }
{
    // For the proof alone: its contract says that the text is not too long.
    let _len = text.len();
    let end = clock.at + clock.len;
    let rest = Span {
        at: end,
        len: section.at + section.len - end,
    };
    let drawer = drawer_of(alloc, text, section, classes, DrawerName::Logbook)?;
    let closing = closing_len(alloc, text, rest)?;
    Ok(emptied_part(drawer, clock, closing))
}

// How long the end of a drawer is that stands first in a part of a text; 0 where something else does.
fn closing_len<T: Text>(alloc: Global, text: &T, rest: Span) -> Result<u32, Fault>
    requires within { rest.at + rest.len ≤ length (T.content text.now) }
    ensures value { Gives result (closing_len (lines_in (T.content text.now) rest)) }
    ensures memory { IsOkUnless result memory_fault }
{
    match Lines::new(alloc, text, rest).next() {
        Some(line) => {
            let line = line?;
            Ok(closing_of(line.bytes.as_slice()))
        }
        None => Ok(0),
    }
}

// How long a line is that ends a drawer; 0 where it doesn't.
fn closing_of(line: &[u8]) -> u32
    requires fits { length line.now < 2 ^ 32 }
    ensures value { result ≡ closing_len (line.now ∷ []) }
{
    if is_drawer_end(line) {
        line.len() as u32
    } else {
        0
    }
}

// The part of a clock's line, or with it the drawer that it stands first in, where so much of this drawer's end follows.
fn emptied_part(drawer: Option<Span>, clock: RunningClock, closing: u32) -> Span
    requires drawer { IfSome drawer (λ opening. opening.at + opening.len < 2 ^ 32) }
    requires fits { clock.at + clock.len + closing < 2 ^ 32 }
    ensures value { result ≡ emptied_part drawer clock closing }
    ensures within { result.at + result.len ≤ clock.at + clock.len + closing }
{
    match drawer {
        Some(opening) if opening.at + opening.len == clock.at && closing > 0 => Span {
            at: opening.at,
            len: opening.len + clock.len + closing,
        },
        _ => Span {
            at: clock.at,
            len: clock.len,
        },
    }
}

// A part of a section, whole where the front of the section is without it what it is; else an empty line stays.
fn guarded_part<T: Text>(
    alloc: Global,
    text: &T,
    section: Span,
    classes: &[Class],
    part: Span,
) -> Result<Span, Fault>
    requires within { section.at + section.len ≤ length (T.content text.now) }
    requires part { LiesIn section part }
    ensures value { Gives result (guarded_part (T.content text.now) section classes.now part) }
    ensures within { IfOk result (λ found. found.at + found.len ≤ section.at + section.len) }
    ensures memory { IsOkUnless result memory_fault }
{
    // For the proof alone: its contract says that the text is not too long.
    let _len = text.len();
    let copy = text.copy_out()?;
    let bytes = copy.as_bytes();
    if keeps_front(alloc, bytes, section, part, front_lines(classes))? {
        Ok(part)
    } else {
        Ok(but_end(bytes, part))
    }
}

// Whether so many lines are the front of a section without a part.
fn keeps_front(
    alloc: Global,
    text: &[u8],
    section: Span,
    part: Span,
    front: usize,
) -> Result<bool, Fault>
    requires within { section.at + section.len ≤ length text.now }
    requires fits { length text.now ≤ max_bytes }
    requires part { LiesIn section part }
    ensures value { Gives result (has_front (section_without text.now section part) front) }
    ensures memory { IsOkUnless result memory_fault }
{
    let left = section_without(alloc, text, section, part)?;
    match str::from_utf8(&left) {
        Ok(left) => is_front_of(alloc, left, front),
        Err(_) => Ok(false),
    }
}

// A section of a text without a part.
fn section_without(
    alloc: Global,
    text: &[u8],
    section: Span,
    part: Span,
) -> Result<Vec<u8>, AllocError>
    requires within { section.at + section.len ≤ length text.now }
    requires part { LiesIn section part }
    ensures value { GivesItems result (section_without text.now section part) }
{
    let at = part.at as usize;
    let end = at + part.len as usize;
    let section_end = section.at as usize + section.len as usize;
    let mut left = Vec::from_slice(alloc, &text[section.at as usize..at])?;
    left.extend_from_slice(&text[end..section_end])?;
    Ok(left)
}

// Whether so many lines of a section's text are its front.
fn is_front_of(alloc: Global, left: &str, front: usize) -> Result<bool, Fault>
    requires fits { length left.now ≤ max_bytes }
    ensures value { Gives result (front_lines (section_classes left.now) == front) }
    ensures memory { IsOkUnless result memory_fault }
{
    let text = Whole::of(alloc, left)?;
    let classes = classify(alloc, &mut Meter::new(), &text, whole_of(&text))?;
    Ok(front_lines(classes.as_slice()) == front)
}

// Of the lines of a section, how many at the front are the heading, its planning line and its property drawer.
fn front_lines(classes: &[Class]) -> usize
    ensures value { result ≡ front_lines classes.now }
{
    classes
        .iter()
        .take_while(|class| is_front(Some(**class)))
        .count()
}

// A part of a text but for the end of its last line.
fn but_end(text: &[u8], part: Span) -> Span
    requires within { part.at + part.len ≤ length text.now }
    ensures value { result ≡ but_end text.now part }
    ensures within { result.at + result.len ≤ part.at + part.len }
{
    let at = part.at as usize;
    let end = end_len(&text[at..at + part.len as usize]);
    Span {
        at: part.at,
        len: part.len.saturating_sub(end),
    }
}

// How long the end of a line is: a line feed, with a carriage return before it or without.
fn end_len(line: &[u8]) -> u32
    ensures value { result ≡ end_len line.now }
{
    let len = line.len();
    if len >= 2 && line[len - 2] == b'\r' {
        2
    } else {
        1
    }
}

//! Pictures as they are printed, in colours where these are wanted.
ghost use Rattle.std.specs.Prelude.{◌≡◌, ◌++◌, [], IfOk, OnOk};
ghost use Rattle.org_base.specs.Results.{Adds};
ghost use Rattle.org_answer.specs.Painted.{ArePaintedLines, IsPainted, IsPaintedLine, file_color, painted_text, tone_color};

use crate::show::{PrintOptions, push_seen};
use org_look::{Sheet, Stain, Tone};
use std::alloc::{AllocError, Global};

/// The bytes of a picture, line by line: its own text, with colours in it where these are wanted.
#[tactic(auto, using(crate::proofs::PaintedLemmas::no_lines, crate::proofs::PaintedLemmas::one_line_more))]
pub fn picture_bytes(
    alloc: Global,
    sheet: &Sheet,
    look: &PrintOptions<'_, '_>,
) -> Result<Vec<u8>, AllocError>
    ensures lines { IfOk result (λ out. ArePaintedLines look.now.is_seen out.items) }
{
    let mut out = Vec::new(alloc);
    let mut stains: &[Stain] = if look.is_colored {
        sheet.stains.as_slice()
    } else {
        &[]
    };
    let mut first: usize = 0;
    for line in sheet.text.split_inclusive('\n') {
        let end = first.saturating_add(line.len());
        let (own, others) = stains_before(stains, end);
        let place = Place {
            first,
            is_seen: look.is_seen,
        };
        push_line(&mut out, line.trim_end_matches('\n'), own, place)?;
        stains = others;
        first = end;
    }
    Ok(out)
}

// The stains that begin before a byte, and those behind them.
fn stains_before(stains: &[Stain], end: usize) -> (&[Stain], &[Stain]) {
    for (place, stain) in stains.iter().enumerate() {
        if stain.first >= end {
            return stains.split_at(place);
        }
    }
    (stains, &[])
}

// Where a line begins in its picture, and whether control characters are written so that they can be seen.
#[derive(Clone, Copy)]
struct Place {
    first: usize,
    is_seen: bool,
}

// Appends a line of a picture, its parts that have a stain in their colours.
fn push_line(
    out: &mut Vec<u8>,
    line: &str,
    stains: &[Stain],
    place: Place,
) -> Result<(), AllocError>
    ensures { OnOk result (IsPaintedLine place.is_seen line.now out.old.items out.new.items) }
{
    push_parts(out, line, stains, place)?;
    out.push(b'\n')?;
    Ok(())
}

#[tactic(auto, using(crate::proofs::PaintedLemmas::begins, crate::proofs::PaintedLemmas::goes_on, crate::proofs::PaintedLemmas::ends))]
fn push_parts(
    out: &mut Vec<u8>,
    line: &str,
    stains: &[Stain],
    place: Place,
) -> Result<(), AllocError>
    ensures { OnOk result (IsPainted place.is_seen line.now out.old.items out.new.items) }
{
    let mut rest = line;
    let mut first = place.first;
    for stain in stains {
        let (before, behind) = cut_at(rest, stain.first.saturating_sub(first));
        let (own, left) = cut_at(behind, stain.end.saturating_sub(stain.first));
        push_part(out, Tone::Plain, before, place.is_seen)?;
        push_part(out, stain.tone, own, place.is_seen)?;
        rest = left;
        first = stain.end;
    }
    push_part(out, Tone::Plain, rest, place.is_seen)?;
    Ok(())
}

// A text up to a byte, and from it on; the whole where it has no character that begins there.
fn cut_at(text: &str, place: usize) -> (&str, &str)
    ensures { result.0.now ++ result.1.now ≡ text.now }
{
    match text.split_at_checked(place) {
        Some(parts) => parts,
        None => (text, ""),
    }
}

// Appends a part of a line in its colour, if it has any text.
#[tactic(auto, using(crate::proofs::PaintedLemmas::nothing, crate::proofs::PaintedLemmas::one_part))]
fn push_part(out: &mut Vec<u8>, tone: Tone, text: &str, is_seen: bool) -> Result<(), AllocError>
    ensures { OnOk result (IsPainted is_seen text.now out.old.items out.new.items) }
{
    if text.is_empty() {
        return Ok(());
    }
    push_painted(out, tone, text, is_seen)
}

fn push_painted(out: &mut Vec<u8>, tone: Tone, text: &str, is_seen: bool) -> Result<(), AllocError>
    ensures { Adds result out.old out.new (painted_text is_seen tone text.now) }
{
    let color = color_of(tone);
    out.extend_from_slice(color.as_bytes())?;
    push_seen(out, text, is_seen)?;
    if !color.is_empty() {
        out.extend_from_slice(b"\x1b[0m")?;
    }
    Ok(())
}

fn color_of(tone: Tone) -> &'static str
    ensures { result.now ≡ tone_color tone }
{
    match tone {
        Tone::Plain => "",
        Tone::Strong => "\x1b[1m",
        Tone::Faint => "\x1b[2m",
        Tone::Today => "\x1b[7m",
        Tone::Late => "\x1b[31m",
        Tone::Soon => "\x1b[33m",
        Tone::File(place) => file_color(place),
    }
}

// The colour of a file: six of them in turn, of which none is red, yellow or blue.
fn file_color(place: usize) -> &'static str
    ensures { result.now ≡ file_color place }
{
    match place % 6 {
        0 => "\x1b[36m",
        1 => "\x1b[35m",
        2 => "\x1b[32m",
        3 => "\x1b[96m",
        4 => "\x1b[95m",
        _ => "\x1b[92m",
    }
}

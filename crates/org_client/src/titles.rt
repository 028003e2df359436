//! The words of a title.
ghost use Rattle.std.specs.Prelude.{◌≡◌, ◌∷◌, [], ◌++◌, drop, false};
ghost use Rattle.org_base.specs.Results.{Adds, GivesItems};
ghost use Rattle.org_client.specs.TitleWords.{beside_stamps, gap, is_blank, part, words_text, title_words};
ghost use Rattle.org_stamp.specs.Line.{stamps_of};

use org_stamp::stamps_in;
use std::alloc::{AllocError, Global};

/// The words of a title without its active stamps, with one space between any two; a title that is nothing else whole.
pub(crate) fn title_words(alloc: Global, title: &[u8]) -> Result<Vec<u8>, AllocError>
    ensures value { GivesItems result (title_words title.now) }
{
    let beside = beside_stamps(alloc, title)?;
    let words = words_text(alloc, beside.as_slice())?;
    match words.as_slice() {
        [] => Vec::from_slice(alloc, title),
        _ => Ok(words),
    }
}

/// A title with a space in place of each active stamp.
pub(crate) fn beside_stamps(alloc: Global, title: &[u8]) -> Result<Vec<u8>, AllocError>
    ensures value { GivesItems result (beside_stamps title.now 0 (stamps_of title.now)) }
{
    let mut out = Vec::new(alloc);
    let mut from = 0;
    for found in stamps_in(title) {
        if found.stamp.active {
            push_part(&mut out, title, from, found.at)?;
            from = found.at + found.len;
        }
    }
    out.extend_from_slice(behind(title, from))?;
    Ok(out)
}

// Appends a part of a title, and a space.
fn push_part(out: &mut Vec<u8>, title: &[u8], from: usize, to: usize) -> Result<(), AllocError>
    ensures value { Adds result out.old out.new (part title.now from to ++ 32 ∷ []) }
{
    out.extend_from_slice(part(title, from, to))?;
    out.push(b' ')?;
    Ok(())
}

fn part(title: &[u8], from: usize, to: usize) -> &[u8]
    ensures value { result.now ≡ part title.now from to }
{
    if from <= to && to <= title.len() {
        &title[from..to]
    } else {
        b""
    }
}

// The bytes from a place on.
fn behind(title: &[u8], from: usize) -> &[u8]
    ensures value { result.now ≡ drop from title.now }
{
    if from <= title.len() {
        &title[from..]
    } else {
        b""
    }
}

// Words with one space between any two.
fn words_text(alloc: Global, bytes: &[u8]) -> Result<Vec<u8>, AllocError>
    ensures value { GivesItems result (words_text false false bytes.now) }
{
    let mut out = Vec::new(alloc);
    let mut has_word = false;
    let mut is_apart = false;
    for byte in bytes {
        if is_blank(*byte) {
            is_apart = true;
        } else {
            push_byte(&mut out, has_word && is_apart, *byte)?;
            has_word = true;
            is_apart = false;
        }
    }
    Ok(out)
}

fn is_blank(byte: u8) -> bool
    ensures value { result ≡ is_blank byte }
{
    byte == b' ' || byte == b'\t'
}

// Appends a byte, with a space in front of it, if that is wanted.
fn push_byte(out: &mut Vec<u8>, is_apart: bool, byte: u8) -> Result<(), AllocError>
    ensures value { Adds result out.old out.new (gap is_apart ++ byte ∷ []) }
{
    if is_apart {
        out.push(b' ')?;
    }
    out.push(byte)?;
    Ok(())
}

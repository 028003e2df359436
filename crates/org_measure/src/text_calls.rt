//! Calls of lists of byte texts, of texts of both kinds, and of their lines.
ghost use Rattle.std.specs.Prelude.{◌≡◌, length};

use org_base::{Fault, Span, Texts};
use org_lines::{Lines, line_starts};
use org_pieces::Pieces;
use org_text::{Text, Whole};
use std::alloc::Global;

/// Whether a text has these bytes. It takes no memory.
pub fn shows<T: Text>(text: &T, want: &[u8]) -> bool {
    if text.len() != want.len() {
        return false;
    }
    for (place, byte) in want.iter().enumerate() {
        if text.piece_at(place).first() != Some(byte) {
            return false;
        }
    }
    true
}

fn has_one(texts: &Texts, want: &[u8]) -> bool {
    texts.count() == 1 && texts.get(0) == want
}

// A second one put after a first.
fn pushes(texts: &mut Texts) -> Result<bool, Fault> {
    match texts.push(b"second") {
        Ok(()) => Ok(texts.count() == 2),
        Err(fault) if has_one(texts, b"first") => Err(fault),
        Err(_) => Ok(false),
    }
}

fn copy_is_equal(texts: &Texts) -> Result<bool, Fault> {
    Ok(texts.copy()?.count() == 2)
}

/// Texts pushed and copied.
pub fn copies_texts(alloc: Global) -> Result<bool, Fault> {
    let mut texts = Texts::new(alloc);
    texts.push(b"first")?;
    Ok(pushes(&mut texts)? && copy_is_equal(&texts)?)
}

const BEFORE: &str = "* TODO a\n* TODO b\n";

const AFTER: &str = "* TODO a\nx* TODO b\n";

// A byte put in, while another text shares what is there.
fn edits_alone<T: Text>(text: &mut T, shared: &T) -> Result<bool, Fault> {
    let edited = text.edit(9, 0, "x");
    if !shows(shared, BEFORE.as_bytes()) {
        return Ok(false);
    }
    match edited {
        Ok(()) => Ok(shows(text, AFTER.as_bytes())),
        Err(fault) if shows(text, BEFORE.as_bytes()) => Err(fault),
        Err(_) => Ok(false),
    }
}

fn shares<T: Text>(text: &mut T) -> Result<bool, Fault> {
    let shared = text.share()?;
    edits_alone(text, &shared)
}

fn copies_out<T: Text>(text: &T) -> Result<bool, Fault> {
    Ok(text.copy_out()?.as_str() == AFTER)
}

/// A text made, shared, edited and copied out.
pub fn edits<T: Text>(alloc: Global) -> Result<bool, Fault> {
    let mut text = T::of(alloc, BEFORE)?;
    Ok(shares(&mut text)? && copies_out(&text)?)
}

fn all_of<T: Text>(text: &T) -> Span
    ensures at { result.at ≡ 0 }
    ensures len { result.len ≡ length (T.content text.now) }
{
    Span {
        at: 0,
        len: text.len() as u32,
    }
}

// How many bytes the lines of a text have together.
fn line_bytes<T: Text>(alloc: Global, text: &T) -> Result<u64, Fault> {
    let mut bytes = 0u64;
    for line in Lines::new(alloc, text, all_of(text)) {
        bytes = bytes.saturating_add(line?.bytes.as_slice().len() as u64);
    }
    Ok(bytes)
}

fn starts_are<T: Text>(alloc: Global, text: &T, want: &[u32]) -> Result<bool, Fault> {
    Ok(line_starts(alloc, text, all_of(text))?.as_slice() == want)
}

/// Where the lines of a text begin.
pub fn cuts_lines(alloc: Global) -> Result<bool, Fault> {
    let text = Whole::of(alloc, "* TODO\n* TODOx\n*\n")?;
    starts_are(alloc, &text, &[0, 7, 15])
}

// So many letters in one line.
fn letters(alloc: Global, count: u32) -> Result<String, Fault> {
    let mut line = String::new(alloc);
    for _letter in 0..count {
        line.push('x')?;
    }
    Ok(line)
}

// A line of 4,000 bytes with one more in its middle.
fn long_line(alloc: Global) -> Result<Pieces, Fault> {
    let mut text = Pieces::of_string(alloc, letters(alloc, 4_000)?)?;
    text.edit(2_000, 0, "y")?;
    Ok(text)
}

/// A line that lies in several pieces.
pub fn assembles_a_line(alloc: Global) -> Result<bool, Fault> {
    let text = long_line(alloc)?;
    Ok(line_bytes(alloc, &text)? == 4_001)
}

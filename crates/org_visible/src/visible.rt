//! Texts as they are shown: without control characters, and without marks that turn or hide text.
ghost use Rattle.std.specs.Prelude.{◌≡◌, ◌<◌, ◌/◌, ◌%◌, [], ◌∷◌, ◌++◌};
ghost use Rattle.org_base.specs.Results.{Adds};
ghost use Rattle.org_visible.specs.Unseen.{front_bytes};
ghost use Rattle.org_visible.specs.Visible.{caret, caret_latin, control, cut, digits, field_byte, hex, json_front, other, questions, single, visible, written};

use crate::front::{
    Block, Front, block_of, ends, front_bytes, is_control, is_first, next, place, waits,
};
use std::alloc::AllocError;

/// How characters are written that aren't shown as they are, and what else of a text isn't written as it stands.
#[derive(Clone, Copy, Debug, PartialEq, Eq)]
pub enum Escape {
    /// As in a string of JSON: `\u001b`, and `\udb40\udc41` for U+E0041; a quotation mark and a backslash stand after a
    /// backslash.
    Json,
    /// For a person: `^[`, `^?`, `<9b>` for U+009B and `<202e>` for U+202E.
    Caret,
    /// As in a field between commas: a space; a comma is a semicolon.
    Field,
    /// A question mark for each byte.
    Question,
}

/// Appends a text without the characters that aren't shown as they are: control characters, U+0000 to U+001F and U+007F to
/// U+009F, marks that turn text around, U+202A to U+202E and U+2066 to U+2069, and tags, which hide it, U+E0000 to U+E007F.
/// They are written so that they can be seen. Bytes that are no UTF-8 are taken as they come; where a text ends within such a
/// character each byte of it is written by its number.
#[tactic(auto, unfolding(crate::specs::Visible::visible))]
pub fn push_visible(out: &mut Vec<u8>, text: &[u8], escape: Escape) -> Result<(), AllocError>
    ensures { Adds result out.old out.new (visible escape text.now) }
{
    let mut front = Front::Empty;
    for byte in text {
        push_next(out, escape, front, *byte)?;
        front = next(front, *byte);
    }
    push_cut(out, escape, front)
}

// Appends a byte, and in front of it what came of a character, unless it goes on with that.
fn push_next(out: &mut Vec<u8>, escape: Escape, front: Front, byte: u8) -> Result<(), AllocError>
    ensures { Adds result out.old out.new (written escape front byte) }
{
    if ends(front, byte) {
        return push_control(out, escape, block_of(front), place(front, byte));
    }
    if waits(front, byte) {
        return Ok(());
    }
    push_front(out, front)?;
    push_single(out, escape, byte)
}

// Appends what came of a character, as it stands.
fn push_front(out: &mut Vec<u8>, front: Front) -> Result<(), AllocError>
    ensures { Adds result out.old out.new (front_bytes front) }
{
    out.extend_from_slice(front_bytes(front))?;
    Ok(())
}

// Appends a byte that goes on with no character; the first byte of one waits for the next.
fn push_single(out: &mut Vec<u8>, escape: Escape, byte: u8) -> Result<(), AllocError>
    ensures { Adds result out.old out.new (single escape byte) }
{
    if is_first(byte) {
        return Ok(());
    }
    if is_control(byte) {
        return push_control(out, escape, Block::Latin, byte);
    }
    push_other(out, escape, byte)
}

// Appends the bytes of a character that is cut, each by its number.
fn push_cut(out: &mut Vec<u8>, escape: Escape, front: Front) -> Result<(), AllocError>
    ensures { Adds result out.old out.new (cut escape front) }
{
    let bytes = front_bytes(front);
    for byte in bytes {
        push_control(out, escape, Block::Latin, *byte)?;
    }
    Ok(())
}

// Appends a character that isn't shown as it is, of a place among others.
fn push_control(
    out: &mut Vec<u8>,
    escape: Escape,
    block: Block,
    place: u8,
) -> Result<(), AllocError>
    ensures { Adds result out.old out.new (control escape block place) }
{
    match escape {
        Escape::Json => {
            out.extend_from_slice(json_front(block))?;
            push_digits(out, place)
        }
        Escape::Caret => push_caret(out, block, place),
        Escape::Field => push(out, b' '),
        Escape::Question => {
            out.extend_from_slice(questions(block, place))?;
            Ok(())
        }
    }
}

fn json_front(block: Block) -> &'static [u8]
    ensures { result.now ≡ json_front block }
{
    match block {
        Block::Latin => b"\\u00",
        Block::Punctuation => b"\\u20",
        Block::Tags => b"\\udb40\\udc",
    }
}

fn questions(block: Block, place: u8) -> &'static [u8]
    ensures { result.now ≡ questions block place }
{
    match block {
        Block::Latin if place < 128 => b"?",
        Block::Latin => b"??",
        Block::Punctuation => b"???",
        Block::Tags => b"????",
    }
}

// Appends such a character for a person.
fn push_caret(out: &mut Vec<u8>, block: Block, place: u8) -> Result<(), AllocError>
    ensures { Adds result out.old out.new (caret block place) }
{
    match block {
        Block::Latin => push_latin(out, place),
        Block::Punctuation => push_number(out, b"<20", place),
        Block::Tags => push_number(out, b"<e00", place),
    }
}

// Appends one of the first 256 characters for a person.
fn push_latin(out: &mut Vec<u8>, number: u8) -> Result<(), AllocError>
    ensures { Adds result out.old out.new (caret_latin number) }
{
    if number < 32 {
        out.push(b'^')?;
        return push(out, number + 64);
    }
    if number == 127 {
        out.extend_from_slice(b"^?")?;
        return Ok(());
    }
    push_number(out, b"<", number)
}

// Appends the front of a number, its last two digits, and a bracket.
fn push_number(out: &mut Vec<u8>, front: &[u8], number: u8) -> Result<(), AllocError>
    ensures { Adds result out.old out.new (front.now ++ digits number ++ 62 ∷ []) }
{
    out.extend_from_slice(front)?;
    push_digits(out, number)?;
    push(out, b'>')
}

// Appends two digits of base 16.
fn push_digits(out: &mut Vec<u8>, number: u8) -> Result<(), AllocError>
    ensures { Adds result out.old out.new (digits number) }
{
    out.push(hex(number / 16))?;
    push(out, hex(number % 16))
}

fn hex(digit: u8) -> u8
    requires { digit < 16 }
    ensures { result ≡ hex digit }
{
    if digit < 10 {
        b'0' + digit
    } else {
        b'a' + (digit - 10)
    }
}

fn push_other(out: &mut Vec<u8>, escape: Escape, byte: u8) -> Result<(), AllocError>
    ensures { Adds result out.old out.new (other escape byte) }
{
    match escape {
        Escape::Json => push_escaped(out, byte),
        Escape::Caret | Escape::Question => push(out, byte),
        Escape::Field => push(out, field_byte(byte)),
    }
}

fn push_escaped(out: &mut Vec<u8>, byte: u8) -> Result<(), AllocError>
    ensures { Adds result out.old out.new (other Escape.Json byte) }
{
    if byte == b'"' || byte == b'\\' {
        out.push(b'\\')?;
    }
    push(out, byte)
}

fn field_byte(byte: u8) -> u8
    ensures { result ≡ field_byte byte }
{
    if byte == b',' { b';' } else { byte }
}

fn push(out: &mut Vec<u8>, byte: u8) -> Result<(), AllocError>
    ensures { Adds result out.old out.new (byte ∷ []) }
{
    out.push(byte)?;
    Ok(())
}

//! The words of a title that stay where its counts change.
ghost use Rattle.std.specs.Prelude.{◌≡◌, ◌+◌, ◌<◌, ◌≤◌, ◌^◌, ◌∷◌, [], ◌++◌, false, length};
ghost use Rattle.org_base.specs.Results.{GivesItems};
ghost use Rattle.org_ids.specs.Names.{AddsBounded};
ghost use Rattle.org_ids.specs.Words.{beside_cookies, closed_length, cookie_length, digit_count, gap, is_blank, is_digit, plain_words, signed_length, words_text};

use crate::names::push_bounded;
use std::alloc::{AllocError, Global};

/// Appends the words of a title without its cookies of counts, with one space between any two, as far as a name goes.
pub(crate) fn push_words(alloc: Global, out: &mut Vec<u8>, title: &[u8]) -> Result<(), AllocError>
    ensures ok { AddsBounded result out.old out.new (plain_words title.now) }
{
    if title.contains(&b'[') {
        let beside = beside_cookies(alloc, title)?;
        return push_blanked(out, beside.as_slice());
    }
    push_blanked(out, title)
}

// A title with a space in place of each cookie.
fn beside_cookies(alloc: Global, title: &[u8]) -> Result<Vec<u8>, AllocError>
    ensures value { GivesItems result (beside_cookies 0 title.now) }
{
    let mut out = Vec::new(alloc);
    let mut left = 0;
    for place in 0..title.len() {
        if left > 0 {
            left -= 1;
        } else {
            let length = cookie_length(&title[place..]);
            if length > 0 {
                out.push(b' ')?;
                left = length - 1;
            } else {
                out.push(title[place])?;
            }
        }
    }
    Ok(out)
}

// How long the cookie is with which bytes begin.
fn cookie_length(bytes: &[u8]) -> usize
    ensures value { result ≡ cookie_length bytes.now }
{
    match bytes {
        [b'[', rest @ ..] => {
            let digits = digit_count(rest);
            signed_length(digits + 1, &rest[digits..])
        }
        _ => 0,
    }
}

fn signed_length(front: usize, bytes: &[u8]) -> usize
    requires few { front + length bytes.now < 2 ^ 63 }
    ensures value { result ≡ signed_length front bytes.now }
{
    match bytes {
        [b'%', rest @ ..] => closed_length(front + 1, rest),
        [b'/', rest @ ..] => {
            let digits = digit_count(rest);
            closed_length(front + 1 + digits, &rest[digits..])
        }
        _ => 0,
    }
}

fn closed_length(front: usize, bytes: &[u8]) -> usize
    requires few { front < 2 ^ 63 }
    ensures value { result ≡ closed_length front bytes.now }
{
    match bytes {
        [b']', ..] => front + 1,
        _ => 0,
    }
}

// How many digits stand in front.
fn digit_count(bytes: &[u8]) -> usize
    ensures value { result ≡ digit_count bytes.now }
    ensures within { result ≤ length bytes.now }
{
    for place in 0..bytes.len() {
        if !is_digit(bytes[place]) {
            return place;
        }
    }
    bytes.len()
}

fn is_digit(byte: u8) -> bool
    ensures value { result ≡ is_digit byte }
{
    b'0' <= byte && byte <= b'9'
}

// Appends words with one space between any two, as far as a name goes.
fn push_blanked(out: &mut Vec<u8>, bytes: &[u8]) -> Result<(), AllocError>
    ensures ok { AddsBounded result out.old out.new (words_text false false bytes.now) }
{
    let mut has_word = false;
    let mut is_apart = false;
    for byte in bytes {
        if is_blank(*byte) {
            is_apart = true;
        } else {
            push_byte(out, has_word && is_apart, *byte)?;
            has_word = true;
            is_apart = false;
        }
    }
    push_bounded(out, &[])
}

fn is_blank(byte: u8) -> bool
    ensures value { result ≡ is_blank byte }
{
    byte == b' ' || byte == b'\t' || byte == b'\n'
}

// Appends a byte, with a space in front of it, if that is wanted.
fn push_byte(out: &mut Vec<u8>, is_apart: bool, byte: u8) -> Result<(), AllocError>
    ensures ok { AddsBounded result out.old out.new (gap is_apart ++ byte ∷ []) }
{
    if is_apart {
        return push_bounded(out, &[b' ', byte]);
    }
    push_bounded(out, &[byte])
}

//! The stamps of a line.
ghost use Rattle.std.specs.Prelude.{◌≡◌, ◌+◌, ◌-◌, ◌<◌, ◌≤◌, length, drop, get_or, IfSome};
ghost use Rattle.std.specs.Char.{is_ascii_digit};
ghost use Rattle.std.specs.List.{position_or_len};
ghost use Rattle.std.specs.Iterator.{YieldsFirst, item_count};
ghost use Rattle.org_stamp.specs.Line.{AreStampsOf, stamps_from, stamps_of};
ghost use Rattle.org_stamp.specs.Read.{stamp_of};
ghost use Rattle.org_stamp.specs.Stamp.{is_close};

use crate::read::{first_close, stamp_before};
use crate::stamp::{Found, Stamp};
use std::marker::Model;

/// The stamps of a line that are still to come: contracts see their list.
#[derive(Debug, Drop)]
pub struct LineStamps<'a> {
    line: &'a [u8],
    at: usize,
    // The first closing bracket from `at` on, or the line's length; or a place before `at`.
    close: usize,
}

impl<'a> Model for LineStamps<'a> {
    ghost use Rattle.std.specs.Prelude.{◌≡◌, ◌+◌, ◌≤◌, List, length, drop};
    ghost use Rattle.std.specs.List.{position_or_len};
    ghost use Rattle.org_stamp.specs.declared.stamp.Found.{Found as AnyFound};
    ghost use Rattle.org_stamp.specs.Line.{stamps_from};
    ghost use Rattle.org_stamp.specs.Stamp.{is_close};

    ghost Value = { List AnyFound };

    ghost view = { λ s. stamps_from (drop s.at s.line.now) s.at 0 };

    ghost invariant = { λ s. (s.at ≤ length s.line.now)
        × (s.at ≤ s.close → s.close ≡ s.at + position_or_len is_close (drop s.at s.line.now)) };
}

/// The first closing bracket from the place on, or the line's length, where the one that is known lies before the place or
/// is that one. So a walk over a line from the left looks at each byte once.
pub fn next_close(line: &[u8], at: usize, known: usize) -> usize
    requires within { at ≤ length line.now }
    requires known { at ≤ known → known ≡ at + position_or_len is_close (drop at line.now) }
    ensures value { result ≡ at + position_or_len is_close (drop at line.now) }
{
    if at <= known {
        return known;
    }
    let (_, rest) = line.split_at(at);
    at + first_close(rest)
}

// Whether a digit stands after the place, as after the bracket that opens a stamp.
fn digit_follows(line: &[u8], at: usize) -> bool
    requires within { at < length line.now }
    ensures value { result ≡ is_ascii_digit (get_or line.now (at + 1) 0) }
{
    match line.get(at + 1) {
        Some(byte) => byte.is_ascii_digit(),
        None => false,
    }
}

/// The longest stamp that begins at the place, and its length in bytes, where the first closing bracket from there on is
/// known: what `read_stamp` answers, without a search for that bracket.
pub fn stamp_at(line: &[u8], at: usize, close: usize) -> Option<(Stamp, usize)>
    requires within { at ≤ length line.now }
    requires close { close ≡ at + position_or_len is_close (drop at line.now) }
    ensures value { result ≡ stamp_of (drop at line.now) }
    ensures within { IfSome result (λ found. at + found.1 ≤ length line.now) }
{
    let (_, rest) = line.split_at(at);
    stamp_before(rest, close - at)
}

impl<'a> Iterator for LineStamps<'a> {
    type Item = Found;

    ghost next_gives = { YieldsFirst (λ s. s) };

    ghost remaining = { item_count (λ s. s) };

    fn next(&mut self) -> Option<Found> {
        while self.at < self.line.len() {
            let at = self.at;
            if !digit_follows(self.line, at) {
                self.at = at + 1;
                continue;
            }
            self.close = next_close(self.line, at, self.close);
            match stamp_at(self.line, at, self.close) {
                Some((stamp, len)) => {
                    self.at = at + len;
                    return Some(Found { at, len, stamp });
                }
                None => self.at = at + 1,
            }
        }
        None
    }
}

/// The stamps of the line, from the left: each is the longest at its place, none overlaps another, and each place
/// where a stamp begins lies in one of them. Their walk is linear in the line and takes no memory.
pub fn stamps_in(line: &[u8]) -> LineStamps<'_>
    ensures value { result ≡ stamps_of line.now }
    ensures stamps { AreStampsOf line.now result }
{
    let close = first_close(line);
    LineStamps {
        line,
        at: first_place(line, close),
        close,
    }
}

// Where the walk of a line begins: at its front, or after it where no closing bracket stands in it, as no stamp does then.
fn first_place(line: &[u8], close: usize) -> usize
    requires close { close ≡ position_or_len is_close line.now }
    ensures within { result ≤ length line.now }
    ensures close { result ≤ close → close ≡ result + position_or_len is_close (drop result line.now) }
    ensures left { stamps_from (drop result line.now) result 0 ≡ stamps_of line.now }
{
    if close < line.len() { 0 } else { line.len() }
}

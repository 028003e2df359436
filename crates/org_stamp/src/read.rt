//! A stamp at a place of a line.
ghost use Rattle.std.specs.Prelude.{◌≡◌, ◌+◌, ◌-◌, ◌≤◌, ◌<◌, ◌^◌, length, take, drop, position, Some, IfSome, is_some};
ghost use Rattle.std.specs.List.{position_or_len};
ghost use Rattle.org_stamp.specs.Read.{IsOnlySingle, NoneIsLonger, closed, ranged, ranged_len, single_of, stamp_of};
ghost use Rattle.org_stamp.specs.CanPrint.{CanPrint};
ghost use Rattle.org_stamp.specs.Seen.{begins_inactive, begins_single};
ghost use Rattle.org_stamp.specs.Stamp.{IsSingle, IsStamp, is_close, with_last};

use crate::inner::{inner_of, is_inner};
use crate::stamp::Stamp;
use memchr::memchr2;

/// The longest stamp that begins at the place, and its length in bytes (Org manual 9.6, "Timestamps"). A range is
/// longer than its first stamp. None where none begins there.
pub fn read_stamp(line: &[u8], at: usize) -> Option<(Stamp, usize)>
    requires { at ≤ length line.now }
    ensures value { result ≡ stamp_of (drop at line.now) }
    ensures within { IfSome result (λ found. at + found.1 ≤ length line.now) }
    ensures found { IfSome result (λ found. IsStamp (take found.1 (drop at line.now)) found.0) }

    // Whatever stamp begins there is no longer than the answer, and is the answer where it is as long.
    ensures longest { NoneIsLonger (drop at line.now) result }
    ensures bounds { IfSome result (λ found. CanPrint found.0) }
{
    let (_, rest) = line.split_at(at);
    stamp_of(rest)
}

/// The stamp that begins at the place, and its length in bytes; of a range its first stamp alone. None where none
/// begins there.
pub fn read_single(line: &[u8], at: usize) -> Option<(Stamp, usize)>
    requires { at ≤ length line.now }
    ensures value { result ≡ single_of (drop at line.now) }
    ensures within { IfSome result (λ found. at + found.1 ≤ length line.now) }
    ensures found { IfSome result (λ found. IsSingle (take found.1 (drop at line.now)) found.0) }

    // At most one begins there.
    ensures only { IsOnlySingle (drop at line.now) result }
    ensures bounds { IfSome result (λ found. CanPrint found.0) }
{
    let (_, rest) = line.split_at(at);
    single_of(rest)
}

/// The place of the first closing bracket, or the length.
pub fn first_close(bytes: &[u8]) -> usize
    ensures value { result ≡ position_or_len is_close bytes.now }
    ensures within { result ≤ length bytes.now }
{
    match memchr2(b'>', b']', bytes) {
        Some(place) => place,
        None => bytes.len(),
    }
}

// The stamp whose bytes after the opening bracket are these, with the first closing bracket at that place.
fn stamp_until_close(active: bool, bytes: &[u8], close: usize) -> Option<(Stamp, usize)>
    requires close { close ≡ position_or_len is_close bytes.now }
    ensures value { result ≡ closed active bytes.now (position is_close bytes.now) }
    ensures within { IfSome result (λ found. found.1 ≤ length bytes.now + 1) }
{
    let bracket = bytes.get(close)?;
    if *bracket != if active { b'>' } else { b']' } {
        return None;
    }
    let found = inner_of(active, &bytes[..close])?;
    Some((found, close + 2))
}

// The stamp of one day at the front, and its length, where the first closing bracket is known.
#[tactic(auto, unfolding(crate::specs::Read::single_of))]
fn single_before(bytes: &[u8], close: usize) -> Option<(Stamp, usize)>
    requires close { close ≡ position_or_len is_close bytes.now }
    ensures value { result ≡ single_of bytes.now }
    ensures within { IfSome result (λ found. found.1 ≤ length bytes.now) }
{
    match bytes {
        [b'<', rest @ ..] => stamp_until_close(true, rest, close - 1),
        [b'[', rest @ ..] => stamp_until_close(false, rest, close - 1),
        _ => None,
    }
}

// The stamp of one day at the front, and its length.
#[tactic(auto, unfolding(crate::specs::Read::single_of))]
pub(crate) fn single_of(bytes: &[u8]) -> Option<(Stamp, usize)>
    ensures value { result ≡ single_of bytes.now }
    ensures within { IfSome result (λ found. found.1 ≤ length bytes.now) }
{
    match bytes {
        [b'<' | b'[', ..] => single_before(bytes, first_close(bytes)),
        _ => None,
    }
}

// Whether a stamp of one day stands at the front. What it says isn't worked out where it has printed form.
#[tactic(auto, unfolding(crate::specs::Read::single_of))]
pub(crate) fn begins_single(bytes: &[u8]) -> bool
    ensures value { result ≡ begins_single bytes.now }
{
    match bytes {
        [b'<', rest @ ..] => is_closed(true, rest, first_close(rest)),
        [b'[', rest @ ..] => is_closed(false, rest, first_close(rest)),
        _ => false,
    }
}

// Whether an inactive stamp of one day stands at the front.
#[tactic(auto, using(crate::proofs::SeenLemmas::inactive_front, crate::proofs::SeenLemmas::other_front, crate::proofs::SeenLemmas::no_front))]
pub(crate) fn begins_inactive(bytes: &[u8]) -> bool
    ensures value { result ≡ begins_inactive bytes.now }
{
    let Some((first, rest)) = bytes.split_first() else {
        return false;
    };
    *first == b'[' && is_closed(false, rest, first_close(rest))
}

// Whether a stamp stands before the first closing bracket, which is at that place.
fn is_closed(active: bool, bytes: &[u8], close: usize) -> bool
    requires close { close ≡ position_or_len is_close bytes.now }
    ensures value { result ≡ is_some (closed active bytes.now (position is_close bytes.now)) }
{
    let Some(bracket) = bytes.get(close) else {
        return false;
    };
    if *bracket != if active { b'>' } else { b']' } {
        return false;
    }
    is_inner(active, &bytes[..close])
}

// The longest stamp at the front, and its length, where the first closing bracket is known.
pub(crate) fn stamp_before(bytes: &[u8], close: usize) -> Option<(Stamp, usize)>
    requires close { close ≡ position_or_len is_close bytes.now }
    ensures value { result ≡ stamp_of bytes.now }
    ensures within { IfSome result (λ found. found.1 ≤ length bytes.now) }
{
    let (first, len) = single_before(bytes, close)?;
    Some(stamp_or_range(first, len, &bytes[len..]))
}

// The longest stamp at the front, and its length.
pub(crate) fn stamp_of(bytes: &[u8]) -> Option<(Stamp, usize)>
    ensures value { result ≡ stamp_of bytes.now }
    ensures within { IfSome result (λ found. found.1 ≤ length bytes.now) }
{
    let (first, len) = single_of(bytes)?;
    Some(stamp_or_range(first, len, &bytes[len..]))
}

// A stamp with its length, or the range that it begins with what follows it.
fn stamp_or_range(first: Stamp, len: usize, rest: &[u8]) -> (Stamp, usize)
    requires { len + length rest.now < 2 ^ 63 }
    ensures value { result ≡ ranged first len rest.now }
    ensures within { result.1 ≤ len + length rest.now }
{
    match rest {
        [b'-', b'-', back @ ..] => match single_of(back) {
            Some((second, more)) if second.active == first.active => {
                (with_last(first, second), len + 2 + more)
            }
            _ => (first, len),
        },
        _ => (first, len),
    }
}

// The length of a stamp with what follows it, if it begins a range, else its own.
pub(crate) fn ranged_len(active: bool, len: usize, rest: &[u8]) -> usize
    requires { len + length rest.now < 2 ^ 63 }
    ensures value { result ≡ ranged_len active len rest.now }
    ensures within { result ≤ len + length rest.now }
{
    match rest {
        [b'-', b'-', back @ ..] => match single_of(back) {
            Some((second, more)) if second.active == active => len + 2 + more,
            _ => len,
        },
        _ => len,
    }
}

fn with_last(first: Stamp, second: Stamp) -> Stamp
    ensures value { result ≡ with_last first second }
{
    Stamp {
        last: Some((second.day, second.time)),
        ..first
    }
}

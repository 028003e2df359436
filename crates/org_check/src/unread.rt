//! Places of a line that look like a stamp.
ghost use Rattle.std.specs.Prelude.{◌≡◌, ◌+◌, ◌≤◌, length, drop};
ghost use Rattle.std.specs.List.{position_or_len};
ghost use Rattle.org_check.specs.Looks.{is_open, looks_like_stamp};
ghost use Rattle.org_check.specs.UnreadStamps.{IsNextLook};

use crate::looks::looks_like_stamp;
use memchr::memchr2;

// The place of the first bracket that opens a stamp, or the length.
fn first_open(bytes: &[u8]) -> usize
    ensures value { result ≡ position_or_len is_open bytes.now }
    ensures within { result ≤ length bytes.now }
{
    match memchr2(b'<', b'[', bytes) {
        Some(place) => place,
        None => bytes.len(),
    }
}

// The same from a place of a line on.
fn next_open(line: &[u8], at: usize) -> usize
    requires within { at ≤ length line.now }
    ensures value { result ≡ at + position_or_len is_open (drop at line.now) }
    ensures within { result ≤ length line.now }
{
    let (_, rest) = line.split_at(at);
    at + first_open(rest)
}

// Whether what stands at a place of a line looks like a stamp.
fn looks_at(line: &[u8], place: usize) -> bool
    requires within { place ≤ length line.now }
    ensures value { result ≡ looks_like_stamp (drop place line.now) }
{
    let (_, rest) = line.split_at(place);
    looks_like_stamp(rest)
}

/// The first place of a line from one on that looks like a stamp: a bracket and a date-like text at once.
pub fn next_look(line: &[u8], at: usize) -> Option<usize>
    requires within { at ≤ length line.now }
    ensures value { IsNextLook line.now at result }
{
    let mut place = next_open(line, at);
    while place < line.len() {
        if looks_at(line, place) {
            return Some(place);
        }
        place = next_open(line, place + 1);
    }
    None
}

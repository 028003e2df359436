//! Lines of a text, and the heading that stands on one.
ghost use Rattle.std.specs.Prelude.{◌≡◌, ◌==◌, ◌<◌, ◌≤◌, IfSome, drop, length, position};
ghost use Rattle.org_act.specs.Lines.{first_line, has_feed, heading_at, line_end, subtree_end};
ghost use Rattle.org_lines.specs.Cuts.{lines};

use org_class::{begins_heading, leading_stars};

// The first line of a text, with what ends it; empty where there is none.
pub(crate) fn first_line(text: &[u8]) -> &[u8]
    ensures value { result.now ≡ first_line text.now }
    ensures within { length result.now ≤ length text.now }
{
    match line_feed(text) {
        Some(place) => &text[..place + 1],
        None => text,
    }
}

// Where the first line feed stands.
fn line_feed(text: &[u8]) -> Option<usize>
    ensures value { result ≡ position (λ b. b == 10) text.now }
    ensures within { IfSome result (λ place. place < length text.now) }
{
    text.iter().position(|byte| *byte == b'\n')
}

// Whether a line feed is the last byte.
pub(crate) fn has_feed(line: &[u8]) -> bool
    ensures value { result ≡ has_feed line.now }
{
    match line.last() {
        Some(byte) => *byte == b'\n',
        None => false,
    }
}

// What ends a line: a line feed, with a carriage return before it or without, or nothing.
pub(crate) fn line_end(line: &[u8]) -> &'static str
    ensures value { result.now ≡ line_end line.now }
    ensures short { length result.now ≤ 2 }
{
    if !has_feed(line) {
        return "";
    }
    let len = line.len();
    if len >= 2 && line[len - 2] == b'\r' {
        "\r\n"
    } else {
        "\n"
    }
}

// Where the line of a number begins, if it is a heading line. Lines count from 1.
pub(crate) fn heading_at(text: &[u8], number: u64) -> Option<usize>
    ensures value { result ≡ heading_at text.now number }
    ensures within { IfSome result (λ at. at ≤ length text.now) }
{
    let mut at = 0;
    let mut left = number;
    while at < text.len() {
        let line = first_line(&text[at..]);
        if left == 1 {
            return if begins_heading(line) { Some(at) } else { None };
        }
        left = left.saturating_sub(1);
        at += line.len();
    }
    None
}

// Where the headings below one of that level end, of the lines from a place on.
pub(crate) fn subtree_end(text: &[u8], from: usize, level: usize) -> usize
    requires within { from ≤ length text.now }
    ensures value { result ≡ subtree_end level from (lines (drop from text.now)) }
    ensures within { result ≤ length text.now }
{
    let mut at = from;
    while at < text.len() {
        let line = first_line(&text[at..]);
        if begins_heading(line) && leading_stars(line) <= level {
            return at;
        }
        at += line.len();
    }
    at
}

//! What ends a line.
ghost use Rattle.std.specs.Prelude.{◌≡◌};
ghost use Rattle.org_amend.specs.Tails.{line_tail, tail_len};

use crate::planning::has_feed;

// What ends a line: a line feed, with a carriage return before it or without, or nothing.
pub(crate) fn line_tail(line: &[u8]) -> &[u8]
    ensures value { result.now ≡ line_tail line.now }
{
    &line[line.len().saturating_sub(tail_len(line))..]
}

pub(crate) fn tail_len(line: &[u8]) -> usize
    ensures value { result ≡ tail_len line.now }
{
    if !has_feed(line) {
        return 0;
    }
    let len = line.len();
    if len >= 2 && line[len - 2] == b'\r' {
        2
    } else {
        1
    }
}

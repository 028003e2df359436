//! Planning lines and clock lines.
ghost use Rattle.std.specs.Prelude.{◌≡◌, ◌+◌, ◌<◌, ◌≤◌, ◌^◌, length, drop, IfSome};
ghost use Rattle.std.specs.List.{prefix_len};
ghost use Rattle.org_base.specs.Words.{is_space};
ghost use Rattle.org_stamp.specs.Pair.{EndsBehind, EndsFrom, IsFirstPair, clock_stamp, is_clock, is_planning, pair_at, pair_of, word_at};

use crate::pair::{Pair, PlanningKeyword};
use crate::read::{begins_inactive, begins_single, ranged_len, single_of, stamp_of};
use crate::stamp::Stamp;
use crate::word::leading_spaces;

/// The planning keyword at the front, and its length in bytes with its colon. Letter case counts.
pub fn planning_word(bytes: &[u8]) -> Option<(PlanningKeyword, usize)>
    ensures value { result ≡ word_at bytes.now }
    ensures bound { IfSome result (λ found. (0 < found.1) × (found.1 ≤ length bytes.now)) }
{
    if bytes.starts_with(b"SCHEDULED:") {
        Some((PlanningKeyword::Scheduled, 10))
    } else if bytes.starts_with(b"DEADLINE:") {
        Some((PlanningKeyword::Deadline, 9))
    } else if bytes.starts_with(b"CLOSED:") {
        Some((PlanningKeyword::Closed, 7))
    } else {
        None
    }
}

// How much white space stands at the front, and what follows it.
fn past_spaces(bytes: &[u8]) -> (usize, &[u8])
    ensures count { result.0 ≡ prefix_len is_space bytes.now }
    ensures rest { result.1.now ≡ drop result.0 bytes.now }
    ensures within { result.0 ≤ length bytes.now }
{
    let gap = leading_spaces(bytes);
    (gap, &bytes[gap..])
}

// The pair of a keyword whose stamp begins at the place.
fn pair_of(word: PlanningKeyword, at: usize, bytes: &[u8]) -> Option<Pair>
    requires { at + length bytes.now < 2 ^ 63 }
    ensures value { result ≡ pair_of word at bytes.now }
    ensures bound { IfSome result (EndsFrom at (at + length bytes.now)) }
{
    let (stamp, len) = single_of(bytes)?;
    let all = ranged_len(stamp.active, len, &bytes[len..]);
    Some(Pair {
        word,
        stamp,
        at,
        len,
        end: at + all,
    })
}

// The pair whose keyword stands at the place.
fn pair_at(line: &[u8], at: usize) -> Option<Pair>
    requires { at ≤ length line.now }
    ensures value { result ≡ pair_at at (drop at line.now) }
    ensures bound { IfSome result (EndsBehind at (length line.now)) }
{
    let bytes = &line[at..];
    let (word, len) = planning_word(bytes)?;
    let (gap, rest) = past_spaces(&bytes[len..]);
    pair_of(word, at + (len + gap), rest)
}

/// The first pair of a planning line from the place on, with white space or none before it: a keyword, white space or
/// none, a stamp (Org Syntax, "Planning"). None where something else stands there; letter case counts.
pub fn next_pair(line: &[u8], at: usize) -> Option<Pair>
    requires { at ≤ length line.now }

    // It is the first of the pairs from there on, and those after it are the pairs from its end on.
    ensures value { IsFirstPair line.now at result }
    ensures bound { IfSome result (EndsBehind at (length line.now)) }
{
    let gap = leading_spaces(&line[at..]);
    pair_at(line, at + gap)
}

/// The stamp of a clock line: `CLOCK:` and an inactive stamp, which for a closed clock is a range (Org Syntax,
/// "Clocks"). None where the line is no clock line.
pub fn clock_stamp(line: &[u8]) -> Option<Stamp>
    ensures value { result ≡ clock_stamp line.now }
{
    let (_, text) = past_spaces(line);
    if !text.starts_with(b"CLOCK:") {
        return None;
    }
    let (_, rest) = past_spaces(&text[6..]);
    let (stamp, _) = stamp_of(rest)?;
    if stamp.active { None } else { Some(stamp) }
}

/// Whether the line is a planning line where it stands directly under a heading: it begins with at least one pair.
pub fn is_planning(line: &[u8]) -> bool
    ensures value { result ≡ is_planning line.now }
{
    let (_, bytes) = past_spaces(line);
    let Some((_, len)) = planning_word(bytes) else {
        return false;
    };
    let (_, behind) = bytes.split_at(len);
    let (_, rest) = past_spaces(behind);
    begins_single(rest)
}

/// Whether the line is a clock line. The second stamp of a range doesn't decide it, and isn't read.
#[tactic(auto, using(crate::proofs::ClockLemmas::first_decides))]
pub fn is_clock(line: &[u8]) -> bool
    ensures value { result ≡ is_clock line.now }
{
    let (_, text) = past_spaces(line);
    if !text.starts_with(b"CLOCK:") {
        return false;
    }
    let (_, rest) = past_spaces(&text[6..]);
    begins_inactive(rest)
}

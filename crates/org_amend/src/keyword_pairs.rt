//! The pairs of a planning line, each a keyword with its stamp.
ghost use Rattle.std.specs.Prelude.{◌≡◌, ◌+◌, ◌≤◌, [], IfSome, length};
ghost use Rattle.org_amend.specs.Planning.{bytes_under, kept_from, last_pair, pair_text, with_pair, with_part, with_stamp, without_pairs};
ghost use Rattle.org_base.specs.Results.{GivesItems};
ghost use Rattle.org_drawer.specs.Planning.{is_same};
ghost use Rattle.org_stamp.specs.Pair.{pairs};
ghost use Rattle.org_stamp.specs.Paired.{keyword_text};

use org_stamp::{Pair, PlanningKeyword, leading_spaces, next_pair};
use std::alloc::{AllocError, Global};

pub(crate) fn is_same(one: PlanningKeyword, other: PlanningKeyword) -> bool
    ensures value { result ≡ is_same one other }
{
    match one {
        PlanningKeyword::Scheduled => matches!(other, PlanningKeyword::Scheduled),
        PlanningKeyword::Deadline => matches!(other, PlanningKeyword::Deadline),
        PlanningKeyword::Closed => matches!(other, PlanningKeyword::Closed),
    }
}

// The last pair of a keyword in a line.
pub(crate) fn last_pair(line: &[u8], keyword: PlanningKeyword) -> Option<Pair>
    ensures value { result ≡ last_pair keyword (pairs line.now) }
    ensures end { IfSome result (λ p. p.end ≤ length line.now) }
    ensures within { IfSome result (λ p. p.at + p.len ≤ length line.now) }
{
    let mut last = None;
    let mut at = 0;
    while let Some(pair) = next_pair(line, at) {
        at = pair.end;
        if is_same(keyword, pair.word) {
            last = Some(pair);
        }
    }
    last
}

fn keyword_text(keyword: PlanningKeyword) -> &'static str
    ensures value { result.now ≡ keyword_text keyword }
{
    match keyword {
        PlanningKeyword::Scheduled => "SCHEDULED:",
        PlanningKeyword::Deadline => "DEADLINE:",
        PlanningKeyword::Closed => "CLOSED:",
    }
}

// A keyword, its colon, a space and the text of a stamp.
pub(crate) fn pair_text(
    alloc: Global,
    keyword: PlanningKeyword,
    stamp: &str,
) -> Result<Vec<u8>, AllocError>
    ensures value { GivesItems result (pair_text keyword stamp.now) }
{
    let mut pair = Vec::from_slice(alloc, keyword_text(keyword).as_bytes())?;
    pair.extend_from_slice(b" ")?;
    pair.extend_from_slice(stamp.as_bytes())?;
    Ok(pair)
}

// A planning line with the text of a stamp under a keyword.
#[tactic(auto, unfolding(crate::specs::Planning::with_stamp))]
pub(crate) fn with_stamp(
    alloc: Global,
    keyword: PlanningKeyword,
    stamp: &str,
    line: &[u8],
) -> Result<Vec<u8>, AllocError>
    ensures value { GivesItems result (with_stamp keyword stamp.now line.now) }
{
    match last_pair(line, keyword) {
        Some(pair) => with_part(alloc, line, pair.at, stamp.as_bytes(), pair.end),
        None => with_pair(alloc, keyword, stamp, line),
    }
}

// A line with a text from one place up to another.
fn with_part(
    alloc: Global,
    line: &[u8],
    at: usize,
    text: &[u8],
    end: usize,
) -> Result<Vec<u8>, AllocError>
    requires at { at ≤ length line.now }
    requires end { end ≤ length line.now }
    ensures value { GivesItems result (with_part line.now at text.now end) }
{
    let mut new = Vec::from_slice(alloc, &line[..at])?;
    new.extend_from_slice(text)?;
    new.extend_from_slice(&line[end..])?;
    Ok(new)
}

// A line with a pair before all others, behind its indentation.
fn with_pair(
    alloc: Global,
    keyword: PlanningKeyword,
    stamp: &str,
    line: &[u8],
) -> Result<Vec<u8>, AllocError>
    ensures value { GivesItems result (with_pair keyword stamp.now line.now) }
{
    let mut pair = pair_text(alloc, keyword, stamp)?;
    pair.extend_from_slice(b" ")?;
    let indent = leading_spaces(line);
    with_part(alloc, line, indent, &pair, indent)
}

// A planning line without the pairs of a keyword.
#[tactic(auto, unfolding(crate::specs::Planning::without_pairs))]
pub(crate) fn without_pairs(
    alloc: Global,
    keyword: PlanningKeyword,
    line: &[u8],
) -> Result<Vec<u8>, AllocError>
    ensures value { GivesItems result (without_pairs keyword line.now) }
{
    let kept = kept_pairs(alloc, keyword, line)?;
    let mut new = Vec::from_slice(alloc, &line[..leading_spaces(line)])?;
    new.extend_from_slice(&kept[leading_spaces(&kept)..])?;
    Ok(new)
}

// What a line has without the pairs of a keyword and the white space before them.
fn kept_pairs(alloc: Global, keyword: PlanningKeyword, line: &[u8]) -> Result<Vec<u8>, AllocError>
    ensures value { GivesItems result (kept_from keyword line.now 0 (pairs line.now)) }
{
    let mut kept = Vec::new(alloc);
    let mut at = 0;
    while let Some(pair) = next_pair(line, at) {
        if !is_same(keyword, pair.word) {
            kept.extend_from_slice(&line[at..pair.end])?;
        }
        at = pair.end;
    }
    kept.extend_from_slice(&line[at..])?;
    Ok(kept)
}

// The bytes of the stamp that a line has under a keyword.
pub(crate) fn bytes_under(keyword: PlanningKeyword, line: &[u8]) -> &[u8]
    ensures value { result.now ≡ bytes_under keyword line.now }
{
    match last_pair(line, keyword) {
        Some(pair) => &line[pair.at..pair.at + pair.len],
        None => &[],
    }
}

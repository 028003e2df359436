//! The line under a heading, with a stamp of a planning keyword or without it.
ghost use Rattle.std.specs.Prelude.{◌≡◌, ◌==◌, [], IsOkUnless, position, Some, None};
ghost use Rattle.org_amend.specs.Planning.{GivesLine, blank_line, date_text, dated_draft, dated_line, dated_stamp, empty_line, ending, ends_like, has_feed, is_left, is_plain, is_said, left_line, says, says_under, stays, text_if, undated_line};
ghost use Rattle.org_base.specs.Codes.{memory_fault};
ghost use Rattle.org_base.specs.Results.{GivesItems, GivesText};
ghost use Rattle.org_class.specs.LineClass.{has_hash};

use crate::keyword_pairs::{bytes_under, is_same, last_pair, pair_text, with_stamp, without_pairs};
use crate::typed::TypedDate;
use org_base::Fault;
use org_base::words::{is_blank, trim_start};
use org_class::{begins_heading, is_drawer_open};
use org_stamp::{Pair, PlanningKeyword, Stamp, is_clock, is_planning, print_stamp};
use std::alloc::{AllocError, Global};
use std::str;

/// The line under a heading with a date under a planning keyword: `line` is what stands under the heading, empty where it ends
/// there, and `end` is how a new line ends.
///
/// In a planning line the last stamp of the keyword is replaced where it stands, a range whole, and keeps its repeater and its
/// delay where the date has none; a keyword that isn't there comes before all others, behind the indentation. Nothing else of the line changes. Where
/// `line` is no planning line, the answer is a new one. None where the answer would be read as something else: under the
/// keyword another stamp, or under another keyword one that it hasn't now. Out of memory is the only refusal.
pub fn dated_line(
    alloc: Global,
    keyword: PlanningKeyword,
    date: TypedDate,
    line: &[u8],
    end: &str,
) -> Result<Option<String>, Fault>
    ensures value { GivesLine result (dated_line keyword date line.now end.now) }
    ensures memory { IsOkUnless result memory_fault }
{
    let stamp = date_text(alloc, keyword, date, line)?;
    let draft = dated_draft(alloc, keyword, stamp.as_str(), line, end)?;
    let is_said = is_said(keyword, stamp.as_bytes(), line, end, &draft);
    Ok(text_if(alloc, is_said, &draft)?)
}

/// The line under a heading without the stamps of a planning keyword: `line` is what stands under the heading, and `next` the
/// line behind it; each is empty where there is none.
///
/// Each stamp of the keyword goes with the white space before it; the indentation and all else stay. A line of which only
/// white space is left goes too, and the answer is empty; but where the next line would then be read as the planning line,
/// an empty line stays. None where something would be read otherwise: another stamp, or what stands behind the stamps. Out of
/// memory is the only refusal.
pub fn undated_line(
    alloc: Global,
    keyword: PlanningKeyword,
    line: &[u8],
    next: &[u8],
) -> Result<Option<String>, AllocError>
    ensures value { GivesLine result (undated_line keyword line.now next.now) }
{
    let left = left_line(alloc, keyword, line, next)?;
    let is_left = is_left(keyword, line, next, &left);
    text_if(alloc, is_left, &left)
}

// Bytes as text, if they are wanted and are text.
pub(crate) fn text_if(
    alloc: Global,
    is_wanted: bool,
    bytes: &[u8],
) -> Result<Option<String>, AllocError>
    ensures value { GivesLine result (text_if is_wanted bytes.now) }
{
    if !is_wanted {
        return Ok(None);
    }
    match str::from_utf8(bytes) {
        Ok(text) => Ok(Some(String::from_str(alloc, text)?)),
        Err(_) => Ok(None),
    }
}

// Whether a line says a stamp under a keyword, and else what it said, and is one line.
#[tactic(auto, unfolding(crate::specs::Planning::is_said))]
fn is_said(keyword: PlanningKeyword, stamp: &[u8], line: &[u8], end: &str, new: &[u8]) -> bool
    ensures value { result ≡ is_said keyword stamp.now line.now end.now new.now }
{
    says(keyword, stamp, line, new) && ends_like(ending(line, end), new)
}

// Whether nothing is left under a keyword, all else is, and nothing would be read otherwise.
#[tactic(auto, unfolding(crate::specs::Planning::is_left))]
fn is_left(keyword: PlanningKeyword, line: &[u8], next: &[u8], left: &[u8]) -> bool
    ensures value { result ≡ is_left keyword line.now next.now left.now }
{
    says(keyword, &[], line, left) && stays(line, next, left)
}

// The stamp of a date, with the repeater and the delay of the pair whose place it takes, unless it has others.
fn dated_stamp(date: TypedDate, old: Option<Pair>) -> Stamp
    ensures value { result ≡ dated_stamp date old }
{
    let (repeater, delay) = match old {
        Some(pair) => (
            date.repeater.or(pair.stamp.repeater),
            date.delay.or(pair.stamp.delay),
        ),
        None => (date.repeater, date.delay),
    };
    Stamp {
        active: true,
        day: date.day,
        time: date.time,
        end_time: date.end_time,
        repeater,
        delay,
        last: None,
    }
}

// The text of the stamp of a date in a line.
#[tactic(auto, unfolding(crate::specs::Planning::date_text))]
fn date_text(
    alloc: Global,
    keyword: PlanningKeyword,
    date: TypedDate,
    line: &[u8],
) -> Result<String, Fault>
    ensures value { GivesText result (date_text keyword date line.now) }
    ensures memory { IsOkUnless result memory_fault }
{
    print_stamp(alloc, &dated_stamp(date, last_pair(line, keyword)))
}

// The line with the text of a stamp under a keyword, before it is read back.
#[tactic(auto, unfolding(crate::specs::Planning::dated_draft))]
fn dated_draft(
    alloc: Global,
    keyword: PlanningKeyword,
    stamp: &str,
    line: &[u8],
    end: &str,
) -> Result<Vec<u8>, AllocError>
    ensures value { GivesItems result (dated_draft keyword stamp.now line.now end.now) }
{
    if is_planning(line) {
        return with_stamp(alloc, keyword, stamp, line);
    }
    let mut draft = pair_text(alloc, keyword, stamp)?;
    draft.extend_from_slice(end.as_bytes())?;
    Ok(draft)
}

// What is left of a planning line without the pairs of a keyword, before it is read back.
#[tactic(auto, unfolding(crate::specs::Planning::left_line))]
fn left_line(
    alloc: Global,
    keyword: PlanningKeyword,
    line: &[u8],
    next: &[u8],
) -> Result<Vec<u8>, AllocError>
    ensures value { GivesItems result (left_line keyword line.now next.now) }
{
    let kept = without_pairs(alloc, keyword, line)?;
    if is_blank(&kept) {
        return Vec::from_slice(alloc, blank_line(line, next));
    }
    Ok(kept)
}

// What is left of a planning line that is blank.
fn blank_line(line: &[u8], next: &[u8]) -> &'static [u8]
    ensures value { result.now ≡ blank_line line.now next.now }
{
    if is_planning(next) {
        empty_line(line)
    } else {
        b""
    }
}

// An empty line that ends as a line does.
fn empty_line(line: &[u8]) -> &'static [u8]
    ensures value { result.now ≡ empty_line line.now }
{
    let len = line.len();
    if len >= 2 && line[len - 2] == b'\r' {
        b"\r\n"
    } else {
        b"\n"
    }
}

// Whether a new line says under one keyword the text of a stamp, and under the others what the old line says.
#[tactic(auto, unfolding(crate::specs::Planning::says))]
fn says(keyword: PlanningKeyword, stamp: &[u8], old: &[u8], new: &[u8]) -> bool
    ensures value { result ≡ says keyword stamp.now old.now new.now }
{
    says_under(keyword, stamp, old, new, PlanningKeyword::Scheduled)
        && says_under(keyword, stamp, old, new, PlanningKeyword::Deadline)
        && says_under(keyword, stamp, old, new, PlanningKeyword::Closed)
}

#[tactic(auto, unfolding(crate::specs::Planning::says_under))]
fn says_under(
    keyword: PlanningKeyword,
    stamp: &[u8],
    old: &[u8],
    new: &[u8],
    other: PlanningKeyword,
) -> bool
    ensures value { result ≡ says_under keyword stamp.now old.now new.now other }
{
    let wanted = if is_same(keyword, other) {
        stamp
    } else {
        bytes_under(other, old)
    };
    bytes_under(other, new) == wanted
}

pub(crate) fn has_feed(line: &[u8]) -> bool
    ensures value { result ≡ has_feed line.now }
{
    match line.last() {
        Some(byte) => *byte == b'\n',
        None => false,
    }
}

// Whether a line feed stands at the end of a line alone, where another one ends so, or none.
#[tactic(auto, unfolding(crate::specs::Planning::ends_like))]
pub(crate) fn ends_like(old: &[u8], new: &[u8]) -> bool
    ensures value { result ≡ ends_like old.now new.now }
{
    match line_feed(new) {
        Some(feed) => feed + 1 == new.len() && has_feed(old),
        None => !has_feed(old),
    }
}

// Where the first line feed stands.
fn line_feed(line: &[u8]) -> Option<usize>
    ensures value { result ≡ position (λ byte. byte == 10) line.now }
{
    line.iter().position(|byte| *byte == b'\n')
}

// What a line with a stamp ends like.
fn ending<'a>(line: &'a [u8], end: &'a str) -> &'a [u8]
    ensures value { result.now ≡ ending line.now end.now }
{
    if is_planning(line) {
        line
    } else {
        end.as_bytes()
    }
}

// Whether what is left is a planning line, or nothing before a line that is none, or text.
#[tactic(auto, unfolding(crate::specs::Planning::stays))]
fn stays(line: &[u8], next: &[u8], left: &[u8]) -> bool
    ensures value { result ≡ stays line.now next.now left.now }
{
    if is_planning(left) {
        ends_like(line, left)
    } else if left.is_empty() {
        !is_planning(next)
    } else {
        ends_like(line, left) && is_plain(left, next)
    }
}

// Whether a line is text, and neither it nor the next one would be read as something else.
#[tactic(auto, unfolding(crate::specs::Planning::is_plain))]
fn is_plain(line: &[u8], next: &[u8]) -> bool
    ensures value { result ≡ is_plain line.now next.now }
{
    !begins_heading(line)
        && !begins_hash(line)
        && !is_clock(line)
        && !is_drawer_open(line)
        && !is_drawer_open(next)
}

fn begins_hash(line: &[u8]) -> bool
    ensures value { result ≡ has_hash line.now }
{
    let text = trim_start(line);
    !text.is_empty() && text[0] == b'#'
}

//! What is nearly planning, and nearly a range.

use crate::beside_kinds::BesideKind;
use crate::here::Here;
use crate::notes::Notes;
use crate::quotes::Quotes;
use crate::spaces::is_odd_gap;
use crate::unread_lines::past_spaces;
use org_base::words::{is_blank, same_word, trim, trim_end};
use org_class::Class;
use org_stamp::{planning_word, stamps_in};
use std::alloc::AllocError;

// Puts what stands before active stamps of a line of text and is nearly planning. Of a line whose first word is a planning
// word it is said as a whole that it is none.
pub(crate) fn push_near_planning(
    notes: &mut Notes,
    here: Here,
    line: &[u8],
) -> Result<(), AllocError> {
    if !matches!(here.class, Class::Plain | Class::Setting)
        || planning_word(past_spaces(line)).is_some()
    {
        return Ok(());
    }
    let mut quotes = Quotes::new(here.class);
    for found in stamps_in(line) {
        if !found.stamp.active || found.at > line.len() {
            continue;
        }
        let (before, _) = line.split_at(found.at);
        let Some((kind, place)) = planning_before(before) else {
            continue;
        };
        if !quotes.holds(line, found.at) {
            let end = found.at.saturating_add(found.len);
            notes.push(here.note(kind, place, end.saturating_sub(place)))?;
        }
    }
    Ok(())
}

// Why what stands before a stamp is no planning, if it is nearly so, and where it begins.
fn planning_before(before: &[u8]) -> Option<(BesideKind, usize)> {
    let text = trim_end(before);
    let (named, has_colon) = match text {
        [named @ .., b':'] => (named, true),
        _ => (text, false),
    };
    let (front, word) = split_word(trim_end(named));
    if matches!(word, b"SCHEDULED" | b"DEADLINE") {
        if has_colon && word.len() + front.len() == named.len() && begins_oddly(front) {
            return Some((BesideKind::OddSpace, 0));
        }
        return Some((BesideKind::NearPlanning, front.len()));
    }
    if has_colon && front.len() <= MOST_INDENT && is_blank(front) && is_misspelled(word) {
        return Some((BesideKind::NearPlanning, front.len()));
    }
    None
}

// A text before the letters at its end, and these.
fn split_word(text: &[u8]) -> (&[u8], &[u8]) {
    match text.iter().rposition(|b| !b.is_ascii_alphabetic()) {
        Some(place) if place < text.len() => text.split_at(place + 1),
        _ => text.split_at(0),
    }
}

// The most bytes before a word of which it is asked whether they are white space.
const MOST_INDENT: usize = 64;

// Whether a line begins with what only looks like white space.
fn begins_oddly(front: &[u8]) -> bool {
    front.len() <= MOST_INDENT && is_odd_gap(front)
}

// Whether the word is in capitals and becomes a planning word by one letter.
fn is_misspelled(word: &[u8]) -> bool {
    word.iter().all(|b| b.is_ascii_uppercase())
        && (is_one_off(word, b"SCHEDULED") || is_one_off(word, b"DEADLINE"))
}

// Whether one of the words becomes the other where a letter is put in, taken away or replaced, or two neighbours change places.
fn is_one_off(word: &[u8], other: &[u8]) -> bool {
    let same = common_len(word, other);
    let rest = &word[same.min(word.len())..];
    let other_rest = &other[same.min(other.len())..];
    match (rest, other_rest) {
        ([a, b, rest_word @ ..], [c, d, rest_other @ ..]) if a == d && b == c => {
            same_word(rest_word, rest_other)
        }
        ([_, rest_word @ ..], [_, rest_other @ ..]) if same_word(rest_word, rest_other) => true,
        ([_, rest_word @ ..], _) if same_word(rest_word, other_rest) => true,
        (_, [_, rest_other @ ..]) => same_word(rest, rest_other),
        _ => false,
    }
}

// How many bytes at the front of two texts are equal.
fn common_len(a: &[u8], b: &[u8]) -> usize {
    let most = a.len().min(b.len());
    for at in 0..most {
        if a[at] != b[at] {
            return at;
        }
    }
    most
}

// Puts two active stamps of a line that are nearly a range.
pub(crate) fn push_near_ranges(
    notes: &mut Notes,
    here: Here,
    line: &[u8],
) -> Result<(), AllocError> {
    if matches!(here.class, Class::Planning) {
        return Ok(());
    }
    let mut quotes = Quotes::new(here.class);
    let mut before: Option<(usize, usize)> = None;
    for found in stamps_in(line) {
        if !found.stamp.active || found.stamp.last.is_some() {
            before = None;
            continue;
        }
        let end = found.at.saturating_add(found.len);
        if let Some((at, past)) = before {
            if is_near_dash(line, past, found.at) && !quotes.holds(line, at) {
                let len = end.saturating_sub(at);
                notes.push(here.note(BesideKind::NearRange, at, len))?;
            }
        }
        before = Some((found.at, end));
    }
    Ok(())
}

// Whether nothing but dashes and white space stands between two places of a line, and a dash.
fn is_near_dash(line: &[u8], from: usize, to: usize) -> bool {
    if from > to || to > line.len() {
        return false;
    }
    let between = trim(&line[from..to]);
    !between.is_empty() && are_dashes(between)
}

// Whether these are dashes: the minus of the keyboard and those of U+2010 to U+2015 and U+2212.
fn are_dashes(text: &[u8]) -> bool {
    let mut left: usize = 0;
    for at in 0..text.len() {
        if left > 0 {
            left -= 1;
            continue;
        }
        match &text[at..] {
            [b'-', ..] => {}
            [0xE2, 0x80, 0x90..=0x95, ..] | [0xE2, 0x88, 0x92, ..] => left = 2,
            _ => return false,
        }
    }
    true
}

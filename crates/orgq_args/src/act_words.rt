//! The words behind a command that changes headings: the headings, and what they get.

use crate::place::{is_date, is_place};
use crate::planning::is_mark;
use clap::ArgMatches;
use orgq_messages::Problem;
use std::alloc::{AllocError, Global};

/// Words behind a command that changes headings.
#[derive(Clone, Copy, Debug)]
pub struct ActWords<'a, 'b> {
    /// The headings.
    pub places: &'b [&'a str],
    /// What they get: a keyword, or a date and perhaps a time behind it; nothing where no word says it.
    pub wanted: &'b [&'a str],
}

/// All words behind a command, in their order.
pub fn typed_words<'a>(alloc: Global, own: &ArgMatches<'a>) -> Result<Vec<&'a str>, AllocError> {
    let mut words = Vec::new(alloc);
    for name in &["PLACE", "KEYWORD", "DATE", "TIME"] {
        if let Some(word) = own.get_str(name) {
            words.push(word)?;
        }
    }
    for word in own.get_strs("MORE").unwrap_or(&[]) {
        words.push(*word)?;
    }
    Ok(words)
}

/// The word in the place of a keyword by which one goes.
pub const NO_KEYWORD: &str = "none";

/// The headings and the keyword among the words of `done` and `set`: a keyword is the only word behind `--match`, and the second of
/// two that is no place.
pub fn keyword_words<'a, 'b>(
    own: &ArgMatches<'a>,
    words: &'b [&'a str],
) -> Result<ActWords<'a, 'b>, Problem> {
    let has_match = own.get_str("match").is_some();
    let has_keyword = own.get_str("keyword").is_some();
    match words {
        [_] if has_match && !has_keyword => Ok(split_at(words, 0)),
        [_, ..] if has_match => Err(Problem::PlaceBeside),
        [_, keyword] if !has_keyword && !is_place(keyword) => Ok(split_at(words, 1)),
        [_, _, .., last] if !has_keyword && !is_place(last) => Err(Problem::KeywordBehind),
        _ => Ok(split_at(words, words.len())),
    }
}

/// The same of `set`, where behind several headings too the last word may be `none`.
pub fn set_words<'a, 'b>(
    own: &ArgMatches<'a>,
    words: &'b [&'a str],
) -> Result<ActWords<'a, 'b>, Problem> {
    let is_named = own.get_str("match").is_some() || own.get_str("keyword").is_some();
    match words {
        [_, .., last] if !is_named && *last == NO_KEYWORD => Ok(split_at(words, words.len() - 1)),
        _ => keyword_words(own, words),
    }
}

/// The headings and the date among the words of `schedule` and `deadline`: the last word is the date, or its time where the word
/// before it is no place.
pub fn date_words<'a, 'b>(
    own: &ArgMatches<'a>,
    words: &'b [&'a str],
) -> Result<ActWords<'a, 'b>, Problem> {
    let has_match = own.get_str("match").is_some();
    if let Some(at) = date_with_marks(words) {
        return if has_match && at > 0 {
            Err(Problem::PlaceBeside)
        } else {
            Ok(split_at(words, at))
        };
    }
    match words {
        [] => Err(Problem::NoDate),
        [_] | [_, _] if has_match => Ok(split_at(words, 0)),
        _ if has_match => Err(Problem::PlaceBeside),
        [_] => Err(Problem::NoDate),
        [_, _] => Ok(split_at(words, 1)),
        [.., date, _] if is_place(date) => Ok(split_at(words, words.len() - 1)),
        _ => Ok(split_at(words, words.len().saturating_sub(2))),
    }
}

// Where a date begins that has a repeater or a delay behind it; none where the words end in none. The date is one word, or two of
// which the first one is no place.
fn date_with_marks(words: &[&str]) -> Option<usize> {
    let marks = words.iter().rev().take_while(|word| is_mark(word)).count();
    if marks == 0 {
        return None;
    }
    match words.get(..words.len().saturating_sub(marks))? {
        [front @ .., last] if is_date(last) => Some(front.len()),
        [front @ .., before, _] if !is_place(before) => Some(front.len()),
        _ => None,
    }
}

// The words up to a place, and those from it on.
pub(crate) fn split_at<'a, 'b>(words: &'b [&'a str], at: usize) -> ActWords<'a, 'b> {
    let (places, wanted) = words.split_at(at.min(words.len()));
    ActWords { places, wanted }
}

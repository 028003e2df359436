//! Words at the end of a new heading's title that say something of it.

use crate::adding::{WishedHeading, title_words, wished_heading};
use crate::filters::is_of_tag;
use crate::head_words::joined_words;
use crate::place::HeadingPlace;
use crate::planning::said_date;
use clap::ArgMatches;
use org_amend::TypedDate;
use org_cal::Day;
use orgq_messages::Problem;
use std::alloc::{AllocError, Global};

/// The heading that the words of `add` ask for, as [`wished_heading`] has it. Where `--words yes` is asked for, what words at the end
/// of its title say is taken out of it.
pub fn captured_heading(
    alloc: Global,
    own: &ArgMatches<'_>,
    place: &HeadingPlace,
    today: Day,
) -> Result<WishedHeading, Problem> {
    let takes_words = takes_words(own)?;
    let mut heading = wished_heading(alloc, own, place, today)?;
    if takes_words {
        let (words, _) = title_words(own);
        take_words(alloc, &mut heading, words, today)?;
    }
    Ok(heading)
}

fn takes_words(own: &ArgMatches<'_>) -> Result<bool, Problem> {
    match own.get_str("words").unwrap_or("no") {
        "no" => Ok(false),
        "yes" => Ok(true),
        _ => Err(Problem::Words),
    }
}

// How many words a date has at most: a month, a day, a time, a repeater and a delay.
const MOST_WORDS: usize = 5;

// Takes what the last words say, from the end on, as long as they say something that isn't known yet: a date, also behind `due:`,
// a tag behind `+`, a priority behind `!`. The words before them are the title.
fn take_words(
    alloc: Global,
    heading: &mut WishedHeading,
    words: &[&str],
    today: Day,
) -> Result<(), AllocError> {
    let mut all = Vec::new(alloc);
    for word in words {
        for part in word.split_whitespace() {
            all.push(part)?;
        }
    }
    let mut tags = Vec::new(alloc);
    let mut left = all.len();
    for _turn in 0..all.len() {
        let words = all.get(..left).unwrap_or(&[]);
        let taken = take_last(alloc, heading, &mut tags, words, today)?;
        if taken == 0 {
            break;
        }
        left = left.saturating_sub(taken);
    }
    heading.title = joined_words(alloc, all.get(..left).unwrap_or(&[]))?;
    heading.tags = tags_in_front(alloc, tags.as_slice(), heading.tags.as_slice())?;
    Ok(())
}

// Tags that were taken from the last word on, in the order in which they were typed, and others behind them.
fn tags_in_front(
    alloc: Global,
    taken: &[String],
    others: &[String],
) -> Result<Vec<String>, AllocError> {
    let mut tags = Vec::new(alloc);
    for tag in taken.iter().rev() {
        tags.push(String::from_str(alloc, tag.as_str())?)?;
    }
    for tag in others {
        tags.push(String::from_str(alloc, tag.as_str())?)?;
    }
    Ok(tags)
}

// Takes what the last words say, and gives how many say it, 0 where they say nothing. A tag goes behind those of the words behind it.
fn take_last(
    alloc: Global,
    heading: &mut WishedHeading,
    tags: &mut Vec<String>,
    words: &[&str],
    today: Day,
) -> Result<usize, AllocError> {
    let dated = take_date(alloc, heading, words, today)?;
    if dated > 0 {
        return Ok(dated);
    }
    let Some(last) = words.last() else {
        return Ok(0);
    };
    if let Some(tag) = last.strip_prefix('+') {
        return take_tag(alloc, tags, tag);
    }
    match last.strip_prefix('!') {
        Some(priority) => take_priority(alloc, heading, priority),
        None => Ok(0),
    }
}

// Takes the date that the last words say, the most of them that say one, and gives how many.
fn take_date(
    alloc: Global,
    heading: &mut WishedHeading,
    words: &[&str],
    today: Day,
) -> Result<usize, AllocError> {
    for left_out in 0..MOST_WORDS {
        let count = MOST_WORDS - left_out;
        if count <= words.len() {
            let text = joined_words(alloc, &words[words.len() - count..])?;
            if take_dated(alloc, heading, text.as_str(), today)? {
                return Ok(count);
            }
        }
    }
    Ok(0)
}

// Takes the date that a text says, if it says one that isn't known yet.
fn take_dated(
    alloc: Global,
    heading: &mut WishedHeading,
    text: &str,
    today: Day,
) -> Result<bool, AllocError> {
    match text.strip_prefix("due:") {
        Some(due) => take_one(alloc, &mut heading.deadline, due, today),
        None => take_one(alloc, &mut heading.scheduled, text, today),
    }
}

fn take_one(
    alloc: Global,
    known: &mut Option<TypedDate>,
    text: &str,
    today: Day,
) -> Result<bool, AllocError> {
    if known.is_some() {
        return Ok(false);
    }
    match said_date(alloc, text, today) {
        Ok(said) => {
            *known = said;
            Ok(known.is_some())
        }
        Err(refused) => Err(refused),
    }
}

fn take_tag(alloc: Global, tags: &mut Vec<String>, tag: &str) -> Result<usize, AllocError> {
    if tag.is_empty() || !tag.chars().all(is_of_tag) {
        return Ok(0);
    }
    tags.push(String::from_str(alloc, tag)?)?;
    Ok(1)
}

fn take_priority(
    alloc: Global,
    heading: &mut WishedHeading,
    priority: &str,
) -> Result<usize, AllocError> {
    let is_one = priority.len() == 1 && priority.bytes().all(|byte| byte.is_ascii_uppercase());
    if !is_one || heading.priority.is_some() {
        return Ok(0);
    }
    heading.priority = Some(String::from_str(alloc, priority)?);
    Ok(1)
}

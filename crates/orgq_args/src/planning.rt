//! The dates that headings get.

use crate::head_words::joined_words;
use crate::wish::WishedAct;
use org_amend::TypedDate;
use org_cal::Day;
use org_stamp::{PlanningKeyword, Stamp, read_single};
use orgq_messages::Problem;
use std::alloc::{AllocError, Global};

/// The planning keyword that a command is about, if it is about one.
pub fn planning_keyword(command: &str) -> Option<PlanningKeyword> {
    match command {
        "schedule" => Some(PlanningKeyword::Scheduled),
        "deadline" => Some(PlanningKeyword::Deadline),
        _ => None,
    }
}

/// What `schedule` or `deadline` asks for by the words for a date.
pub fn wished_planning(
    alloc: Global,
    wanted: &[&str],
    keyword: PlanningKeyword,
    today: Day,
) -> Result<WishedAct, Problem> {
    if wanted.is_empty() {
        return Err(Problem::NoDate);
    }
    let text = joined_words(alloc, wanted)?;
    if let Some(distance) = distance_of(text.as_str(), today) {
        return Ok(WishedAct::Shift(keyword, String::from_str(alloc, distance)?));
    }
    if text.as_str() == "none" {
        return Ok(WishedAct::Planning(keyword, None));
    }
    Ok(WishedAct::Planning(keyword, Some(typed_date(alloc, text.as_str(), today)?)))
}

// How far a date goes on, as `then+1w` says.
fn distance_of(text: &str, today: Day) -> Option<&str> {
    let distance = text.strip_prefix("then")?;
    let is_signed = distance.starts_with('+') || distance.starts_with('-');
    if is_signed && Day::of_word(distance.as_bytes(), today).is_some() {
        Some(distance)
    } else {
        None
    }
}

/// The date that a text says, as [`said_date`] has it; `OneDate` where it says none.
pub fn typed_date(alloc: Global, text: &str, today: Day) -> Result<TypedDate, Problem> {
    match said_date(alloc, text, today)? {
        Some(date) => Ok(date),
        None => Err(Problem::OneDate),
    }
}

/// The date that a text says on a day, if it says one: a day, perhaps a time, a repeater and a delay, with a space between two of
/// them.
pub fn said_date(alloc: Global, text: &str, today: Day) -> Result<Option<TypedDate>, AllocError> {
    let (day, marks) = cut_at_marks(text);
    let Some(date) = TypedDate::of_text(day.as_bytes(), today) else {
        return Ok(None);
    };
    if marks.is_empty() {
        return Ok(Some(date));
    }
    match stamp_with(alloc, marks)? {
        Some(stamp) if has_marks(&stamp, marks) => Ok(Some(TypedDate {
            repeater: stamp.repeater,
            delay: stamp.delay,
            ..date
        })),
        _ => Ok(None),
    }
}

/// Whether a word is spelled as a repeater or a delay is: it begins with a sign.
pub fn is_mark(word: &str) -> bool {
    word.starts_with('+') || word.starts_with('-') || word.starts_with('.')
}

// The words of a date up to its repeater and its delay, and these.
fn cut_at_marks(text: &str) -> (&str, &str) {
    let mut at = 0usize;
    for word in text.split(' ') {
        if at > 0 && is_mark(word) {
            let front = text.get(..at).unwrap_or("");
            return (front.trim_end(), text.get(at..).unwrap_or(""));
        }
        at = at.saturating_add(word.len()).saturating_add(1);
    }
    (text, "")
}

// A stamp with a repeater and a delay.
fn stamp_with(alloc: Global, marks: &str) -> Result<Option<Stamp>, AllocError> {
    let text = format!(in alloc; "<2024-01-01 {marks}>")?;
    match read_single(text.as_bytes(), 0) {
        Some((stamp, len)) if len == text.len() => Ok(Some(stamp)),
        _ => Ok(None),
    }
}

// Whether a stamp has a repeater or a delay for each word.
fn has_marks(stamp: &Stamp, marks: &str) -> bool {
    let count = usize::from(stamp.repeater.is_some()).saturating_add(usize::from(
        stamp.delay.is_some(),
    ));
    marks.split(' ').count() == count
}

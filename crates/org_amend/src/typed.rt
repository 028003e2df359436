//! Dates as people type them, with a time of day.
ghost use Rattle.std.specs.Prelude.{◌≡◌, ◌==◌, ◌<◌, ◌≤◌, IfSome, length, position};
ghost use Rattle.std.specs.List.{suffix_len};
ghost use Rattle.org_amend.specs.Typed.{date_around, day_alone, day_with, gap_before, is_of_word, span, time_alone, times_around, times_of, typed_date};

use org_cal::{Day, TimeOfDay};
use org_stamp::{Delay, Repeater};

/// A date as it is typed: a day, a time of day or a span of one, a repeater and a delay, where they are given.
#[derive(Clone, Copy, Debug, PartialEq, Eq)]
pub struct TypedDate {
    /// The day.
    pub day: Day,
    /// The time of day, or where its span begins.
    pub time: Option<TimeOfDay>,
    /// Where the span ends; none without a time.
    pub end_time: Option<TimeOfDay>,
    /// How it repeats; without one as the stamp does whose place it takes.
    pub repeater: Option<Repeater>,
    /// Its delay or its warning; without one that of the stamp whose place it takes.
    pub delay: Option<Delay>,
}

impl TypedDate {
    /// The date that a text says on a day: one of [`Day::of_word`], and behind its last space a time `H:MM` or `HH:MM`, or
    /// two of them with a dash between; it says no repeater and no delay. `None` where it says no date.
    #[tactic(auto, unfolding(crate::specs::Typed::typed_date))]
    pub fn of_text(text: &[u8], today: Day) -> Option<TypedDate>
        ensures value { result ≡ typed_date text.now today }
    {
        match day_alone(Day::of_word(text, today)) {
            Some(date) => Some(date),
            None => date_around(text, today, gap_before(text, last_word_len(text))),
        }
    }
}

// How many bytes the last word of a text has.
fn last_word_len(text: &[u8]) -> usize
    ensures within { result ≤ length text.now }
    ensures value { result ≡ suffix_len is_of_word text.now }
{
    text.iter().rev().take_while(|b| **b != b' ').count()
}

// Where a byte stands first.
fn place_of(text: &[u8], byte: u8) -> Option<usize>
    ensures value { result ≡ position (λ b. b == byte) text.now }
    ensures within { IfSome result (λ place. place < length text.now) }
{
    text.iter().position(|b| *b == byte)
}

// Where a space stands before so many last bytes.
fn gap_before(text: &[u8], len: usize) -> Option<usize>
    ensures value { result ≡ gap_before text.now len }
    ensures within { IfSome result (λ gap. gap < length text.now) }
{
    if len < text.len() {
        Some(text.len() - len - 1)
    } else {
        None
    }
}

// A day before a space and times behind it.
fn date_around(text: &[u8], today: Day, gap: Option<usize>) -> Option<TypedDate>
    requires within { IfSome gap (λ place. place < length text.now) }
    ensures value { result ≡ date_around text.now today gap }
{
    match gap {
        Some(gap) => day_with(
            Day::of_word(&text[..gap], today),
            times_of(&text[gap + 1..]),
        ),
        None => None,
    }
}

// A day without a time, if there is one.
fn day_alone(day: Option<Day>) -> Option<TypedDate>
    ensures value { result ≡ day_alone day }
{
    Some(TypedDate {
        day: day?,
        time: None,
        end_time: None,
        repeater: None,
        delay: None,
    })
}

// A day with times, if both are there.
fn day_with(day: Option<Day>, times: Option<(TimeOfDay, Option<TimeOfDay>)>) -> Option<TypedDate>
    ensures value { result ≡ day_with day times }
{
    let day = day?;
    let (time, end_time) = times?;
    Some(TypedDate {
        day,
        time: Some(time),
        end_time,
        repeater: None,
        delay: None,
    })
}

// A time, or two with a dash between them.
#[tactic(auto, unfolding(crate::specs::Typed::times_of))]
fn times_of(text: &[u8]) -> Option<(TimeOfDay, Option<TimeOfDay>)>
    ensures value { result ≡ times_of text.now }
{
    times_around(text, place_of(text, b'-'))
}

// A time alone, or two around a dash.
fn times_around(text: &[u8], dash: Option<usize>) -> Option<(TimeOfDay, Option<TimeOfDay>)>
    requires within { IfSome dash (λ place. place < length text.now) }
    ensures value { result ≡ times_around text.now dash }
{
    match dash {
        Some(dash) => span(
            TimeOfDay::read(&text[..dash]),
            TimeOfDay::read(&text[dash + 1..]),
        ),
        None => time_alone(TimeOfDay::read(text)),
    }
}

// A time without an end, if there is one.
fn time_alone(time: Option<TimeOfDay>) -> Option<(TimeOfDay, Option<TimeOfDay>)>
    ensures value { result ≡ time_alone time }
{
    Some((time?, None))
}

// A time with an end, if both are there.
fn span(start: Option<TimeOfDay>, end: Option<TimeOfDay>) -> Option<(TimeOfDay, Option<TimeOfDay>)>
    ensures value { result ≡ span start end }
{
    Some((start?, Some(end?)))
}

//! Times that an expression compares with, in minutes since 0001-01-01 00:00.
ghost use Rattle.std.specs.Prelude.{◌≡◌, ◌<◌, ◌^◌};
ghost use Rattle.org_cal.specs.Minutes.{minute_at};
ghost use Rattle.org_expression.specs.Times.{counted_day, day_moved, front_minute, is_time, last_unit, named_day, named_minute, relative_day, whole_stamp};
ghost use Rattle.org_stamp.specs.Read.{stamp_of};

use crate::decimal::{digit_count, read_whole};
use org_cal::{Day, Minute, Moment, Unit};
use org_stamp::{Stamp, read_single, read_stamp};

/// Whether a quoted text stands for a time: it begins with `<` and ends with `>`.
pub fn is_time(text: &[u8]) -> bool
    ensures value { result ≡ is_time text.now }
{
    let len = text.len();
    len >= 2 && text[0] == b'<' && text[len - 1] == b'>'
}

/// The minute since 0001-01-01 00:00 that a quoted text names at a moment, if it can be read and lies in the years 1 to
/// 9999 (Org manual 9.6, "Matching tags and properties").
pub fn named_minute(moment: Moment, text: &[u8]) -> Option<u64>
    ensures value { result ≡ named_minute moment text.now }
{
    if text == b"<now>".as_slice() {
        return Some(moment.minute().number());
    }
    match named_day(moment.day, text) {
        Some(day) => Some(Minute::of(day, None).number()),
        None => whole_stamp(text),
    }
}

/// The minute since 0001-01-01 00:00 of the stamp at the front of a property, active or not, if there is one; a missing
/// time is 00:00, and of a range its first stamp counts.
pub fn front_minute(text: &[u8]) -> Option<u64>
    ensures value { result ≡ front_minute text.now }
{
    match read_single(text, 0) {
        Some((stamp, _)) => Some(stamp_minute(stamp)),
        None => None,
    }
}

// `<today>`, `<tomorrow>`, or a day counted from today.
fn named_day(today: Day, text: &[u8]) -> Option<Day>
    ensures value { result ≡ named_day today text.now }
{
    if text == b"<today>".as_slice() {
        return Some(today);
    }
    if text == b"<tomorrow>".as_slice() {
        return day_moved(today, false, 1, Unit::Day);
    }
    match text {
        [_, rest @ ..] => relative_day(today, rest),
        [] => None,
    }
}

// A sign, one to four digits, a unit and `>`.
fn relative_day(today: Day, text: &[u8]) -> Option<Day>
    ensures value { result ≡ relative_day today text.now }
{
    match text {
        [b'+', rest @ ..] => counted_day(today, false, rest),
        [b'-', rest @ ..] => counted_day(today, true, rest),
        _ => None,
    }
}

// One to four digits, a unit and `>`.
fn counted_day(today: Day, is_back: bool, text: &[u8]) -> Option<Day>
    ensures value { result ≡ counted_day today is_back text.now }
{
    let (digits, rest) = text.split_at(digit_count(text));
    let unit = last_unit(rest)?;
    if digits.is_empty() || digits.len() > 4 {
        return None;
    }
    day_moved(today, is_back, read_whole(digits) as u64, unit)
}

// The letter of a unit and `>`, and nothing else.
fn last_unit(text: &[u8]) -> Option<Unit>
    ensures value { result ≡ last_unit text.now }
{
    match text {
        [b'd', b'>'] => Some(Unit::Day),
        [b'w', b'>'] => Some(Unit::Week),
        [b'm', b'>'] => Some(Unit::Month),
        [b'y', b'>'] => Some(Unit::Year),
        _ => None,
    }
}

// The day so many units later, or earlier, if it lies in the years 1 to 9999. Hours are no unit here.
fn day_moved(day: Day, is_back: bool, n: u64, unit: Unit) -> Option<Day>
    requires at_most { n < 10 ^ 18 }
    ensures value { result ≡ day_moved is_back n unit day }
{
    // For the proof alone: the number is a day's.
    let _number = day.number();
    if unit == Unit::Hour {
        return None;
    }
    if is_back {
        return day.add_units(-(n as i64), unit);
    }
    day.add_units(n as i64, unit)
}

// The minute of a stamp that is the whole text.
fn whole_stamp(text: &[u8]) -> Option<u64>
    ensures value { result ≡ whole_stamp text.now (stamp_of text.now) }
{
    match read_stamp(text, 0) {
        Some((stamp, len)) if len == text.len() => Some(stamp_minute(stamp)),
        _ => None,
    }
}

// The minute of a stamp; a missing time is 00:00.
fn stamp_minute(stamp: Stamp) -> u64
    ensures value { result ≡ minute_at (stamp.day, stamp.time) }
{
    Minute::of(stamp.day, stamp.time).number()
}

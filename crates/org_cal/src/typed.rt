//! Days and periods as people type them.
ghost use Rattle.std.specs.Prelude.{◌≡◌, ◌^◌, ◌<◌, ◌≤◌, Some};
ghost use Rattle.std.specs.Option.{option_map};
ghost use Rattle.org_cal.specs.Periods.{days_of};
ghost use Rattle.org_cal.specs.Typed.{block_after, earlier, end_typed, in_calendar, in_month, is_called, last_of, later, signed_day, signed_days, signed_text, typed_block, typed_day, typed_days, unit_of, weekday_named, weekday_typed};

use crate::block::{day_of_month, this_month};
use crate::day::{Day, LAST_MONTH};
use crate::digits::{four_digits, two_digits};
use crate::period::Period;
use crate::unit::Unit;
use crate::year_day::year_day_typed;
use org_base::words::same_word;

impl Day {
    /// The day that a text says on a day, as people type them (Org manual 9.6, "The date/time prompt"), its words and
    /// names in letters of any case: `today`, `tomorrow`, `yesterday`; `mon` to `sun`, also as whole names, today or
    /// the first such day after it; `eow`, `eom`, `eoy`, the last day of this week, month or year; `+3d`, `-1w`, `+2m`,
    /// `-10y`, with one to four digits, where a month that is shorter gives its last day, and `+3` for days;
    /// `YYYY-MM-DD`; or `24.12.` and `dec 24`, today or the next such day of this year or the next one. `None` where it
    /// says no day of the years 1 to 9999.
    pub fn of_word(text: &[u8], today: Day) -> Option<Day>
        ensures value { result ≡ typed_day text.now today }
    {
        if same_word(text, b"today") {
            Some(today)
        } else if same_word(text, b"tomorrow") {
            in_calendar(today.number() + 1)
        } else if same_word(text, b"yesterday") {
            in_calendar(today.number() - 1)
        } else {
            weekday_typed(text, today)
                .or(Day::of_text(text))
                .or(signed_text(text, today))
                .or(signed_days(text, today))
                .or(end_typed(text, today))
                .or(year_day_typed(text, today))
        }
    }
}

impl Period {
    /// The days that a text says on a day, as people type them: the one of [`Day::of_word`], those of a block of
    /// [`Period::of_block`], those of `nextweek`, `nextmonth` or `nextyear`, or of `week`, `month` or `year`, which are this
    /// one's. `None` where it says none of the years 1 to 9999.
    pub fn of_word(text: &[u8], today: Day) -> Option<Period>
        ensures value { option_map days_of result ≡ typed_days text.now today }
    {
        match Day::of_word(text, today) {
            Some(day) => Some(Period {
                first: day,
                last: day,
            }),
            None => typed_block(text, today),
        }
    }
}

// The block of time that a text names on a day.
fn typed_block(text: &[u8], today: Day) -> Option<Period>
    ensures value { option_map days_of result ≡ typed_block text.now today }
{
    if same_word(text, b"nextweek") {
        block_after(b"thisweek", today)
    } else if same_word(text, b"nextmonth") {
        block_after(b"thismonth", today)
    } else if same_word(text, b"nextyear") {
        block_after(b"thisyear", today)
    } else if same_word(text, b"week") {
        Period::of_block(b"thisweek", today).ok()
    } else if same_word(text, b"month") {
        Period::of_block(b"thismonth", today).ok()
    } else if same_word(text, b"year") {
        Period::of_block(b"thisyear", today).ok()
    } else {
        Period::of_block(text, today).ok()
    }
}

// The last day of this week, month or year.
fn end_typed(text: &[u8], today: Day) -> Option<Day>
    ensures value { result ≡ end_typed text.now today }
{
    if same_word(text, b"eow") {
        last_of(b"thisweek", today)
    } else if same_word(text, b"eom") {
        last_of(b"thismonth", today)
    } else if same_word(text, b"eoy") {
        last_of(b"thisyear", today)
    } else {
        None
    }
}

// The last day of the block that a word names on a day.
fn last_of(word: &[u8], today: Day) -> Option<Day>
    ensures value { result ≡ last_of word.now today }
{
    let block = Period::of_block(word, today).ok()?;
    Some(block.last)
}

// The block that a word would name on the day after the block that it names.
fn block_after(word: &[u8], today: Day) -> Option<Period>
    ensures value { option_map days_of result ≡ block_after word.now today }
{
    let this = Period::of_block(word, today).ok()?;
    let after = in_calendar(this.last.number() + 1)?;
    Period::of_block(word, after).ok()
}

// The first day from today on of the weekday that a word names.
fn weekday_typed(text: &[u8], today: Day) -> Option<Day>
    ensures value { result ≡ weekday_typed text.now today }
{
    let weekday = weekday_named(text)?;
    let (today, place) = (today.number(), (today.number() + 6) % 7);
    in_calendar(today + (weekday + 7 - place) % 7)
}

// The day of the week that a word names, 0 for Monday.
fn weekday_named(text: &[u8]) -> Option<u32>
    ensures value { result ≡ weekday_named text.now }
{
    if is_called(text, b"mon", b"monday") {
        Some(0)
    } else if is_called(text, b"tue", b"tuesday") {
        Some(1)
    } else if is_called(text, b"wed", b"wednesday") {
        Some(2)
    } else if is_called(text, b"thu", b"thursday") {
        Some(3)
    } else if is_called(text, b"fri", b"friday") {
        Some(4)
    } else if is_called(text, b"sat", b"saturday") {
        Some(5)
    } else if is_called(text, b"sun", b"sunday") {
        Some(6)
    } else {
        None
    }
}

// Whether a text is a name, in its short form or whole.
pub(crate) fn is_called(text: &[u8], short: &[u8], whole: &[u8]) -> bool
    ensures value { result ≡ is_called text.now short.now whole.now }
{
    same_word(text, short) || same_word(text, whole)
}

// A sign, one to four digits and the letter of a unit.
fn signed_text(text: &[u8], day: Day) -> Option<Day>
    ensures value { result ≡ signed_text text.now day }
{
    match text {
        [sign, d, letter] => signed_day(*sign, two_digits(b'0', *d)? as u16, *letter, day),
        [sign, c, d, letter] => signed_day(*sign, two_digits(*c, *d)? as u16, *letter, day),
        [sign, b, c, d, letter] => signed_day(*sign, four_digits(b'0', *b, *c, *d)?, *letter, day),
        [sign, a, b, c, d, letter] => signed_day(*sign, four_digits(*a, *b, *c, *d)?, *letter, day),
        _ => None,
    }
}

// A sign and one to four digits, which are days.
fn signed_days(text: &[u8], day: Day) -> Option<Day>
    ensures value { result ≡ signed_days text.now day }
{
    match text {
        [sign, d] => signed_day(*sign, two_digits(b'0', *d)? as u16, b'd', day),
        [sign, c, d] => signed_day(*sign, two_digits(*c, *d)? as u16, b'd', day),
        [sign, b, c, d] => signed_day(*sign, four_digits(b'0', *b, *c, *d)?, b'd', day),
        [sign, a, b, c, d] => signed_day(*sign, four_digits(*a, *b, *c, *d)?, b'd', day),
        _ => None,
    }
}

fn signed_day(sign: u8, n: u16, letter: u8, day: Day) -> Option<Day>
    ensures value { result ≡ signed_day sign (Some n) letter day }
{
    let unit = unit_of(letter)?;
    match sign {
        b'+' => later(unit, n as u32, day),
        b'-' => earlier(unit, n as u32, day),
        _ => None,
    }
}

fn unit_of(letter: u8) -> Option<Unit>
    ensures value { result ≡ unit_of letter }
{
    match letter {
        b'd' => Some(Unit::Day),
        b'w' => Some(Unit::Week),
        b'm' => Some(Unit::Month),
        b'y' => Some(Unit::Year),
        _ => None,
    }
}

fn later(unit: Unit, n: u32, day: Day) -> Option<Day>
    requires below { n < 2 ^ 16 }
    ensures value { result ≡ later unit n day }
{
    match unit {
        Unit::Hour => None,
        Unit::Day => in_calendar(day.number() + n),
        Unit::Week => in_calendar(day.number() + 7 * n),
        Unit::Month => in_month(this_month(day) + n, day.parts().2),
        Unit::Year => in_month(this_month(day) + 12 * n, day.parts().2),
    }
}

fn earlier(unit: Unit, n: u32, day: Day) -> Option<Day>
    requires below { n < 2 ^ 16 }
    ensures value { result ≡ earlier unit n day }
{
    match unit {
        Unit::Hour => None,
        Unit::Day => in_calendar(day.number().saturating_sub(n)),
        Unit::Week => in_calendar(day.number().saturating_sub(7 * n)),
        Unit::Month => in_month(this_month(day).saturating_sub(n), day.parts().2),
        Unit::Year => in_month(this_month(day).saturating_sub(12 * n), day.parts().2),
    }
}

// The day with that number, if there is one.
fn in_calendar(number: u32) -> Option<Day>
    ensures value { result ≡ in_calendar number }
{
    Day::of_number(number as u64)
}

// The day of a month, or its last day where the month is shorter; none of a month outside the years 1 to 9999.
fn in_month(index: u32, date: u8) -> Option<Day>
    requires some { 1 ≤ date }
    ensures value { result ≡ in_month index date }
{
    if index < 12 || index > LAST_MONTH {
        return None;
    }
    Some(day_of_month(index, date))
}

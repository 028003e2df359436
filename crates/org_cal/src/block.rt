//! Blocks of time by their names.
ghost use Rattle.std.specs.Prelude.{◌≡◌, ◌^◌, ◌<◌, ◌≤◌, Some, None, IfOk, IfErr};
ghost use Rattle.std.specs.Option.{option_map};
ghost use Rattle.org_cal.specs.Added.{day_of_month};
ghost use Rattle.org_cal.specs.Blocks.{block_of, dated_block, day_block, month_block, months_from, part_of_year, quarter_block, this_month, week_block, week_from, year_block};
ghost use Rattle.org_cal.specs.Faults.{option_fault};
ghost use Rattle.org_cal.specs.Periods.{days_of};
ghost use Rattle.org_cal.specs.declared.day.TheConstants.{LAST_MONTH};

use crate::day::{Day, LAST_MONTH};
use crate::digits::{four_digits, two_digits};
use crate::period::Period;
use jiff_core::civil;
use org_base::{Code, Fault};

impl Period {
    /// The block of time that the text names (Org manual 9.6, "The clock table"): `YYYY`, `YYYY-MM`, `YYYY-Q1` to
    /// `YYYY-Q4`, `YYYY-Www` (ISO 8601), `YYYY-MM-DD`, `today`, `yesterday`, `thisweek`, `lastweek`, `thismonth`,
    /// `lastmonth`, `thisyear` or `lastyear`. `Option` where it names none, where there is no such block, or where the
    /// block leaves the years 1 to 9999.
    pub fn of_block(text: &[u8], today: Day) -> Result<Period, Fault>
        ensures value { IfOk result (λ period. block_of text.now today ≡ Some (period.first, period.last)) }
        ensures option { IfErr result (λ fault. (fault ≡ option_fault) × (block_of text.now today ≡ None)) }
    {
        block_named(text, today).ok_or(Fault::Plain(Code::Option))
    }
}

// The block that a text names on a day.
fn block_named(text: &[u8], today: Day) -> Option<Period>
    ensures value { option_map days_of result ≡ block_of text.now today }
{
    if text == b"today".as_slice() {
        day_block(today.number())
    } else if text == b"yesterday".as_slice() {
        day_block(today.number() - 1)
    } else if text == b"thisweek".as_slice() {
        week_from(today.monday().number())
    } else if text == b"lastweek".as_slice() {
        week_from(today.monday().number().saturating_sub(7))
    } else if text == b"thismonth".as_slice() {
        months_from(this_month(today), 1)
    } else if text == b"lastmonth".as_slice() {
        months_from(this_month(today) - 1, 1)
    } else if text == b"thisyear".as_slice() {
        year_block(today.parts().0)
    } else if text == b"lastyear".as_slice() {
        year_block(today.parts().0 - 1)
    } else {
        dated_block(text)
    }
}

// `YYYY`, `YYYY-MM`, `YYYY-Qn`, `YYYY-Www` or `YYYY-MM-DD`.
fn dated_block(text: &[u8]) -> Option<Period>
    ensures value { option_map days_of result ≡ dated_block text.now }
{
    match text {
        [a, b, c, d] => year_block(four_digits(*a, *b, *c, *d)?),
        [a, b, c, d, b'-', m, n] => part_of_year(four_digits(*a, *b, *c, *d)?, *m, *n),
        [a, b, c, d, b'-', b'W', m, n] => {
            let year = four_digits(*a, *b, *c, *d)?;
            week_block(year, two_digits(*m, *n)?)
        }
        _ => day_block(Day::of_text(text)?.number()),
    }
}

// `MM`, or `Q1` to `Q4`.
fn part_of_year(year: u16, m: u8, n: u8) -> Option<Period>
    requires { year < 10_000 }
    ensures value { option_map days_of result ≡ part_of_year year m n }
{
    if m == b'Q' {
        quarter_block(year, two_digits(b'0', n)?)
    } else {
        month_block(year, two_digits(m, n)?)
    }
}

fn year_block(year: u16) -> Option<Period>
    ensures value { option_map days_of result ≡ year_block year }
{
    months_from(12 * year as u32, 12)
}

fn quarter_block(year: u16, quarter: u8) -> Option<Period>
    ensures value { option_map days_of result ≡ quarter_block year quarter }
{
    if quarter < 1 || quarter > 4 {
        return None;
    }
    months_from(12 * year as u32 + 3 * (quarter as u32 - 1), 3)
}

fn month_block(year: u16, month: u8) -> Option<Period>
    ensures value { option_map days_of result ≡ month_block year month }
{
    if month < 1 || month > 12 {
        return None;
    }
    months_from(12 * year as u32 + (month as u32 - 1), 1)
}

// The week of a year (ISO 8601): the week with 4 January is the first.
fn week_block(year: u16, week: u8) -> Option<Period>
    ensures value { option_map days_of result ≡ week_block year week }
{
    let fourth = Day::of_parts(year, 1, 4)?;
    let weeks = week.saturating_sub(1) as u32;
    let period = week_from(fourth.monday().number() + 7 * weeks)?;
    if period.first.iso_week() == (year, week) {
        Some(period)
    } else {
        None
    }
}

fn day_block(number: u32) -> Option<Period>
    ensures value { option_map days_of result ≡ day_block number }
{
    let day = Day::of_number(number as u64)?;
    Some(Period {
        first: day,
        last: day,
    })
}

// The week that a Monday begins.
fn week_from(monday: u32) -> Option<Period>
    requires { monday < 2 ^ 31 }
    ensures value { option_map days_of result ≡ week_from monday }
{
    let first = Day::of_number(monday as u64)?;
    let last = Day::of_number(monday as u64 + 6)?;
    Some(Period { first, last })
}

// The months from January of the year 0 to the day's.
pub(crate) fn this_month(day: Day) -> u32
    ensures value { result ≡ this_month day }
    ensures first { 12 ≤ result }
    ensures last { result ≤ LAST_MONTH }
{
    let (year, month, _) = day.parts();
    12 * year as u32 + (month as u32 - 1)
}

// So many months, the first counted from January of the year 0.
fn months_from(index: u32, count: u32) -> Option<Period>
    requires some { 1 ≤ count }
    requires within_year { count ≤ 12 }
    requires fits { index < 2 ^ 31 }
    ensures value { option_map days_of result ≡ months_from index count }
{
    if index < 12 || index + count > LAST_MONTH + 1 {
        return None;
    }
    let first = day_of_month(index, 1);
    let last = day_of_month(index + count - 1, 31);
    Some(Period { first, last })
}

// The day of a month, or its last day where the month is shorter.
pub(crate) fn day_of_month(index: u32, day: u8) -> Day
    requires first { 12 ≤ index }
    requires last { index ≤ LAST_MONTH }
    requires some { 1 ≤ day }
    ensures value { result ≡ day_of_month index day }
{
    let year = (index / 12) as u16;
    let month = (index % 12) as u8 + 1;
    let last = civil::days_in_month(year as i16, month);
    Day::of(year, month, day.min(last)).unwrap()
}

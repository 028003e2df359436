//! Days of a year as people type them, without the year.
ghost use Rattle.std.specs.Prelude.{◌≡◌, ◌≤◌, length};
ghost use Rattle.std.specs.List.{prefix_len};
ghost use Rattle.org_base.specs.Words.{is_letter};
ghost use Rattle.org_cal.specs.Typed.{dated_month, date_digits, dotted_day, from_day, month_named, year_day, year_day_typed};

use crate::day::Day;
use crate::digits::two_digits;
use crate::typed::is_called;
use org_base::words::trim;

// The day that a text says without its year: today, or the next such day of this year or the next one.
pub(crate) fn year_day_typed(text: &[u8], today: Day) -> Option<Day>
    ensures value { result ≡ year_day_typed text.now today }
{
    dotted_day(text, today).or(dated_month(text, today))
}

// `24.12.`: a day, a month, and a dot behind each.
fn dotted_day(text: &[u8], today: Day) -> Option<Day>
    ensures value { result ≡ dotted_day text.now today }
{
    match text {
        [d, b'.', m, b'.'] => year_day(today, two_digits(b'0', *m)?, two_digits(b'0', *d)?),
        [c, d, b'.', m, b'.'] => year_day(today, two_digits(b'0', *m)?, two_digits(*c, *d)?),
        [d, b'.', l, m, b'.'] => year_day(today, two_digits(*l, *m)?, two_digits(b'0', *d)?),
        [c, d, b'.', l, m, b'.'] => year_day(today, two_digits(*l, *m)?, two_digits(*c, *d)?),
        _ => None,
    }
}

// `dec 24`: the name of a month, and a day of it.
fn dated_month(text: &[u8], today: Day) -> Option<Day>
    ensures value { result ≡ dated_month text.now today }
{
    let letters = leading_letters(text);
    let month = month_named(&text[..letters])?;
    year_day(today, month, date_digits(trim(&text[letters..]))?)
}

fn leading_letters(text: &[u8]) -> usize
    ensures within { result ≤ length text.now }
    ensures value { result ≡ prefix_len is_letter text.now }
{
    text.iter()
        .take_while(|b| !matches!(**b, b' ' | b'\t' | b'\r' | b'\n'))
        .count()
}

// A day of a month in one or two digits.
fn date_digits(text: &[u8]) -> Option<u8>
    ensures value { result ≡ date_digits text.now }
{
    match text {
        [d] => two_digits(b'0', *d),
        [c, d] => two_digits(*c, *d),
        _ => None,
    }
}

// This day of a month, from today on, in this year or the next one.
fn year_day(today: Day, month: u8, date: u8) -> Option<Day>
    ensures value { result ≡ year_day today month date }
{
    let (year, _, _) = today.parts();
    from_day(today, Day::of_parts(year, month, date)).or(Day::of_parts(year + 1, month, date))
}

// A day, where it isn't before another one.
fn from_day(today: Day, day: Option<Day>) -> Option<Day>
    ensures value { result ≡ from_day today day }
{
    let day = day?;
    if today.number() <= day.number() {
        Some(day)
    } else {
        None
    }
}

// The month of a name, 1 for January.
fn month_named(text: &[u8]) -> Option<u8>
    ensures value { result ≡ month_named text.now }
{
    if is_called(text, b"jan", b"january") {
        Some(1)
    } else if is_called(text, b"feb", b"february") {
        Some(2)
    } else if is_called(text, b"mar", b"march") {
        Some(3)
    } else if is_called(text, b"apr", b"april") {
        Some(4)
    } else if is_called(text, b"may", b"may") {
        Some(5)
    } else if is_called(text, b"jun", b"june") {
        Some(6)
    } else if is_called(text, b"jul", b"july") {
        Some(7)
    } else if is_called(text, b"aug", b"august") {
        Some(8)
    } else if is_called(text, b"sep", b"september") {
        Some(9)
    } else if is_called(text, b"oct", b"october") {
        Some(10)
    } else if is_called(text, b"nov", b"november") {
        Some(11)
    } else if is_called(text, b"dec", b"december") {
        Some(12)
    } else {
        None
    }
}

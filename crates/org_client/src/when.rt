//! Days and times as calendars have them.
ghost use Rattle.std.specs.Prelude.{◌≡◌};
ghost use Rattle.org_client.specs.EventTimes.{between, copy_when, date_of, day_ahead, days_before, days_more, from_time, has_time, hours_when, range_when, single_when, time_of, to_day, to_time, when_from};

use org_cal::{Day, LAST_DAY, TimeOfDay};
use org_ical::{Date, Time, When};
use org_stamp::Stamp;

/// A day by its year, its month and its number in it.
pub fn date_of(day: Day) -> Date
    ensures value { result ≡ date_of day }
{
    let (year, month, of_month) = day.parts();
    Date {
        year,
        month,
        day: of_month,
    }
}

/// A time of a day by its hour and its minute.
pub fn time_of(time: TimeOfDay) -> Time
    ensures value { result ≡ time_of time }
{
    let minutes = time.minutes();
    Time {
        hour: (minutes / 60) as u8,
        minute: (minutes % 60) as u8,
    }
}

/// When what a stamp stands for is, where it begins on a day.
pub(crate) fn when_from(stamp: &Stamp, day: Day) -> When
    ensures value { result ≡ when_from stamp.now day }
{
    match stamp.last {
        Some((_, end)) => copy_when(stamp.time, end, day, day_ahead(day, days_more(stamp))),
        None => single_when(stamp.time, stamp.end_time, day),
    }
}

/// How many days more than one a stamp has.
pub(crate) fn days_more(stamp: &Stamp) -> u32
    ensures value { result ≡ days_more stamp.now stamp.now.last }
{
    match stamp.last {
        Some((last, _)) => last.number().saturating_sub(stamp.day.number()),
        None => 0,
    }
}

/// The day so many days before another, or the first of all.
pub(crate) fn days_before(day: Day, before: u32) -> Day
    ensures value { result ≡ days_before day before }
{
    if before < day.number() {
        Day::of_number(u64::from(day.number() - before)).unwrap()
    } else {
        Day::of_number(1).unwrap()
    }
}

// A stamp that is no range.
pub(crate) fn single_when(start: Option<TimeOfDay>, end: Option<TimeOfDay>, day: Day) -> When
    ensures value { result ≡ single_when start end day }
{
    match (start, end) {
        (Some(start), Some(end)) => hours_when(start, end, day),
        (start, _) => from_time(start, day),
    }
}

// Hours of a day, which may end on the next one.
fn hours_when(start: TimeOfDay, end: TimeOfDay, day: Day) -> When
    ensures value { result ≡ hours_when start end day }
{
    let (from, to) = (start.minutes(), end.minutes());
    if from < to {
        between(day, start, day, end)
    } else if to < from {
        to_time(day, start, day_ahead(day, 1), end)
    } else {
        from_time(Some(start), day)
    }
}

// A range, where the calendar has its last day.
fn copy_when(start: Option<TimeOfDay>, end: Option<TimeOfDay>, day: Day, last: Option<Day>) -> When
    ensures value { result ≡ copy_when start end day last }
{
    match last {
        Some(last) => range_when(start, end, day, last),
        None => from_time(start, day),
    }
}

// A range from a day to another.
fn range_when(start: Option<TimeOfDay>, end: Option<TimeOfDay>, day: Day, last: Day) -> When
    ensures value { result ≡ range_when start end day last }
{
    let goes_on = day.number() < last.number();
    match (start, end) {
        (None, _) if goes_on => to_day(day, day_ahead(last, 1)),
        (Some(start), None) if goes_on => {
            to_time(day, start, day_ahead(last, 1), TimeOfDay::of_minutes(0))
        }
        (Some(start), Some(end)) if goes_on || start.minutes() < end.minutes() => {
            between(day, start, last, end)
        }
        (start, _) => from_time(start, day),
    }
}

// All days up to the one before another.
fn to_day(day: Day, behind: Option<Day>) -> When
    ensures value { result ≡ to_day day behind }
{
    match behind {
        Some(behind) => When::Days(date_of(day), date_of(behind)),
        None => from_time(None, day),
    }
}

// From a time of a day to a time of another.
fn to_time(day: Day, start: TimeOfDay, last: Option<Day>, end: TimeOfDay) -> When
    ensures value { result ≡ to_time day start last end }
{
    match last {
        Some(last) => between(day, start, last, end),
        None => from_time(Some(start), day),
    }
}

fn between(day: Day, start: TimeOfDay, last: Day, end: TimeOfDay) -> When
    ensures value { result ≡ between day start last end }
{
    When::Between(date_of(day), time_of(start), date_of(last), time_of(end))
}

fn from_time(start: Option<TimeOfDay>, day: Day) -> When
    ensures value { result ≡ from_time start day }
{
    match start {
        Some(start) => When::At(date_of(day), time_of(start)),
        None => When::Day(date_of(day)),
    }
}

// The day so many days later, if the calendar has it.
fn day_ahead(day: Day, ahead: u32) -> Option<Day>
    ensures value { result ≡ day_ahead day ahead }
{
    let number = u64::from(day.number()) + u64::from(ahead);
    if number <= u64::from(LAST_DAY) {
        Day::of_number(number)
    } else {
        None
    }
}

/// Whether something has a time of day.
pub(crate) fn has_time(when: When) -> bool
    ensures value { result ≡ has_time when }
{
    match when {
        When::Day(_) | When::Days(..) => false,
        When::At(..) | When::Between(..) => true,
    }
}

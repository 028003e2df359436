//! On which days stamps occur, and where a completed task's stamp shifts to.
use org_base::{Code, Fault, Profile};
use org_cal::{Day, Moment, TimeOfDay, push_date};
use org_repeat::{Occurrences, next_after, occurrences_in, occurs_on, range_start, shifted};
use org_stamp::{Stamp, print_stamp, read_stamp};
use std::alloc::Global;
use std::test::Fail;

fn stamp_of(text: &str) -> Option<Stamp> {
    match read_stamp(text.as_bytes(), 0) {
        Some((stamp, _)) => Some(stamp),
        None => None,
    }
}

// Stamps, a day, and whether the stamp occurs on it.
const DAYS: &str = "<2024-01-31 Wed +1m>=2024-01-30 no
<2024-01-31 Wed +1m>=2024-02-29 yes
<2024-01-31 Wed +1m>=2024-03-29 no
<2024-01-31 Wed +1m>=2024-03-31 yes
<2024-02-28 Wed 20:00 +36h>=2024-02-29 no
<2024-02-28 Wed 20:00 +36h>=2024-03-01 yes
<2024-02-28 Wed 20:00 +36h>=2024-03-02 yes
<2024-02-28 Wed 20:00 +36h>=2024-03-03 no
<2024-02-28 Wed +36h>=2024-02-29 yes
<2024-02-29 Thu +1y>=2025-02-28 yes
<2024-02-29 Thu +1y>=2028-02-28 no
<2024-02-28 Wed ++2w>=2024-03-13 yes
<2024-02-28 Wed ++2w>=2024-03-06 no
<2024-02-28 Wed>=2024-02-28 yes
<2024-02-28 Wed>=2024-02-29 no
<2024-02-28 Wed>--<2024-03-01 Fri>=2024-02-29 yes
<2024-02-28 Wed +1w>--<2024-03-01 Fri>=2024-03-06 no
<9999-12-30 Thu +1d>=9999-12-31 yes";

fn occurs_at(text: &str, day: Day) -> Option<bool> {
    match read_stamp(text.as_bytes(), 0) {
        Some((stamp, _)) => Some(occurs_on(&stamp, Profile::One, day)),
        None => None,
    }
}

fn is_day(row: &str) -> Option<bool> {
    let (text, rest) = row.split_once('=')?;
    let (day, answer) = rest.split_once(' ')?;
    let occurs = occurs_at(text, Day::of_text(day.as_bytes())?)?;
    Some(occurs == (answer == "yes"))
}

fn wrong_day() -> Option<&'static str> {
    for row in DAYS.lines() {
        if is_day(row) != Some(true) {
            return Some(row);
        }
    }
    None
}

#[test]
fn days(rt: HostRuntime) {
    assert_eq!(rt; wrong_day(), None);
}

// Stamps, a first and a last day, and the days between them on which the stamp occurs.
const WINDOWS: &str = "<2024-01-31 Wed +1m>=2024-02-01 2024-05-01=2024-02-29 2024-03-31 2024-04-30
<2024-02-28 Wed 20:00 +8h>=2024-02-27 2024-03-01=2024-02-28 2024-02-29 2024-03-01
<2024-02-28 Wed>--<2024-03-10 Sun>=2024-03-08 2024-12-31=2024-03-08 2024-03-09 2024-03-10
<2024-02-28 Wed>=2024-02-01 2024-03-01=2024-02-28
<9999-12-25 Sat +3d>=9999-12-26 9999-12-31=9999-12-28 9999-12-31
<2024-02-28 Wed +1d>=2024-03-02 2024-03-01=";

// The days of a window, each followed by a space.
fn days_in(alloc: Global, days: Occurrences) -> Result<String, Fault> {
    // The borrow checker wants the types inside a stamp named where one is held.
    let _: Option<TimeOfDay> = None;
    let mut found = String::new(alloc);
    for day in days {
        push_date(&mut found, day)?;
        found.push_str(" ")?;
    }
    Ok(found)
}

fn window(text: &str, from: &str, to: &str) -> Option<Occurrences> {
    let stamp = stamp_of(text)?;
    let from = Day::of_text(from.as_bytes())?;
    Some(occurrences_in(&stamp, Profile::One, from, Day::of_text(to.as_bytes())?))
}

// A row as its window, and the text of its days.
fn window_and_days(row: &str) -> Option<(Occurrences, &str)> {
    let (text, rest) = row.split_once('=')?;
    let (days, want) = rest.split_once('=')?;
    let (from, to) = days.split_once(' ')?;
    Some((window(text, from, to)?, want))
}

fn is_window(alloc: Global, row: &str) -> Result<bool, Fault> {
    match window_and_days(row) {
        Some((days, want)) => Ok(days_in(alloc, days)?.trim_end() == want),
        None => Ok(false),
    }
}

fn wrong_window(alloc: Global) -> Result<Option<&'static str>, Fault> {
    for row in WINDOWS.lines() {
        if !is_window(alloc, row)? {
            return Ok(Some(row));
        }
    }
    Ok(None)
}

#[test]
fn windows(rt: HostRuntime) -> Result<(), Fail> {
    assert_eq!(rt; wrong_window(rt.alloc())?, None);
    Ok(())
}

// Ranges that repeat, a day, and where the copy begins that the day shows in the second profile; then stamps, a day, and where
// they begin next after it.
const STARTS: &str = "<2024-02-20 Tue +1w>--<2024-02-22 Thu>=2024-02-28=2024-02-27
<2024-02-20 Tue +1w>--<2024-02-22 Thu>=2024-02-26=
<2024-02-26 Mon +1d>--<2024-02-28 Wed>=2024-02-28=2024-02-28
<2024-01-31 Wed +1m>--<2024-02-02 Fri>=2024-03-02=2024-02-29
<2024-01-31 Wed +1m>--<2024-02-02 Fri>=2024-03-03=
<2024-02-29 Thu +1y>--<2024-03-01 Fri>=2025-03-01=2025-02-28
<2024-02-27 Tue 22:00 +36h>--<2024-02-28 Wed 2:00>=2024-03-01=2024-03-01
<2024-02-28 Wed +1w>--<2024-02-26 Mon>=2024-02-28=
<2024-02-28 Wed>=2024-02-28=";

const NEXT: &str = "<2024-01-31 Wed +1m>=2024-02-28=2024-02-29
<2024-01-31 Wed +1m>=2024-02-29=2024-03-31
<2024-02-28 Wed>=2024-02-27=2024-02-28
<2024-02-28 Wed>=2024-02-28=
<2024-02-26 Mon 20:00 +30h>=2024-02-28=2024-02-29
<9999-12-30 Thu +1d>=9999-12-31=";

// What a row of these asks: a stamp and a day; and the day that is wanted.
fn stamp_and_days(row: &str) -> Option<(Stamp, Day, Option<Day>)> {
    let (text, rest) = row.split_once('=')?;
    let (day, want) = rest.split_once('=')?;
    Some((
        stamp_of(text)?,
        Day::of_text(day.as_bytes())?,
        Day::of_text(want.as_bytes()),
    ))
}

fn is_start(row: &str) -> bool {
    match stamp_and_days(row) {
        Some((stamp, day, want)) => range_start(&stamp, Profile::Two, day) == want,
        None => false,
    }
}

fn is_next(row: &str) -> bool {
    match stamp_and_days(row) {
        Some((stamp, day, want)) => next_after(&stamp, day) == want,
        None => false,
    }
}

fn wrong_start() -> Option<&'static str> {
    for row in STARTS.lines() {
        if !is_start(row) {
            return Some(row);
        }
    }
    for row in NEXT.lines() {
        if !is_next(row) {
            return Some(row);
        }
    }
    None
}

#[test]
fn copies(rt: HostRuntime) {
    assert_eq!(rt; wrong_start(), None);
}

// A moment, a stamp, and where it shifts to; first the examples of the Org manual, "Repeated tasks".
const SHIFTS: &str = "2005-10-15 12:00=<2005-10-01 Sat +1m>=<2005-11-01 Tue +1m>
2008-02-16 12:00=<2008-02-10 Sun ++1w>=<2008-02-17 Sun ++1w>
2008-03-01 12:00=<2008-02-10 Sun ++1w>=<2008-03-02 Sun ++1w>
2008-02-11 19:59=<2008-02-08 Fri 20:00 ++1d>=<2008-02-11 Mon 20:00 ++1d>
2008-02-11 20:00=<2008-02-08 Fri 20:00 ++1d>=<2008-02-12 Tue 20:00 ++1d>
2005-11-20 12:00=<2005-11-01 Tue .+1m>=<2005-12-20 Tue .+1m>
2019-04-05 09:15=<2019-04-05 Fri 08:00 .+1h>=<2019-04-05 Fri 10:15 .+1h>
2024-02-28 10:30=<2024-01-01 Mon +1w>=<2024-01-08 Mon +1w>
2024-02-28 10:30=<2024-01-01 Mon ++1w>=<2024-03-04 Mon ++1w>
2024-02-28 10:30=<2024-01-01 Mon .+1w>=<2024-03-06 Wed .+1w>
2024-02-28 10:30=<2024-03-04 Mon ++1w>=<2024-03-11 Mon ++1w>
2024-02-28 10:30=<2024-02-28 Wed 8:00 ++3h>=<2024-02-28 Wed 11:00 ++3h>
2024-02-28 10:30=<2024-02-28 Wed 8:00 .+2h>=<2024-02-28 Wed 12:30 .+2h>
2024-02-28 10:30=<2024-02-28 Wed 20:00 +36h>=<2024-03-01 Fri 08:00 +36h>
2024-02-28 10:30=<2024-02-28 Wed 10:30 ++1d>=<2024-02-29 Thu 10:30 ++1d>
2024-02-28 10:30=<2024-02-28 Wed ++1d>=<2024-02-29 Thu ++1d>
2024-02-28 10:30=<2023-12-31 Sun ++1m>=<2024-02-29 Thu ++1m>
2024-02-28 10:30=<2024-01-31 Wed +1m>=<2024-02-29 Thu +1m>
2024-02-28 10:30=<2020-02-29 Sat ++1y>=<2024-02-29 Thu ++1y>
2024-02-28 10:30=<2024-02-28 Wed 9:00-10:00 .+1d/3d -2d>=<2024-02-29 Thu 09:00-10:00 .+1d/3d -2d>
2024-02-28 10:30=<2024-02-28 Wed 9:00>=<2024-02-28 Wed 09:00>
2024-02-28 10:30=<2024-01-01 Mon +1h>=hours
2024-02-28 10:30=<2024-01-01 Mon 9:00-10:00 .+1h>=hours
2024-02-28 10:30=<9999-12-31 Fri 23:00-23:30 +1h>=hours
2024-02-28 10:30=<9999-12-31 Fri 23:00 +1h>=date
2024-02-28 10:30=<9999-12-31 Fri +1d>=date
2024-02-28 10:30=<9999-12-31 Fri ++1m>=date
2024-02-28 10:30=<2024-01-01 Mon .+8000y>=date";

fn text_of_parts(alloc: Global, stamp: &Stamp, moment: Moment) -> Result<String, Fault> {
    match shifted(stamp, moment) {
        Ok(stamp) => print_stamp(alloc, &stamp),
        Err(fault) => Ok(String::from_str(alloc, fault.code().name())?),
    }
}

fn shifts(alloc: Global, moment: Moment, text: &str, want: &str) -> Result<bool, Fault> {
    match stamp_of(text) {
        Some(stamp) => Ok(text_of_parts(alloc, &stamp, moment)?.as_str() == want),
        None => Ok(false),
    }
}

fn moment_of(text: &str) -> Result<Moment, Fault> {
    match text.split_once(' ') {
        Some((date, time)) => Moment::read(date.as_bytes(), time.as_bytes()),
        None => Err(Fault::Plain(Code::Date)),
    }
}

fn is_shift(alloc: Global, row: &str) -> Result<bool, Fault> {
    let Some((moment, rest)) = row.split_once('=') else {
        return Ok(false);
    };
    let Some((text, want)) = rest.split_once('=') else {
        return Ok(false);
    };
    shifts(alloc, moment_of(moment)?, text, want)
}

fn wrong_shift(alloc: Global) -> Result<Option<&'static str>, Fault> {
    for row in SHIFTS.lines() {
        if !is_shift(alloc, row)? {
            return Ok(Some(row));
        }
    }
    Ok(None)
}

#[test]
fn shifted_stamps(rt: HostRuntime) -> Result<(), Fail> {
    assert_eq!(rt; wrong_shift(rt.alloc())?, None);
    Ok(())
}

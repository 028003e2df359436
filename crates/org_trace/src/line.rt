//! What a line of a section logs.
ghost use Rattle.std.specs.Prelude.{◌≡◌, ◌<◌, ◌^◌, length};
ghost use Rattle.std.specs.Option.{option_map};
ghost use Rattle.org_cal.specs.Minutes.{minute_at};
ghost use Rattle.org_trace.specs.Entries.{clock_entry, clock_of, closed_entry, closed_of, line_entry, state_entry};

use crate::entry::{LogEntry, LogEvent};
use crate::state::{first_inactive, state_change};
use org_base::Span;
use org_cal::{Day, Minute, TimeOfDay};
use org_class::Class;
use org_drawer::read_planning;
use org_settings::Settings;
use org_stamp::{Stamp, clock_stamp};

// What a line of a class logs.
pub(crate) fn line_entry(settings: &Settings, class: Class, line: &[u8]) -> Option<LogEntry>
    requires fits { length line.now < 2 ^ 32 }
    ensures value { result ≡ line_entry settings.now.keywords class line.now }
{
    match class {
        Class::Planning => closed_entry(line),
        Class::Clock => clock_entry(line),
        Class::Plain => state_entry(settings, line),
        _ => None,
    }
}

// That of a planning line with an inactive stamp under `CLOSED`.
fn closed_entry(line: &[u8]) -> Option<LogEntry>
    requires fits { length line.now < 2 ^ 32 }
    ensures value { result ≡ closed_entry line.now }
{
    match read_planning(line) {
        Some(planning) => closed_of(planning.closed),
        None => None,
    }
}

fn closed_of(closed: Option<(Stamp, Span)>) -> Option<LogEntry>
    ensures { result ≡ closed_of closed }
{
    let Some((stamp, _)) = closed else {
        return None;
    };
    if stamp.active {
        return None;
    }
    Some(LogEntry {
        day: stamp.day,
        time: stamp.time,
        event: LogEvent::Closed,
    })
}

// That of a clock line, on the day on which it begins.
fn clock_entry(line: &[u8]) -> Option<LogEntry>
    ensures value { result ≡ clock_entry line.now }
{
    match clock_stamp(line) {
        Some(stamp) => Some(clock_of(&stamp)),
        None => None,
    }
}

fn clock_of(stamp: &Stamp) -> LogEntry
    ensures { result ≡ clock_of stamp.now }
{
    LogEntry {
        day: stamp.day,
        time: stamp.time,
        event: LogEvent::Clock(minute_of(stamp.last)),
    }
}

// The minute of a day and a time, if there is one.
fn minute_of(end: Option<(Day, Option<TimeOfDay>)>) -> Option<u64>
    ensures { result ≡ option_map minute_at end }
{
    match end {
        Some((day, time)) => Some(Minute::of(day, time).number()),
        None => None,
    }
}

// That of a line which says that a keyword changed, at the line's first inactive stamp.
fn state_entry(settings: &Settings, line: &[u8]) -> Option<LogEntry>
    ensures value { result ≡ state_entry settings.now.keywords line.now }
{
    let change = state_change(settings, line)?;
    let stamp = first_inactive(line)?;
    Some(LogEntry {
        day: stamp.day,
        time: stamp.time,
        event: LogEvent::State(change),
    })
}

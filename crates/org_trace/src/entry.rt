//! What was logged.
ghost use Rattle.std.specs.Prelude.{◌≡◌};
ghost use Rattle.org_trace.specs.Times.{end_of, end_time, entry_minute, entry_minutes};

use org_cal::{Day, MINUTES_PER_DAY, Minute, TimeOfDay};

/// A change of a heading's keyword: the place of the one that it got among the file's keywords, and of the one that it had,
/// where the line names one that the file has.
#[derive(Clone, Copy, Debug, PartialEq, Eq)]
pub struct StateChange {
    pub to: usize,
    pub from: Option<usize>,
}

/// What happened to a heading.
#[derive(Clone, Copy, Debug, PartialEq, Eq)]
pub enum LogEvent {
    /// It was closed.
    Closed,
    /// Its keyword changed.
    State(StateChange),
    /// It was clocked up to a minute since 0001-01-01 00:00; none of a clock that runs.
    Clock(Option<u64>),
}

/// What a line logs, and when: a clock is of the day on which it begins.
#[derive(Clone, Copy, Debug, PartialEq, Eq)]
pub struct LogEntry {
    pub day: Day,
    pub time: Option<TimeOfDay>,
    pub event: LogEvent,
}

impl LogEntry {
    /// The minute since 0001-01-01 00:00 at which it was; a missing time is 00:00.
    pub fn minute(&self) -> u64
        ensures value { result ≡ entry_minute self.now }
    {
        Minute::of(self.day, self.time).number()
    }

    /// The minutes of a clock. One that runs, or ends before it begins, has none.
    pub fn minutes(&self) -> u64
        ensures value { result ≡ entry_minutes self.now }
    {
        match end_of(self.event) {
            Some(end) => end.saturating_sub(self.minute()),
            None => 0,
        }
    }

    /// The time of day at which a clock ended, where it began at one.
    pub fn end_time(&self) -> Option<TimeOfDay>
        ensures value { result ≡ end_time self.now }
    {
        let _start = self.time?;
        let end = end_of(self.event)?;
        Some(TimeOfDay::of_minutes((end % MINUTES_PER_DAY) as u16))
    }
}

// The minute at which a clock ended.
fn end_of(event: LogEvent) -> Option<u64>
    ensures { result ≡ end_of event }
{
    match event {
        LogEvent::Closed | LogEvent::State(_) => None,
        LogEvent::Clock(end) => end,
    }
}

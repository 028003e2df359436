//! Rows of a log.
ghost use Rattle.std.specs.Prelude.{◌≡◌};
ghost use Rattle.org_trace.specs.Rows.{is_asked, is_of_days, is_of_kinds, is_shown};

use crate::entry::{LogEntry, LogEvent};
use org_cal::Period;
use org_settings::Settings;
use std::marker::Model;

/// What is asked of a log: which days, and what of them.
#[derive(Clone, Copy, Debug, PartialEq, Eq)]
pub struct LogQuery {
    pub period: Period,
    /// When headings were closed.
    pub closed: bool,
    /// When keywords changed.
    pub states: bool,
    /// When headings were clocked.
    pub clocks: bool,
}

/// A row of a log: the places of its file and of its heading, the first byte of its line in the file, and what that says.
#[derive(Clone, Copy, Debug, PartialEq, Eq)]
pub struct LogRow {
    pub file: usize,
    pub heading: usize,
    pub at: u32,
    pub entry: LogEntry,
}

/// A file of a log: its place, its settings, of which of its sections rows are shown, and what is asked. Sections past the last
/// flag aren't shown.
#[derive(Debug, Drop)]
pub struct LogFile<'a> {
    pub file: usize,
    pub settings: &'a Settings,
    pub shown: &'a [bool],
    pub asked: &'a LogQuery,
}

impl<'a> Model for LogFile<'a> {
    ghost use Rattle.org_trace.specs.Asked.{FileAsked};

    ghost Value = { FileAsked };

    ghost view = { λ f. record { file = f.file; keywords = f.settings.now.keywords; shown = f.shown.now; asked = f.asked.now } };
}

// Whether the rows of the section at a place are shown.
pub(crate) fn is_shown(shown: &[bool], heading: usize) -> bool
    ensures value { result ≡ is_shown shown.now heading }
{
    match shown.get(heading) {
        Some(flag) => *flag,
        None => false,
    }
}

// Whether what a line logs is asked for.
pub(crate) fn is_asked(asked: &LogQuery, entry: &LogEntry) -> bool
    ensures value { result ≡ is_asked asked.now entry.now }
{
    is_of_days(&asked.period, entry) && is_of_kinds(asked, entry.event)
}

fn is_of_days(period: &Period, entry: &LogEntry) -> bool
    ensures { result ≡ is_of_days period.now entry.now }
{
    let day = entry.day.number();
    period.first.number() <= day && day <= period.last.number()
}

fn is_of_kinds(asked: &LogQuery, event: LogEvent) -> bool
    ensures { result ≡ is_of_kinds asked.now event }
{
    match event {
        LogEvent::Closed => asked.closed,
        LogEvent::State(_) => asked.states,
        LogEvent::Clock(_) => asked.clocks,
    }
}

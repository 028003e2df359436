//! What is logged of one change.

/// A line of a log.
#[derive(Clone, Copy, Debug, PartialEq, Eq)]
pub enum LogLine<'a> {
    /// A heading got this keyword, and had that one; without it had none.
    State(&'a str, Option<&'a str>),
    /// A heading is done, with a note.
    Closing,
    /// Its `SCHEDULED` changed, and was this.
    Rescheduled(&'a str),
    /// Its `SCHEDULED` went, and was this.
    Unscheduled(&'a str),
    /// Its `DEADLINE` changed, and was this.
    NewDeadline(&'a str),
    /// Its `DEADLINE` went, and was this.
    NoDeadline(&'a str),
    /// A note was taken.
    Note,
}

/// What is logged in a section.
#[derive(Clone, Copy, Debug)]
pub struct LogEntry<'a> {
    /// Whether `CLOSED:` is written.
    pub is_closed: bool,
    /// Whether `CLOSED:` goes.
    pub is_reopened: bool,
    /// Whether `LAST_REPEAT` is written, where a clock stands in the section, or anyway.
    pub repeats: Repeats,
    /// The line that is written, if one is.
    pub line: Option<LogLine<'a>>,
    /// The note that stands below that line; it may be empty.
    pub note: &'a str,
    /// The drawer in which that line stands; where it is empty it stands in the text.
    pub drawer: &'a str,
    /// Whether it comes before the older ones.
    pub is_newest_first: bool,
}

/// Whether `LAST_REPEAT` is written.
#[derive(Clone, Copy, Debug, PartialEq, Eq)]
pub enum Repeats {
    /// It isn't.
    Not,
    /// It is where a clock stands in the section.
    WithClock,
    /// It is.
    Always,
}

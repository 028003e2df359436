//! How urgent a habit is on a day.
ghost use Rattle.std.specs.Prelude.{◌≡◌};
ghost use Rattle.org_habit.specs.Urgencies.{urgency_of};

/// How urgent a habit is on a day (Org manual 9.6, "Tracking your habits").
#[derive(Clone, Copy, Debug, PartialEq, Eq)]
pub enum Urgency {
    /// It isn't to be done yet.
    Clear,
    /// It may be done.
    Ready,
    /// It is to be done on that day at the latest.
    Alert,
    /// It was to be done before.
    Overdue,
}

// The days on which a habit can be done in time: from the one for which it is planned to the last one.
#[derive(Clone, Copy)]
pub(crate) struct Span {
    pub planned: u64,
    pub last: u64,
}

// How urgent a habit is on a day that can be done in time on some, and was done on it or not.
pub(crate) fn urgency_of(day: u64, span: Span, is_done: bool) -> Urgency
    ensures value { result ≡ urgency_of day span.planned span.last is_done }
{
    if day < span.planned {
        Urgency::Clear
    } else if day < span.last {
        Urgency::Ready
    } else if day > span.last {
        Urgency::Overdue
    } else if is_done {
        Urgency::Ready
    } else {
        Urgency::Alert
    }
}

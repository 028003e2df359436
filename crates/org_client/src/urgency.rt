//! How urgent a heading is.
ghost use Rattle.std.specs.Prelude.{◌≡◌, ◌≤◌};
ghost use Rattle.org_client.specs.Urgency.{due_urgency, planned_urgency, priority_urgency, urgency_of};
ghost use Rattle.org_client.specs.declared.urgency.TheConstants.{MOST_URGENT};

use org_cal::Day;

/// The most that an urgency can be.
pub(crate) const MOST_URGENT: u32 = 2300;

// A deadline is urgent from so many days before it on, and most urgent from so many days past it on.
const DAYS_BEFORE: u32 = 2 * DAYS_PAST;

const DAYS_PAST: u32 = 7;

/// How urgent a heading is on a day, in hundredths: by its deadline up to 12, by a scheduled day that has come 5, and by its
/// priority up to 6.
pub(crate) fn urgency_of(
    today: Day,
    deadline: Option<Day>,
    scheduled: Option<Day>,
    priority: u8,
) -> u32
    ensures value { result ≡ urgency_of today deadline scheduled priority }
    ensures most { result ≤ MOST_URGENT }
{
    let due = match deadline {
        Some(day) => due_urgency(today, day),
        None => 0,
    };
    let planned = match scheduled {
        Some(day) => planned_urgency(today, day),
        None => 0,
    };
    due + planned + priority_urgency(priority)
}

// By a deadline: it grows from two weeks before it up to a week past it.
fn due_urgency(today: Day, deadline: Day) -> u32
    ensures value { result ≡ due_urgency today deadline }
    ensures most { result ≤ 1200 }
{
    let (today, deadline) = (today.number(), deadline.number());
    if deadline + DAYS_PAST <= today {
        1200
    } else if today + DAYS_BEFORE <= deadline {
        240
    } else {
        240 + 960 * (today + DAYS_BEFORE - deadline) / (DAYS_BEFORE + DAYS_PAST)
    }
}

// By a scheduled day that has come.
fn planned_urgency(today: Day, scheduled: Day) -> u32
    ensures value { result ≡ planned_urgency today scheduled }
    ensures most { result ≤ 500 }
{
    if scheduled.number() <= today.number() {
        500
    } else {
        0
    }
}

// By the priorities A, B and C.
fn priority_urgency(priority: u8) -> u32
    ensures value { result ≡ priority_urgency priority }
    ensures most { result ≤ 600 }
{
    if priority == b'A' {
        600
    } else if priority == b'B' {
        390
    } else if priority == b'C' {
        180
    } else {
        0
    }
}

//! The graph of a habit.
ghost use Rattle.std.specs.Prelude.{◌≡◌};
ghost use Rattle.org_habit.specs.Graphs.{day_at};

use crate::habit::Habit;
use crate::urgency::{Span, Urgency, urgency_of};
use org_cal::Day;
use org_stamp::RepeaterKind;
use std::alloc::{AllocError, Global};

/// A day of a graph: how urgent the habit was, and whether it was done.
#[derive(Clone, Copy, Debug, PartialEq, Eq)]
pub struct GraphDay {
    pub urgency: Urgency,
    pub is_done: bool,
}

/// The days of a graph: the first one, how many, and which day is today.
#[derive(Clone, Copy, Debug, PartialEq, Eq)]
pub struct GraphDays {
    pub first: Day,
    pub count: u32,
    pub today: Day,
}

// What is known of a habit before a day: how many of the days on which it was done came; and, where its stamp shifts by whole
// intervals past today, for which day it was planned after it was done first on the last of them, and after it was done last then.
#[derive(Clone, Copy)]
struct Known {
    came: usize,
    planned: u64,
    shifted: u64,
}

/// The graph of a habit, when these are the days on which it was done, in their order: for each day whether it was done, and how
/// urgent it was by what was done before. One pass over the days and over those on which it was done.
pub fn graph(
    alloc: Global,
    habit: &Habit,
    done: &[Day],
    days: &GraphDays,
) -> Result<Vec<GraphDay>, AllocError> {
    let mut known = Known {
        came: 0,
        planned: 0,
        shifted: 0,
    };
    let mut graph = Vec::new(alloc);
    for ahead in 0..days.count {
        let day = u64::from(days.first.number()) + u64::from(ahead);
        known = known_before(habit, done, known, day);
        graph.push(graph_day(habit, done, &known, day, days.today))?;
    }
    Ok(graph)
}

// What is known before a day, by what was known before an earlier one.
fn known_before(habit: &Habit, done: &[Day], known: Known, day: u64) -> Known {
    let mut known = known;
    for _next in known.came..done.len() {
        if day_at(done, known.came) >= day {
            break;
        }
        known = known_after(habit, done, &known);
    }
    known
}

// What is known after the next of the days on which a habit was done.
fn known_after(habit: &Habit, done: &[Day], known: &Known) -> Known {
    let day = day_at(done, known.came);
    let shifted = if known.came == 0 {
        first_planned(habit, day)
    } else {
        next_planned(habit, known.shifted, day)
    };
    let is_again = known.came > 0 && day_at(done, known.came.saturating_sub(1)) == day;
    Known {
        came: known.came.saturating_add(1),
        planned: if is_again { known.planned } else { shifted },
        shifted,
    }
}

// The number of the day at a place; past the end 0.
fn day_at(days: &[Day], place: usize) -> u64
    ensures value { result ≡ day_at days.now place }
{
    match days.get(place) {
        Some(day) => u64::from(day.number()),
        None => 0,
    }
}

// The first day after one that is so many intervals away from that for which a habit is planned now.
fn first_planned(habit: &Habit, done: u64) -> u64 {
    let interval = u64::from(habit.interval).max(1);
    let scheduled = u64::from(habit.scheduled.number());
    let shift = (scheduled + interval - done % interval) % interval;
    done.saturating_add(if shift == 0 { interval } else { shift })
}

// Where a habit's stamp shifts to that was planned for one day and is done on another: by whole intervals past that, by one at least.
fn next_planned(habit: &Habit, planned: u64, done: u64) -> u64 {
    let interval = u64::from(habit.interval).max(1);
    let more = done.saturating_sub(planned) / interval;
    planned.saturating_add(more.saturating_add(1).saturating_mul(interval))
}

// A day of a graph by what is known before it.
fn graph_day(habit: &Habit, done: &[Day], known: &Known, day: u64, today: Day) -> GraphDay {
    let today = u64::from(today.number());
    let scheduled = u64::from(habit.scheduled.number());
    let is_done = known.came < done.len() && day_at(done, known.came) == day;
    if day < today && known.came == 0 && scheduled >= today {
        return GraphDay {
            urgency: if is_done {
                Urgency::Ready
            } else {
                Urgency::Clear
            },
            is_done,
        };
    }
    let planned = if day < today && known.came > 0 && known.came < done.len() {
        planned_after(habit, done, known)
    } else {
        scheduled
    };
    let span = Span {
        planned,
        last: planned.saturating_add(u64::from(habit.grace())),
    };
    GraphDay {
        urgency: urgency_of(day, span, is_done),
        is_done,
    }
}

// For which day a habit was planned after the last of the days that came.
fn planned_after(habit: &Habit, done: &[Day], known: &Known) -> u64 {
    let interval = u64::from(habit.interval);
    match habit.kind {
        RepeaterKind::Today => day_at(done, known.came.saturating_sub(1)).saturating_add(interval),
        RepeaterKind::Plain => {
            let left = done.len().saturating_sub(known.came) as u64;
            u64::from(habit.scheduled.number()).saturating_sub(left.saturating_mul(interval))
        }
        RepeaterKind::Future => known.planned,
    }
}

//! Which headings are habits, and what is said of them.
ghost use Rattle.org_client.specs.Files.{AreRead};

use crate::habit_graph::push_graph;
use org_agenda::Row;
use org_base::Fault;
use org_cal::{Day, LAST_DAY, Moment, Period, Unit};
use org_client::{FileSet, LogChoice, log_rows};
use org_habit::{GraphDays, Habit, NoHabit, graph};
use org_inherit::{Heading, Inherit, Inherits};
use org_project::{Flag, flags};
use org_stamp::{RepeaterKind, Stamp};
use org_text::Text;
use org_trace::{LogEvent, LogQuery, LogRow};
use std::alloc::{AllocError, Global};
use std::slice::from_ref;

/// What is said of a heading as a habit: the day for which it is planned, its repeater, the last day on which it was done, and its
/// graph, where it has one.
#[derive(Debug, Drop)]
pub struct HabitFacts {
    pub scheduled: Option<Day>,
    pub repeater: String,
    pub last_done: Option<Day>,
    pub graph: String,
}

/// The habits of files, in the order of files and lines.
#[derive(Debug, Drop)]
pub struct Habits {
    /// The rows of their headings.
    pub rows: Vec<Row>,
    facts: Vec<HabitFacts>,
}

impl Habits {
    /// What is said of the heading at a place of a file, if it is a habit.
    pub fn get(&self, file: usize, heading: usize) -> Option<&HabitFacts> {
        let place = place_of(&self.rows, file, heading)?;
        self.facts.get(place)
    }
}

// The place of a heading's row among rows that stand in the order of files and lines.
fn place_of(rows: &[Row], file: usize, heading: usize) -> Option<usize> {
    let mut low = 0;
    let mut high = rows.len();
    for _step in 0..u32::BITS * 2 {
        if low >= high {
            break;
        }
        let middle = low + (high - low) / 2;
        let row = rows.get(middle)?;
        if row.file == file && row.heading == heading {
            return Some(middle);
        }
        if row.file < file || row.file == file && row.heading < heading {
            low = middle + 1;
        } else {
            high = middle;
        }
    }
    None
}

/// The habits of files at a moment: the headings that aren't hidden, have no done keyword, and whose property `STYLE` is `habit`. One
/// pass over the files' texts.
pub fn habits_of<T: Text>(
    alloc: Global,
    file_set: &FileSet<T>,
    inherits: &Inherits<'_>,
    moment: Moment,
    is_ascii: bool,
) -> Result<Habits, Fault> {
    let look = GraphLook {
        today: moment.day,
        is_ascii,
    };
    let rows = habit_headings(alloc, inherits)?;
    let done = done_days(alloc, file_set, inherits, rows.as_slice(), moment)?;
    let facts = all_facts(alloc, inherits, rows.as_slice(), done.as_slice(), &look)?;
    Ok(Habits { rows, facts })
}

// The rows of headings that are habits.
fn habit_headings(alloc: Global, inherits: &Inherits<'_>) -> Result<Vec<Row>, Fault> {
    let mut rows = Vec::new(alloc);
    for file in 0..inherits.count() {
        let own = headings_in(alloc, file, inherits.get(file))?;
        rows.extend_from_slice(own.as_slice())?;
    }
    Ok(rows)
}

fn headings_in(alloc: Global, file: usize, inherit: &Inherit<'_>) -> Result<Vec<Row>, Fault> {
    let undone = flags(alloc, inherit, Flag::Undone)?;
    let mut rows = Vec::new(alloc);
    for place in 0..undone.len() {
        if undone[place] && is_habit(inherit, file, place)? {
            rows.extend_from_slice(from_ref(&Row::of_heading(file, place)))?;
        }
    }
    Ok(rows)
}

// Whether the style of a heading is that of habits.
fn is_habit(inherit: &Inherit<'_>, file: usize, place: usize) -> Result<bool, Fault> {
    let Some(heading) = Heading::at(inherit, file, place) else {
        return Ok(false);
    };
    match heading.inherit.value(heading.place, b"STYLE")? {
        Some(style) => Ok(style.as_slice() == HABIT),
        None => Ok(false),
    }
}

const HABIT: &[u8] = b"habit";

// A day on which the habit at a place was done.
#[derive(Clone, Copy, PartialEq, Eq, PartialOrd, Ord)]
struct DoneDay {
    habit: usize,
    day: u32,
}

// The days on which habits were done, those of each habit together and in their order.
fn done_days<T: Text>(
    alloc: Global,
    file_set: &FileSet<T>,
    inherits: &Inherits<'_>,
    habits: &[Row],
    moment: Moment,
) -> Result<Vec<DoneDay>, Fault> {
    let mut done = Vec::new(alloc);
    let (Some(first), Some(last)) = (Day::of_number(1), Day::of_number(u64::from(LAST_DAY))) else {
        return Ok(done);
    };
    let asked = LogQuery {
        period: Period { first, last },
        closed: false,
        states: true,
        clocks: false,
    };
    let choice = LogChoice {
        asked: &asked,
        expressions: &[],
        moment,
    };
    let rows = log_rows(alloc, file_set, inherits, &choice)?;
    push_done(&mut done, inherits, habits, rows.as_slice())?;
    done.sort()?;
    Ok(done)
}

// Puts the days after others on which habits got a done keyword.
fn push_done(
    done: &mut Vec<DoneDay>,
    inherits: &Inherits<'_>,
    habits: &[Row],
    rows: &[LogRow],
) -> Result<(), AllocError> {
    for row in rows {
        if let Some(habit) = place_of(habits, row.file, row.heading) {
            if is_done(inherits, row) {
                done.push(DoneDay {
                    habit,
                    day: row.entry.day.number(),
                })?;
            }
        }
    }
    Ok(())
}

// Whether a row of a log says that a heading got a done keyword.
fn is_done(inherits: &Inherits<'_>, row: &LogRow) -> bool {
    if row.file >= inherits.count() {
        return false;
    }
    let settings = inherits.get(row.file).settings();
    match row.entry.event {
        LogEvent::State(change) => {
            change.to < settings.keyword_count() && settings.is_done(change.to)
        }
        LogEvent::Closed | LogEvent::Clock(_) => false,
    }
}

// On which day a graph is drawn, and by which signs.
#[derive(Clone, Copy)]
struct GraphLook {
    today: Day,
    is_ascii: bool,
}

fn all_facts(
    alloc: Global,
    inherits: &Inherits<'_>,
    rows: &[Row],
    done: &[DoneDay],
    look: &GraphLook,
) -> Result<Vec<HabitFacts>, AllocError> {
    let mut facts = Vec::new(alloc);
    let mut from = 0;
    for place in 0..rows.len() {
        let past = end_of(done, from, place);
        let own = own_days(alloc, done, from, past)?;
        from = past;
        let fact = facts_of(alloc, inherits, &rows[place], own.as_slice(), look)?;
        facts.push(fact)?;
    }
    Ok(facts)
}

// Where the days of the habit at a place end among those from a place on.
fn end_of(done: &[DoneDay], from: usize, habit: usize) -> usize {
    let mut past = from;
    for place in from..done.len() {
        if done[place].habit != habit {
            break;
        }
        past = place + 1;
    }
    past
}

fn own_days(
    alloc: Global,
    done: &[DoneDay],
    from: usize,
    past: usize,
) -> Result<Vec<Day>, AllocError> {
    let mut days = Vec::new(alloc);
    for place in from..past {
        if let Some(found) = done.get(place) {
            if let Some(day) = Day::of_number(u64::from(found.day)) {
                days.push(day)?;
            }
        }
    }
    Ok(days)
}

// What is said of a habit that was done on these days.
fn facts_of(
    alloc: Global,
    inherits: &Inherits<'_>,
    row: &Row,
    done: &[Day],
    look: &GraphLook,
) -> Result<HabitFacts, AllocError> {
    let mut facts = HabitFacts {
        scheduled: None,
        repeater: String::new(alloc),
        last_done: done.last().copied(),
        graph: String::new(alloc),
    };
    match stamp_of(inherits, row) {
        Some(stamp) => put_stamp(alloc, &mut facts, &stamp, done, look)?,
        None => facts.graph.push_str("not scheduled")?,
    }
    Ok(facts)
}

// The stamp under SCHEDULED of a row's heading.
fn stamp_of(inherits: &Inherits<'_>, row: &Row) -> Option<Stamp> {
    let heading = Heading::find(inherits, row.file, row.heading)?;
    match heading.entry.planning() {
        Some(planning) => match planning.scheduled {
            Some((stamp, _)) => Some(stamp),
            None => None,
        },
        None => None,
    }
}

// Puts what a stamp says of a habit, and its graph; in place of a graph why the stamp says no habit.
fn put_stamp(
    alloc: Global,
    facts: &mut HabitFacts,
    stamp: &Stamp,
    done: &[Day],
    look: &GraphLook,
) -> Result<(), AllocError> {
    facts.scheduled = Some(stamp.day);
    push_repeater(&mut facts.repeater, stamp)?;
    match Habit::of(stamp) {
        Ok(habit) => put_graph(alloc, facts, &habit, done, look),
        Err(why) => facts.graph.push_str(why_not(why)),
    }
}

fn put_graph(
    alloc: Global,
    facts: &mut HabitFacts,
    habit: &Habit,
    done: &[Day],
    look: &GraphLook,
) -> Result<(), AllocError> {
    let Some(first) = look.today.add_units(-DAYS_BEFORE, Unit::Day) else {
        return Ok(());
    };
    let days = GraphDays {
        first,
        count: DAYS,
        today: look.today,
    };
    let drawn = graph(alloc, habit, done, &days)?;
    push_graph(&mut facts.graph, drawn.as_slice(), &days, look.is_ascii)
}

// How many days before today a graph has, and how many in all.
const DAYS_BEFORE: i64 = 27;

const DAYS: u32 = 34;

fn why_not(why: NoHabit) -> &'static str {
    match why {
        NoHabit::NoRepeater => "no repeater",
        NoHabit::Hours => "a repeater by hours",
        NoHabit::Short => "a repeater of no day",
        NoHabit::Limit => "a limit within the repeater",
    }
}

// Appends a repeater as it is written in a stamp.
fn push_repeater(out: &mut String, stamp: &Stamp) -> Result<(), AllocError> {
    let Some(repeater) = stamp.repeater else {
        return Ok(());
    };
    out.push_str(match repeater.kind {
        RepeaterKind::Plain => "+",
        RepeaterKind::Future => "++",
        RepeaterKind::Today => ".+",
    })?;
    push_amount(out, repeater.n, repeater.unit)?;
    if let Some((n, unit)) = repeater.limit {
        out.push_str("/")?;
        push_amount(out, n, unit)?;
    }
    Ok(())
}

fn push_amount(out: &mut String, n: u16, unit: Unit) -> Result<(), AllocError> {
    let letter = match unit {
        Unit::Hour => 'h',
        Unit::Day => 'd',
        Unit::Week => 'w',
        Unit::Month => 'm',
        Unit::Year => 'y',
    };
    write!(out, "{n}{letter}")
}

//! Days of a page.

use crate::row::Row;

/// A day that comes: its date, its name above its rows, and these.
#[derive(Debug, Drop)]
pub struct Day {
    pub date: String,
    pub name: String,
    pub rows: Vec<Row>,
}

/// Today: its rows without hours, those with hours in their boxes, those with hours that have no box, and the minute of the
/// day that is now.
#[derive(Debug, Drop)]
pub struct Today {
    pub whole: Vec<Row>,
    pub boxes: Vec<Boxed>,
    pub beside: Vec<Row>,
    pub minute: u16,
}

/// A row in its box: from which minute of the day to which, in which lane, and of how many.
#[derive(Debug, Drop)]
pub struct Boxed {
    pub row: Row,
    pub from: u16,
    pub to: u16,
    pub lane: usize,
    pub lanes: usize,
}

/// A month: its name, and its weeks.
#[derive(Debug, Drop)]
pub struct Month {
    pub title: String,
    pub weeks: Vec<Week>,
}

/// A week: its number and its days.
#[derive(Debug, Drop)]
pub struct Week {
    pub number: u32,
    pub days: Vec<MonthDay>,
}

/// A day of a month: its date, its number, which days it is one of, its days of ranges, and its other rows.
#[derive(Debug, Drop)]
pub struct MonthDay {
    pub date: String,
    pub number: String,
    pub is_weekend: bool,
    pub is_other: bool,
    pub is_today: bool,
    pub ranges: Vec<Row>,
    pub rows: Vec<Row>,
}

//! The order of lines in a section.
ghost use Rattle.std.specs.Prelude.{◌≡◌};
ghost use Rattle.org_day.specs.Orders.{by_days, by_hours, by_urgency, late_by, late_order, no_order, order_of};

use crate::section::Section;
use crate::stand::{Hours, Kind, Stand};

/// Where a line stands in its section: by three numbers, the smaller first.
#[derive(Clone, Copy, Debug, PartialEq, Eq, PartialOrd, Ord)]
pub struct Order {
    pub first: u32,
    pub second: u32,
    pub third: u32,
}

/// Where the line of a row stands in its section.
pub(crate) fn order_of(stand: &Stand, section: Section) -> Order
    ensures value { result ≡ order_of stand.now section }
{
    match section {
        Section::AllDay | Section::Habits => no_order(),
        Section::ByTheClock => by_hours(stand.hours),
        Section::Due | Section::Planned => by_urgency(stand),
        Section::Late => late_order(stand),
        Section::DueSoon => by_days(stand),
    }
}

fn no_order() -> Order
    ensures value { result ≡ no_order }
{
    Order {
        first: 0,
        second: 0,
        third: 0,
    }
}

// By the start; what has no end first, then by the end.
fn by_hours(hours: Option<Hours>) -> Order
    ensures value { result ≡ by_hours hours }
{
    let Some(hours) = hours else {
        return no_order();
    };
    let second = match hours.end {
        None => 0,
        Some(end) => u32::from(end) + 1,
    };
    Order {
        first: u32::from(hours.start),
        second,
        third: 0,
    }
}

fn by_urgency(stand: &Stand) -> Order
    ensures value { result ≡ by_urgency stand.now }
{
    Order {
        first: u32::from(stand.urgency),
        second: 0,
        third: 0,
    }
}

// Deadlines first; what is the latest first, then by urgency.
fn late_order(stand: &Stand) -> Order
    ensures value { result ≡ late_order stand.now }
{
    match stand.kind {
        Kind::LateDue(days) => late_by(0, days, stand.urgency),
        Kind::LatePlanned(days) => late_by(1, days, stand.urgency),
        _ => late_by(2, 0, stand.urgency),
    }
}

fn late_by(first: u32, days: u32, urgency: u8) -> Order
    ensures value { result ≡ late_by first days urgency }
{
    Order {
        first,
        second: u32::MAX.saturating_sub(days),
        third: u32::from(urgency),
    }
}

// By the day, then by urgency.
fn by_days(stand: &Stand) -> Order
    ensures value { result ≡ by_days stand.now }
{
    let days = match stand.kind {
        Kind::DueIn(days) => days,
        _ => 0,
    };
    Order {
        first: days,
        second: u32::from(stand.urgency),
        third: 0,
    }
}

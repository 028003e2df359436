//! What a calendar shows, and what it is drawn on.

use crate::view::Days;
use org_cal::{Day, Unit};
use org_look::Signs;

/// What is drawn on: so many columns, by these signs.
#[derive(Clone, Copy, Debug)]
pub struct Canvas {
    pub columns: u16,
    pub signs: Signs,
}

/// What a calendar shows.
#[derive(Clone, Copy, Debug, PartialEq, Eq)]
pub enum View {
    /// The months of a year, one below the other.
    Year,
    Month,
    Week,
}

/// A calendar that is asked for: what it shows, the day that is in it, its days in whole weeks, and how it is drawn.
#[derive(Clone, Copy, Debug)]
pub struct Calendar {
    pub view: View,
    pub day: Day,
    pub days: Days,
    pub lines: usize,
    pub canvas: Canvas,
}

impl Calendar {
    /// A calendar with a day in it; none where its weeks leave the years 1 to 9999.
    pub fn of(view: View, day: Day, lines: usize, canvas: Canvas) -> Option<Calendar> {
        Some(Calendar {
            view,
            day,
            days: days_of(view, day)?,
            lines,
            canvas,
        })
    }

    /// The calendar of a month of the same year, 1 for January, if the calendar has its weeks.
    pub(crate) fn of_month(&self, month: u8) -> Option<Calendar> {
        let (year, _, _) = self.day.parts();
        let first = Day::of(year, month, 1).ok()?;
        Calendar::of(View::Month, first, self.lines, self.canvas)
    }
}

// The whole weeks of a view.
fn days_of(view: View, day: Day) -> Option<Days> {
    let (year, month, _) = day.parts();
    match view {
        View::Week => Days::new(day.monday(), 7),
        View::Month => {
            let first = Day::of(year, month, 1).ok()?;
            weeks_between(first, first.add_units(1, Unit::Month)?)
        }
        View::Year => {
            let first = Day::of(year, 1, 1).ok()?;
            weeks_between(first, first.add_units(1, Unit::Year)?)
        }
    }
}

// The whole weeks from a day on up to another one.
fn weeks_between(first: Day, next: Day) -> Option<Days> {
    let monday = first.monday();
    let count = next.number().saturating_sub(monday.number());
    Days::new(monday, count.div_ceil(7) * 7)
}

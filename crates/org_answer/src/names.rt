//! What pictures call days, weeks and months.

use org_cal::{Day, Period, day_name};
use org_client::{month_name, short_month};
use org_look::Grid;
use std::alloc::{AllocError, Global};

/// The number of a day, the first of a month with the month's name, today's in brackets.
pub(crate) fn number_of(alloc: Global, day: Day, is_today: bool) -> Result<String, AllocError> {
    let (_, month, of_month) = day.parts();
    let mut number = String::new(alloc);
    if is_today {
        number.push('[')?;
    }
    write!(number, "{of_month}")?;
    if of_month == 1 {
        write!(number, " {}", short_month(month))?;
    }
    if is_today {
        number.push(']')?;
    }
    Ok(number)
}

/// The name of a day above its rows.
pub(crate) fn name_of(alloc: Global, day: Day) -> Result<String, AllocError> {
    let (_, month, of_month) = day.parts();
    let (week, name) = (day_name(day), month_name(month));
    format!(in alloc; "{week} {of_month} {name}")
}

/// Appends the first and the last day of a week; what they share of month and year stands once.
pub(crate) fn push_span(out: &mut String, days: &Period) -> Result<(), AllocError> {
    let (year, month, first) = days.first.parts();
    let (last_year, last_month, last) = days.last.parts();
    write!(out, "{first}")?;
    if month != last_month {
        write!(out, " {}", month_name(month))?;
    }
    if year != last_year {
        write!(out, " {year}")?;
    }
    write!(out, " to {last} {} {last_year}", month_name(last_month))
}

/// Appends the names of the days, each in the middle of its cell.
pub(crate) fn push_heads(out: &mut String, grid: &Grid) -> Result<(), AllocError> {
    let gutter = grid.gutter();
    let before = grid.cell.saturating_sub(3) / 2;
    let after = grid.cell.saturating_sub(3) - before;
    write!(out, "{:gutter$}", "")?;
    for (place, name) in NAMES.iter().enumerate() {
        write!(out, " {:before$}{name}", "")?;
        if place < 6 {
            write!(out, "{:after$}", "")?;
        }
    }
    out.push('\n')
}

const NAMES: [&str; 7] = ["Mon", "Tue", "Wed", "Thu", "Fri", "Sat", "Sun"];

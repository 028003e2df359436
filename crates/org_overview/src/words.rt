//! What a page calls days, weeks, months and files.

use org_cal::{Day, Period, day_name, push_date};
use org_client::{full_day_name, month_name, short_month};
use std::alloc::{AllocError, Global};

/// A date, `YYYY-MM-DD`.
pub(crate) fn date_of(alloc: Global, day: Day) -> Result<String, AllocError> {
    let mut date = String::new(alloc);
    push_date(&mut date, day)?;
    Ok(date)
}

/// A day above its rows: `Thursday, 29 February`.
pub(crate) fn day_words(alloc: Global, day: Day) -> Result<String, AllocError> {
    let (_, month, of_month) = day.parts();
    let (name, month) = (full_day_name(day), month_name(month));
    format!(in alloc; "{name}, {of_month} {month}")
}

/// The day of a page with its year.
pub(crate) fn whole_day_words(alloc: Global, day: Day) -> Result<String, AllocError> {
    let (year, month, of_month) = day.parts();
    let (name, month) = (full_day_name(day), month_name(month));
    format!(in alloc; "{name}, {of_month} {month} {year}")
}

/// When something is due: `Thu 29 Feb`, with its year where that is another.
pub(crate) fn due_words(alloc: Global, day: Day, today: Day) -> Result<String, AllocError> {
    let (year, month, of_month) = day.parts();
    let (this_year, _, _) = today.parts();
    let mut words = String::new(alloc);
    write!(words, "{} {of_month} {}", day_name(day), short_month(month))?;
    if year != this_year {
        write!(words, " {year}")?;
    }
    Ok(words)
}

/// A day of a chart: `Thu 29 February`.
pub(crate) fn chart_day_words(alloc: Global, day: Day) -> Result<String, AllocError> {
    let (_, month, of_month) = day.parts();
    let (name, month) = (day_name(day), month_name(month));
    format!(in alloc; "{name} {of_month} {month}")
}

/// The number of a day of a month, with the month where it is the first.
pub(crate) fn cell_words(alloc: Global, day: Day) -> Result<String, AllocError> {
    let (_, month, of_month) = day.parts();
    let mut words = format!(in alloc; "{of_month}")?;
    if of_month == 1 {
        write!(words, " {}", short_month(month))?;
    }
    Ok(words)
}

/// The label of a week below a chart: `W09, 26 Feb`.
pub(crate) fn week_label(alloc: Global, monday: Day) -> Result<String, AllocError> {
    let (_, month, of_month) = monday.parts();
    let (_, week) = monday.iso_week();
    let month = short_month(month);
    format!(in alloc; "W{week:02}, {of_month} {month}")
}

/// The name of a week in a table: `Week 9, 26 Feb`.
pub(crate) fn week_name(alloc: Global, monday: Day) -> Result<String, AllocError> {
    let (_, month, of_month) = monday.parts();
    let (_, week) = monday.iso_week();
    let month = short_month(month);
    format!(in alloc; "Week {week}, {of_month} {month}")
}

/// The name of a month with its year.
pub(crate) fn month_words(alloc: Global, day: Day) -> Result<String, AllocError> {
    let (year, month, _) = day.parts();
    let month = month_name(month);
    format!(in alloc; "{month} {year}")
}

/// The first and the last of some days; what they share of month and year stands once.
pub(crate) fn span_words(alloc: Global, days: &Period) -> Result<String, AllocError> {
    let (year, month, first) = days.first.parts();
    let (last_year, last_month, last) = days.last.parts();
    let mut words = format!(in alloc; "{first}")?;
    if month != last_month || year != last_year {
        write!(words, " {}", month_name(month))?;
    }
    if year != last_year {
        write!(words, " {year}")?;
    }
    write!(words, " to {last} {} {last_year}", month_name(last_month))?;
    Ok(words)
}

/// Appends the name of a file without its folder.
pub(crate) fn push_name(out: &mut String, path: &str) -> Result<(), AllocError> {
    out.push_str(own_name(path))
}

/// The name of a file without its folder and without `.org`.
pub(crate) fn short_name(alloc: Global, path: &str) -> Result<String, AllocError> {
    let name = own_name(path);
    String::from_str(alloc, name.strip_suffix(".org").unwrap_or(name))
}

// The name of a file without its folder.
fn own_name(path: &str) -> &str {
    match path.rsplit_once('/') {
        Some((_, name)) => name,
        None => path,
    }
}

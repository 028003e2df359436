//! The groups that rows stand in.

use crate::details::titles_above;
use org_base::{Fault, Texts};
use org_cal::{Day, push_date};
use org_drawer::Planning;
use org_inherit::{Heading, Inherits};
use org_layout::ShownRow;
use std::alloc::{AllocError, Global};

/// What rows are put into groups by.
#[derive(Clone, Copy, Debug, PartialEq, Eq)]
pub enum GroupBy {
    /// The name of the file.
    File,
    /// The titles of the headings above.
    Path,
    /// Each tag, own and inherited.
    Tag,
    /// The category.
    Category,
    /// The keyword.
    Keyword,
    /// The priority of the cookie.
    Priority,
    /// The row's day; in a list the earlier one of SCHEDULED and DEADLINE, and all that are past together.
    Day,
}

impl GroupBy {
    /// The kind of a name.
    pub fn of_name(name: &str) -> Option<GroupBy> {
        match name {
            "file" => Some(GroupBy::File),
            "path" => Some(GroupBy::Path),
            "tag" => Some(GroupBy::Tag),
            "category" => Some(GroupBy::Category),
            "keyword" => Some(GroupBy::Keyword),
            "priority" => Some(GroupBy::Priority),
            "day" => Some(GroupBy::Day),
            _ => None,
        }
    }

    /// What a plain answer calls the group of rows that are in none.
    pub fn without(self) -> &'static str {
        match self {
            GroupBy::File => "(no file)",
            GroupBy::Path => "(top)",
            GroupBy::Tag => "(no tag)",
            GroupBy::Category => "(no category)",
            GroupBy::Keyword => "(no keyword)",
            GroupBy::Priority => "(no priority)",
            GroupBy::Day => "(no date)",
        }
    }
}

/// The names of the groups that a row stands in, on a day that is today; none where it is in none.
pub fn group_names(
    alloc: Global,
    inherits: &Inherits<'_>,
    shown: &ShownRow,
    by: GroupBy,
    today: Day,
) -> Result<Texts, Fault> {
    match Heading::find(inherits, shown.row.file, shown.row.heading) {
        Some(heading) => names_of(alloc, &heading, shown.day, by, today),
        None => Ok(Texts::new(alloc)),
    }
}

fn names_of(
    alloc: Global,
    heading: &Heading<'_, '_>,
    day: Option<Day>,
    by: GroupBy,
    today: Day,
) -> Result<Texts, Fault> {
    match by {
        GroupBy::Tag => heading.tags(),
        GroupBy::Path => path_name(alloc, heading),
        GroupBy::Day => day_name(alloc, day_of(heading, day), day.is_some(), today),
        GroupBy::Priority => priority_name(alloc, heading.priority()),
        GroupBy::File => one_name(alloc, Some(heading.inherit.file())),
        GroupBy::Category => one_name(alloc, Some(heading.category())),
        GroupBy::Keyword => one_name(alloc, heading.keyword()),
    }
}

// A name, if there is one.
fn one_name(alloc: Global, name: Option<&[u8]>) -> Result<Texts, Fault> {
    let mut names = Texts::new(alloc);
    if let Some(name) = name {
        names.push(name)?;
    }
    Ok(names)
}

// A priority as Org has it in a cookie, without the brackets.
fn priority_name(alloc: Global, priority: Option<&[u8]>) -> Result<Texts, Fault> {
    let Some(priority) = priority else {
        return Ok(Texts::new(alloc));
    };
    let mut name = Vec::from_slice(alloc, b"#")?;
    name.extend_from_slice(priority)?;
    one_name(alloc, Some(name.as_slice()))
}

// The titles above a heading with slashes between them.
fn path_name(alloc: Global, heading: &Heading<'_, '_>) -> Result<Texts, Fault> {
    let titles = titles_above(alloc, heading.inherit.outline(), heading.place)?;
    if titles.count() == 0 {
        return Ok(titles);
    }
    let name = path_of(alloc, &titles)?;
    one_name(alloc, Some(name.as_slice()))
}

fn path_of(alloc: Global, titles: &Texts) -> Result<Vec<u8>, AllocError> {
    let mut name = Vec::new(alloc);
    for place in 0..titles.count() {
        if place > 0 {
            name.push(b'/')?;
        }
        name.extend_from_slice(titles.get(place))?;
    }
    Ok(name)
}

// The day of a row, or the earlier one of a heading's SCHEDULED and DEADLINE.
fn day_of(heading: &Heading<'_, '_>, day: Option<Day>) -> Option<Day> {
    match day {
        Some(day) => Some(day),
        None => planned_day(&heading.entry.planning()),
    }
}

fn planned_day(planning: &Option<Planning>) -> Option<Day> {
    let Some(planning) = planning else {
        return None;
    };
    match (planning.scheduled, planning.deadline) {
        (Some((scheduled, _)), Some((deadline, _))) => Some(earlier(scheduled.day, deadline.day)),
        (Some((scheduled, _)), None) => Some(scheduled.day),
        (None, Some((deadline, _))) => Some(deadline.day),
        (None, None) => None,
    }
}

fn earlier(one: Day, other: Day) -> Day {
    if other.number() < one.number() {
        other
    } else {
        one
    }
}

// A date; of a list a day before today is late.
fn day_name(alloc: Global, day: Option<Day>, is_own: bool, today: Day) -> Result<Texts, Fault> {
    let Some(day) = day else {
        return Ok(Texts::new(alloc));
    };
    if !is_own && day.number() < today.number() {
        return one_name(alloc, Some(b"late"));
    }
    let mut name = String::new(alloc);
    push_date(&mut name, day)?;
    one_name(alloc, Some(name.as_bytes()))
}

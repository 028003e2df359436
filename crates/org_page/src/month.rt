//! The month.
ghost use Rattle.std.specs.Prelude.{◌∷◌, []};
ghost use Rattle.org_page.specs.Days.{cell_titles, cells_titles, week_titles, weeks_titles};
ghost use Rattle.org_page.specs.Drafts.{AddsTitles, KeepsTitles};
ghost use Rattle.org_page.specs.Rows.{row_title};

use crate::bars::{Bars, LAST_COLUMN, bars_of};
use crate::day::{Month, MonthDay, Week};
use crate::draft::Lent::{Number, Open, Pair, Tag, Text, With};
use crate::draft::{Draft, Given, Value, with};
use crate::heading::{put_sign, put_start, put_title};
use crate::row::{Row, color_class};
use crate::rows::{Form, put_listed};
use std::alloc::AllocError;

/// Puts a month as a table, a row for each week.
pub(crate) fn put_month(draft: &mut Draft, month: &Month) -> Result<(), AllocError>
    ensures titles { AddsTitles result draft.old draft.new (weeks_titles month.now.weeks.items) }
{
    put_month_begin(draft, month.title.as_str())?;
    put_day_names(draft)?;
    put_weeks(draft, month.weeks.as_slice())?;
    draft.put(&[Tag("/tbody"), Tag("/table"), Tag("/div"), Tag("/section")])
}

fn put_month_begin(draft: &mut Draft, title: &str) -> Result<(), AllocError>
    ensures titles { KeepsTitles result draft.old draft.new }
{
    draft.put(&[
        Tag("section"),
        With("h2", "id", "month"),
        Text(title),
        Tag("/h2"),
        Open("div", &SCROLL),
        With("table", "class", "month"),
        With("caption", "class", "hidden"),
        Text(title),
        Text(", a row for each week"),
        Tag("/caption"),
        Tag("colgroup"),
        With("col", "class", "week"),
        With("col", "span", "7"),
        Tag("/colgroup"),
        Tag("thead"),
        Tag("tr"),
        With("th", "scope", "col"),
        With("span", "class", "hidden"),
        Text("Week"),
        Tag("/span"),
        Tag("/th"),
    ])
}

// The attributes of the part of a page in which a month that is too wide scrolls.
static SCROLL: [Given<'static>; 4] = [
    Given {
        name: "class",
        value: Value::Plain("scroll"),
    },
    Given {
        name: "role",
        value: Value::Plain("region"),
    },
    Given {
        name: "aria-labelledby",
        value: Value::Plain("month"),
    },
    Given {
        name: "tabindex",
        value: Value::Plain("0"),
    },
];

const NAMES: [&str; 7] = [
    "Monday",
    "Tuesday",
    "Wednesday",
    "Thursday",
    "Friday",
    "Saturday",
    "Sunday",
];

fn put_day_names(draft: &mut Draft) -> Result<(), AllocError>
    ensures titles { KeepsTitles result draft.old draft.new }
{
    for name in &NAMES {
        put_day_name(draft, name)?;
    }
    draft.put(&[Tag("/tr"), Tag("/thead"), Tag("tbody")])
}

fn put_day_name(draft: &mut Draft, name: &str) -> Result<(), AllocError>
    ensures titles { KeepsTitles result draft.old draft.new }
{
    draft.put(&[
        With("th", "scope", "col"),
        With("abbr", "title", name),
        Text(name.get(..3).unwrap_or(name)),
        Tag("/abbr"),
        Tag("/th"),
    ])
}

fn put_weeks(draft: &mut Draft, weeks: &[Week]) -> Result<(), AllocError>
    ensures titles { AddsTitles result draft.old draft.new (weeks_titles weeks.now) }
{
    for week in weeks {
        put_week(draft, week)?;
    }
    Ok(())
}

fn put_week(draft: &mut Draft, week: &Week) -> Result<(), AllocError>
    ensures titles { AddsTitles result draft.old draft.new (week_titles week.now) }
{
    draft.put(&[
        Tag("tr"),
        With("th", "scope", "row"),
        With("span", "class", "hidden"),
        Text("Week "),
        Tag("/span"),
        Number(u64::from(week.number)),
        Tag("/th"),
    ])?;
    let bars = bars_of(draft.alloc(), week.days.as_slice())?;
    put_cells(draft, week.days.as_slice(), &bars)?;
    draft.put(&[Tag("/tr")])
}

fn put_cells(draft: &mut Draft, days: &[MonthDay], bars: &Bars) -> Result<(), AllocError>
    ensures titles { AddsTitles result draft.old draft.new (cells_titles days.now) }
{
    let mut column = 0;
    for day in days {
        put_cell(draft, day, bars, column)?;
        column = column.saturating_add(1).min(LAST_COLUMN);
    }
    Ok(())
}

fn put_cell(draft: &mut Draft, day: &MonthDay, bars: &Bars, column: usize) -> Result<(), AllocError>
    ensures titles { AddsTitles result draft.old draft.new (cell_titles day.now) }
{
    put_cell_begin(draft, day)?;
    put_date(draft, day)?;
    put_listed(
        draft,
        With("ul", "class", "bars"),
        day.ranges.as_slice(),
        Form::Range(bars, column),
    )?;
    put_listed(draft, Tag("ul"), day.rows.as_slice(), Form::Month)?;
    draft.put(&[Tag("/td")])
}

fn put_date(draft: &mut Draft, day: &MonthDay) -> Result<(), AllocError>
    ensures titles { KeepsTitles result draft.old draft.new }
{
    draft.put(&[
        With("time", "datetime", day.date.as_str()),
        Text(day.number.as_str()),
        Tag("/time"),
    ])
}

fn put_cell_begin(draft: &mut Draft, day: &MonthDay) -> Result<(), AllocError>
    ensures titles { KeepsTitles result draft.old draft.new }
{
    let weekend = if day.is_weekend { "weekend " } else { "" };
    let other = if day.is_other { "other " } else { "" };
    let name = if day.is_today { "today" } else { "day" };
    let class = format!(in draft.alloc(); "{weekend}{other}{name}")?;
    if day.is_today {
        return draft.put(&[Pair(
            "td",
            with("class", class.as_str()),
            with("aria-current", "date"),
        )]);
    }
    draft.put(&[With("td", "class", class.as_str())])
}

/// Puts a row of a day of a month.
pub(crate) fn put_row(draft: &mut Draft, row: &Row) -> Result<(), AllocError>
    ensures titles { AddsTitles result draft.old draft.new (row_title row.now ∷ []) }
{
    draft.put(&[With("li", "class", color_class(row.color))])?;
    put_start(draft, row)?;
    put_sign(draft, row)?;
    put_title(draft, row)?;
    draft.put(&[Tag("/li")])
}

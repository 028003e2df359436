//! The days that come.
ghost use Rattle.std.specs.Prelude.{◌∷◌, []};
ghost use Rattle.std.specs.List.{flat_map};
ghost use Rattle.org_page.specs.Days.{day_titles, days_titles};
ghost use Rattle.org_page.specs.Drafts.{AddsTitles, KeepsTitles};
ghost use Rattle.org_page.specs.Rows.{row_title, rows_titles};

use crate::day::Day;
use crate::draft::Draft;
use crate::draft::Lent::{Number, Tag, Text, With};
use crate::heading::{put_heading, put_sign, put_start};
use crate::row::{Row, Stand, color_class};
use crate::rows::{Form, put_listed};
use std::alloc::AllocError;

/// Puts the days that come, each with its rows.
pub(crate) fn put_coming(draft: &mut Draft, days: &[Day]) -> Result<(), AllocError>
    ensures titles { AddsTitles result draft.old draft.new (days_titles days.now) }
{
    put_coming_head(draft, days.len())?;
    put_days(draft, days)?;
    draft.put(&[Tag("/div"), Tag("/section")])
}

fn put_coming_head(draft: &mut Draft, count: usize) -> Result<(), AllocError>
    ensures titles { KeepsTitles result draft.old draft.new }
{
    draft.put(&[Tag("section"), With("h2", "id", "coming")])?;
    put_count(draft, count)?;
    draft.put(&[Tag("/h2"), With("div", "class", "days")])
}

fn put_count(draft: &mut Draft, count: usize) -> Result<(), AllocError>
    ensures titles { KeepsTitles result draft.old draft.new }
{
    if count == 1 {
        return draft.put(&[Text("The next day")]);
    }
    draft.put(&[Text("The next "), Number(count as u64), Text(" days")])
}

fn put_days(draft: &mut Draft, days: &[Day]) -> Result<(), AllocError>
    ensures titles { AddsTitles result draft.old draft.new (days_titles days.now) }
{
    for day in days {
        put_day(draft, day)?;
    }
    Ok(())
}

fn put_day(draft: &mut Draft, day: &Day) -> Result<(), AllocError>
    ensures titles { AddsTitles result draft.old draft.new (day_titles day.now) }
{
    put_day_begin(draft, day)?;
    put_day_rows(draft, day.rows.as_slice())?;
    draft.put(&[Tag("/section")])
}

fn put_day_begin(draft: &mut Draft, day: &Day) -> Result<(), AllocError>
    ensures titles { KeepsTitles result draft.old draft.new }
{
    draft.put(&[
        Tag("section"),
        Tag("h3"),
        With("time", "datetime", day.date.as_str()),
        Text(day.name.as_str()),
        Tag("/time"),
        Tag("/h3"),
    ])
}

fn put_day_rows(draft: &mut Draft, rows: &[Row]) -> Result<(), AllocError>
    ensures titles { AddsTitles result draft.old draft.new (rows_titles rows.now) }
{
    if rows.is_empty() {
        return draft.put(&[Tag("p"), Text("nothing"), Tag("/p")]);
    }
    put_listed(draft, Tag("ul"), rows, Form::Coming)
}

/// Puts a row of a day that comes.
pub(crate) fn put_row(draft: &mut Draft, row: &Row) -> Result<(), AllocError>
    ensures titles { AddsTitles result draft.old draft.new (row_title row.now ∷ []) }
{
    draft.put(&[With("li", "class", color_class(row.color))])?;
    put_front(draft, row)?;
    draft.put(&[Tag("span")])?;
    put_heading(draft, row)?;
    draft.put(&[Tag("/span"), Tag("/li")])
}

// Puts what stands in front of a row, with a space behind it: its day of a range, its time, or its sign.
fn put_front(draft: &mut Draft, row: &Row) -> Result<(), AllocError>
    ensures titles { KeepsTitles result draft.old draft.new }
{
    if let Stand::Range(day, of) = row.stand {
        return put_day_of(draft, day, of);
    }
    if row.time.is_some() {
        return put_start(draft, row);
    }
    draft.put(&[Tag("span")])?;
    put_sign(draft, row)?;
    draft.put(&[Tag("/span"), Text(" ")])
}

/// Puts which day of a range it is, and of how many, with a space behind it.
pub(crate) fn put_day_of(draft: &mut Draft, day: u32, of: u32) -> Result<(), AllocError>
    ensures titles { KeepsTitles result draft.old draft.new }
{
    draft.put(&[
        With("span", "class", "sign"),
        With("span", "class", "hidden"),
        Text("day "),
        Tag("/span"),
        Number(u64::from(day)),
        Text("/"),
        Number(u64::from(of)),
        Tag("/span"),
        Text(" "),
    ])
}

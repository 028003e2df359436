//! Clocks: a chart, its numbers by weeks, and sums by headings.
ghost use Rattle.std.specs.Prelude.{[]};
ghost use Rattle.org_page.specs.Clocked.{of_titles, one_title, sum_titles, sums_titles};
ghost use Rattle.org_page.specs.Drafts.{AddsTitles, KeepsTitles};

use crate::chart::{Chart, ChartFile, ChartWeek, days_sum, file_sum, file_total, total};
use crate::draft::Lent::{Duration, Number, Pair, Tag, Text, With};
use crate::draft::{Draft, with, with_property};
use crate::list::NUMBER_HEAD;
use crate::plot::put_plot;
use crate::row::{class_of, color_class};
use std::alloc::AllocError;

/// Puts a chart with its numbers.
pub(crate) fn put_clocked(draft: &mut Draft, chart: &Chart) -> Result<(), AllocError>
    ensures titles { KeepsTitles result draft.old draft.new }
{
    put_chart_head(draft, chart)?;
    put_plot(draft, chart)?;
    put_legend(draft, chart)?;
    put_numbers(draft, chart)
}

fn put_chart_head(draft: &mut Draft, chart: &Chart) -> Result<(), AllocError>
    ensures titles { KeepsTitles result draft.old draft.new }
{
    draft.put(&[
        With("h2", "id", "clock"),
        Text("Clocked"),
        Tag("/h2"),
        With("div", "class", "clock"),
        Tag("h3"),
        Text(chart.span.as_str()),
        Text(": "),
        Duration(total(chart.weeks.as_slice())),
        Text(" hours"),
        Tag("/h3"),
        Tag("figure"),
    ])
}

fn put_legend(draft: &mut Draft, chart: &Chart) -> Result<(), AllocError>
    ensures titles { KeepsTitles result draft.old draft.new }
{
    draft.put(&[Tag("figcaption"), With("ul", "class", "legend")])?;
    put_legend_items(draft, chart)?;
    draft.put(&[Tag("/ul"), Tag("/figcaption"), Tag("/figure")])
}

fn put_legend_items(draft: &mut Draft, chart: &Chart) -> Result<(), AllocError>
    ensures titles { KeepsTitles result draft.old draft.new }
{
    for (place, file) in chart.files.iter().enumerate() {
        let minutes = file_total(chart.weeks.as_slice(), place);
        put_legend_item(draft, file, minutes)?;
    }
    Ok(())
}

fn put_legend_item(draft: &mut Draft, file: &ChartFile, minutes: u64) -> Result<(), AllocError>
    ensures titles { KeepsTitles result draft.old draft.new }
{
    draft.put(&[
        With("li", "class", color_class(file.color)),
        Text(file.name.as_str()),
        Text(" "),
        Duration(minutes),
        Tag("/li"),
    ])
}

// Puts the numbers of a chart by weeks.
fn put_numbers(draft: &mut Draft, chart: &Chart) -> Result<(), AllocError>
    ensures titles { KeepsTitles result draft.old draft.new }
{
    put_numbers_head(draft, chart.files.as_slice())?;
    put_weeks(draft, chart)?;
    draft.put(&[Tag("/tbody"), Tag("/table"), Tag("/details"), Tag("/div")])
}

fn put_numbers_head(draft: &mut Draft, files: &[ChartFile]) -> Result<(), AllocError>
    ensures titles { KeepsTitles result draft.old draft.new }
{
    draft.put(&[
        Tag("details"),
        Tag("summary"),
        Text("The numbers by week"),
        Tag("/summary"),
        With("table", "class", "list"),
        Tag("thead"),
        Tag("tr"),
        With("th", "scope", "col"),
        Text("Week"),
        Tag("/th"),
    ])?;
    put_file_heads(draft, files)?;
    draft.put(&[
        NUMBER_HEAD,
        Text("All"),
        Tag("/th"),
        Tag("/tr"),
        Tag("/thead"),
        Tag("tbody"),
    ])
}

fn put_file_heads(draft: &mut Draft, files: &[ChartFile]) -> Result<(), AllocError>
    ensures titles { KeepsTitles result draft.old draft.new }
{
    for file in files {
        draft.put(&[NUMBER_HEAD, Text(file.name.as_str()), Tag("/th")])?;
    }
    Ok(())
}

fn put_weeks(draft: &mut Draft, chart: &Chart) -> Result<(), AllocError>
    ensures titles { KeepsTitles result draft.old draft.new }
{
    for week in &chart.weeks {
        put_week(draft, week, chart.files.len())?;
    }
    Ok(())
}

fn put_week(draft: &mut Draft, week: &ChartWeek, files: usize) -> Result<(), AllocError>
    ensures titles { KeepsTitles result draft.old draft.new }
{
    put_week_name(draft, week.name.as_str())?;
    put_week_sums(draft, week, files)?;
    draft.put(&[
        With("td", "class", "number"),
        Duration(days_sum(week.days.as_slice())),
        Tag("/td"),
        Tag("/tr"),
    ])
}

fn put_week_name(draft: &mut Draft, name: &str) -> Result<(), AllocError>
    ensures titles { KeepsTitles result draft.old draft.new }
{
    draft.put(&[
        Tag("tr"),
        With("th", "scope", "row"),
        Text(name),
        Tag("/th"),
    ])
}

fn put_week_sums(draft: &mut Draft, week: &ChartWeek, files: usize) -> Result<(), AllocError>
    ensures titles { KeepsTitles result draft.old draft.new }
{
    for file in 0..files {
        draft.put(&[
            With("td", "class", "number"),
            Duration(file_sum(week.days.as_slice(), file)),
            Tag("/td"),
        ])?;
    }
    Ok(())
}

/// What a sum is of: all files, a file by its name, or a heading by its title, its link and its level.
#[derive(Debug, Drop)]
pub enum SumOf {
    All,
    File(String),
    Heading(String, String, u32),
}

/// A sum: of what, its minutes, its part of the total in hundredths, and the number of its file's color.
#[derive(Debug, Drop)]
pub struct Sum {
    pub of: SumOf,
    pub minutes: u64,
    pub part: u32,
    pub color: usize,
}

/// Sums by headings: their name, and they.
#[derive(Debug, Drop)]
pub struct Sums {
    pub title: String,
    pub rows: Vec<Sum>,
}

/// Puts sums as a table with bars.
pub(crate) fn put_sums(draft: &mut Draft, sums: &Sums) -> Result<(), AllocError>
    ensures titles { AddsTitles result draft.old draft.new (sums_titles sums.now.rows.items) }
{
    put_sums_head(draft, sums.title.as_str())?;
    put_sum_rows(draft, sums.rows.as_slice())?;
    draft.put(&[Tag("/tbody"), Tag("/table")])
}

fn put_sums_head(draft: &mut Draft, title: &str) -> Result<(), AllocError>
    ensures titles { KeepsTitles result draft.old draft.new }
{
    draft.put(&[
        With("h3", "class", "sums"),
        Text(title),
        Tag("/h3"),
        With("table", "class", "list sums"),
        Tag("thead"),
        Tag("tr"),
        NUMBER_HEAD,
        Text("Hours"),
        Tag("/th"),
        NUMBER_HEAD,
        Text("Part"),
        Tag("/th"),
        With("th", "scope", "col"),
        Text("Heading"),
        Tag("/th"),
        With("th", "scope", "col"),
        Text("Bar"),
        Tag("/th"),
        Tag("/tr"),
        Tag("/thead"),
        Tag("tbody"),
    ])
}

fn put_sum_rows(draft: &mut Draft, rows: &[Sum]) -> Result<(), AllocError>
    ensures titles { AddsTitles result draft.old draft.new (sums_titles rows.now) }
{
    for row in rows {
        put_sum_row(draft, row)?;
    }
    Ok(())
}

fn put_sum_row(draft: &mut Draft, row: &Sum) -> Result<(), AllocError>
    ensures titles { AddsTitles result draft.old draft.new (sum_titles row.now) }
{
    put_sum_begin(draft, row)?;
    put_sum_name(draft, &row.of)?;
    put_part_bar(draft, row)
}

// Puts the cells of a sum's minutes and of its part of the total in hundredths, and begins its name.
fn put_sum_begin(draft: &mut Draft, row: &Sum) -> Result<(), AllocError>
    ensures titles { KeepsTitles result draft.old draft.new }
{
    let class = match &row.of {
        SumOf::All => "total",
        SumOf::File(_) => class_of(&FILES, row.color),
        SumOf::Heading(..) => class_of(&HEADINGS, row.color),
    };
    draft.put(&[
        With("tr", "class", class),
        With("td", "class", "number"),
        Duration(row.minutes),
        Tag("/td"),
        With("td", "class", "number"),
        Number(u64::from(row.part)),
        Text(" %"),
        Tag("/td"),
        With("td", "class", "name"),
    ])
}

// The classes of the files' colors in rows of files, and in rows of headings.
const FILES: [&str; 6] = [
    "file c0", "file c1", "file c2", "file c3", "file c4", "file c5",
];

const HEADINGS: [&str; 6] = [
    "heading c0",
    "heading c1",
    "heading c2",
    "heading c3",
    "heading c4",
    "heading c5",
];

fn put_sum_name(draft: &mut Draft, of: &SumOf) -> Result<(), AllocError>
    ensures titles { AddsTitles result draft.old draft.new (of_titles of.now) }
{
    match of {
        SumOf::All => put_plain_name(draft, "All files"),
        SumOf::File(name) => put_plain_name(draft, name.as_str()),
        SumOf::Heading(words, link, level) => put_sum_title(draft, words, link, *level),
    }
}

fn put_plain_name(draft: &mut Draft, name: &str) -> Result<(), AllocError>
    ensures titles { AddsTitles result draft.old draft.new [] }
{
    draft.put(&[Text(name)])
}

// Puts the title of a heading, a wide space before it for each level.
fn put_sum_title(
    draft: &mut Draft,
    words: &String,
    link: &String,
    level: u32,
) -> Result<(), AllocError>
    ensures titles { AddsTitles result draft.old draft.new (one_title words.now link.now) }
{
    put_spaces(draft, level)?;
    draft.title(words.as_str(), link.as_str(), false)
}

fn put_spaces(draft: &mut Draft, level: u32) -> Result<(), AllocError>
    ensures titles { KeepsTitles result draft.old draft.new }
{
    let spaces = "\u{2003}".repeat(draft.alloc(), level.min(99) as usize)?;
    draft.put(&[Text(spaces.as_str())])
}

// Ends the name of a sum, and puts the bar of its part of the total.
fn put_part_bar(draft: &mut Draft, row: &Sum) -> Result<(), AllocError>
    ensures titles { KeepsTitles result draft.old draft.new }
{
    let class = if row.minutes > 0 { "some" } else { "none" };
    draft.put(&[
        Tag("/td"),
        With("td", "class", "bar"),
        Pair(
            "span",
            with("class", class),
            with_property("--part", u64::from(row.part)),
        ),
        Tag("/span"),
        Tag("/td"),
        Tag("/tr"),
    ])
}

//! A page.
ghost use Rattle.std.specs.Prelude.{IfOk, string_bytes};
ghost use Rattle.org_page.specs.Drafts.{AddsTitles, KeepsTitles};
ghost use Rattle.org_page.specs.Whole.{IsPageOf, here_titles, page_titles};
ghost use Rattle.org_page.specs.Clocked.{sums_titles};

use crate::chart::Chart;
use crate::clocked::{Sums, put_clocked, put_sums};
use crate::coming::put_coming;
use crate::day::{Day, Month, Today};
use crate::draft::Draft;
use crate::draft::Lent::{Duration, Number, Tag, Text, With};
use crate::head::{put_end, put_head};
use crate::list::{List, put_list};
use crate::month::put_month;
use crate::row::Row;
use crate::task::{TaskGroup, put_tasks};
use crate::today::put_today;
use crate::written::page_text;
use std::alloc::{AllocError, Global};

/// What a page shows: the day in words, its week, its rows, what is late and what is due soon, the days that come, the month,
/// what was clocked by days and by headings, and today, open tasks by keywords, and of how many files at which moment.
#[derive(Debug, Drop)]
pub struct Page {
    pub title: String,
    pub week: u32,
    pub today: Today,
    pub late: Vec<Row>,
    pub soon: Vec<Row>,
    pub days: Vec<Day>,
    pub month: Month,
    pub chart: Chart,
    pub sums: Sums,
    pub clocked: u64,
    pub groups: Vec<TaskGroup>,
    pub footer: String,
}

/// The text of a page: one file of HTML that fetches nothing and runs nothing.
pub fn html(alloc: Global, page: &Page) -> Result<String, AllocError>
    ensures titles { IfOk result (λ text. IsPageOf (string_bytes text) page.now) }
{
    let mut draft = Draft::new(alloc);
    put_page(&mut draft, page)?;
    let text = page_text(alloc, draft.pieces.as_slice())?;
    Ok(text)
}

fn put_page(draft: &mut Draft, page: &Page) -> Result<(), AllocError>
    ensures titles { AddsTitles result draft.old draft.new (page_titles page.now) }
{
    put_head(draft, page)?;
    put_counts(draft, page)?;
    put_day(draft, page)?;
    put_coming(draft, page.days.as_slice())?;
    put_month(draft, &page.month)?;
    put_clocks(draft, page)?;
    put_tasks(draft, page.groups.as_slice())?;
    put_end(draft, page.footer.as_str())
}

// Puts today with what is late and due soon beside it.
fn put_day(draft: &mut Draft, page: &Page) -> Result<(), AllocError>
    ensures titles { AddsTitles result draft.old draft.new (here_titles page.now) }
{
    draft.put(&[With("div", "class", "columns")])?;
    put_today(draft, &page.today)?;
    draft.put(&[Tag("div")])?;
    put_list(draft, page.late.as_slice(), List::Late)?;
    put_list(draft, page.soon.as_slice(), List::Soon)?;
    draft.put(&[Tag("/div"), Tag("/div")])
}

fn put_clocks(draft: &mut Draft, page: &Page) -> Result<(), AllocError>
    ensures titles { AddsTitles result draft.old draft.new (sums_titles page.now.sums.rows.items) }
{
    draft.put(&[Tag("section")])?;
    put_clocked(draft, &page.chart)?;
    put_sums(draft, &page.sums)?;
    draft.put(&[Tag("/section")])
}

// Puts what stands on the page, in numbers.
fn put_counts(draft: &mut Draft, page: &Page) -> Result<(), AllocError>
    ensures titles { KeepsTitles result draft.old draft.new }
{
    draft.put(&[
        With("ul", "class", "counts"),
        With("li", "class", "day"),
        Tag("b"),
        Number(today_count(&page.today)),
        Tag("/b"),
        Text(" today"),
        Tag("/li"),
        With("li", "class", "late"),
        Tag("b"),
        Number(page.late.len() as u64),
        Tag("/b"),
        Text(" late"),
        Tag("/li"),
        With("li", "class", "soon"),
        Tag("b"),
        Number(page.soon.len() as u64),
        Tag("/b"),
        Text(" due soon"),
        Tag("/li"),
        With("li", "class", "open"),
        Tag("b"),
        Number(task_count(page.groups.as_slice())),
        Tag("/b"),
        Text(" open tasks"),
        Tag("/li"),
        With("li", "class", "clocked"),
        Tag("b"),
        Duration(page.clocked),
        Tag("/b"),
        Text(" clocked today"),
        Tag("/li"),
        Tag("/ul"),
    ])
}

fn today_count(today: &Today) -> u64 {
    let whole = today.whole.len();
    whole
        .saturating_add(today.boxes.len())
        .saturating_add(today.beside.len()) as u64
}

fn task_count(groups: &[TaskGroup]) -> u64 {
    let mut count: u64 = 0;
    for group in groups {
        count = count.saturating_add(group.tasks.len() as u64);
    }
    count
}

//! Open tasks by their keywords.
ghost use Rattle.std.specs.Prelude.{◌∷◌, []};
ghost use Rattle.org_page.specs.Drafts.{AddsTitles, KeepsTitles};
ghost use Rattle.org_page.specs.Rows.{row_title};
ghost use Rattle.org_page.specs.Tasks.{groups_titles, tasks_titles};

use crate::draft::Draft;
use crate::draft::Lent::{Number, Tag, Text, With};
use crate::heading::{put_tags, put_title};
use crate::list::put_row_end;
use crate::row::Row;
use std::alloc::AllocError;

/// When a task is due: the date, that in words, and whether it is past.
#[derive(Debug, Drop)]
pub struct Due {
    pub date: String,
    pub name: String,
    pub is_late: bool,
}

/// An open task, and when it is due.
#[derive(Debug, Drop)]
pub struct Task {
    pub row: Row,
    pub due: Option<Due>,
}

/// The open tasks of a keyword.
#[derive(Debug, Drop)]
pub struct TaskGroup {
    pub keyword: String,
    pub tasks: Vec<Task>,
}

/// Puts open tasks, a table for each keyword.
pub(crate) fn put_tasks(draft: &mut Draft, groups: &[TaskGroup]) -> Result<(), AllocError>
    ensures titles { AddsTitles result draft.old draft.new (groups_titles groups.now) }
{
    draft.put(&[
        Tag("section"),
        With("h2", "id", "open"),
        Text("Open tasks"),
        Tag("/h2"),
    ])?;
    put_groups(draft, groups)?;
    draft.put(&[Tag("/section")])
}

fn put_groups(draft: &mut Draft, groups: &[TaskGroup]) -> Result<(), AllocError>
    ensures titles { AddsTitles result draft.old draft.new (groups_titles groups.now) }
{
    for group in groups {
        put_group(draft, group)?;
    }
    Ok(())
}

fn put_group(draft: &mut Draft, group: &TaskGroup) -> Result<(), AllocError>
    ensures titles { AddsTitles result draft.old draft.new (tasks_titles group.now.tasks.items) }
{
    put_group_begin(draft, group.keyword.as_str(), group.tasks.len())?;
    put_rows(draft, group.tasks.as_slice())?;
    draft.put(&[Tag("/tbody"), Tag("/table")])
}

fn put_group_begin(draft: &mut Draft, keyword: &str, count: usize) -> Result<(), AllocError>
    ensures titles { KeepsTitles result draft.old draft.new }
{
    draft.put(&[
        With("table", "class", "list"),
        Tag("caption"),
        Tag("b"),
        Text(keyword),
        Tag("/b"),
        Text(", "),
        Number(count as u64),
        Tag("/caption"),
        Tag("thead"),
        Tag("tr"),
        With("th", "scope", "col"),
        Text("Priority"),
        Tag("/th"),
        With("th", "scope", "col"),
        Text("Task"),
        Tag("/th"),
        With("th", "scope", "col"),
        Text("Due"),
        Tag("/th"),
        With("th", "scope", "col"),
        Text("Where"),
        Tag("/th"),
        Tag("/tr"),
        Tag("/thead"),
        Tag("tbody"),
    ])
}

fn put_rows(draft: &mut Draft, tasks: &[Task]) -> Result<(), AllocError>
    ensures titles { AddsTitles result draft.old draft.new (tasks_titles tasks.now) }
{
    for task in tasks {
        put_task(draft, task)?;
    }
    Ok(())
}

fn put_task(draft: &mut Draft, task: &Task) -> Result<(), AllocError>
    ensures titles { AddsTitles result draft.old draft.new (row_title task.now.row ∷ []) }
{
    put_task_title(draft, &task.row)?;
    put_due(draft, &task.due)?;
    put_row_end(draft, &task.row)
}

fn put_task_title(draft: &mut Draft, row: &Row) -> Result<(), AllocError>
    ensures titles { AddsTitles result draft.old draft.new (row_title row.now ∷ []) }
{
    draft.put(&[
        Tag("tr"),
        Tag("td"),
        Text(row.priority.as_str()),
        Tag("/td"),
        Tag("td"),
    ])?;
    put_title(draft, row)?;
    put_tags(draft, row)
}

// Ends the cell of a title, and begins that of its date with it.
fn put_due(draft: &mut Draft, due: &Option<Due>) -> Result<(), AllocError>
    ensures titles { KeepsTitles result draft.old draft.new }
{
    match due {
        Some(due) => {
            let class = if due.is_late { "where late" } else { "where" };
            draft.put(&[
                Tag("/td"),
                With("td", "class", class),
                With("time", "datetime", due.date.as_str()),
                Text(due.name.as_str()),
                Tag("/time"),
            ])
        }
        None => draft.put(&[Tag("/td"), Tag("td")]),
    }
}

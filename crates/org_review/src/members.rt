//! What is said of a heading, member by member and field by field.

use crate::facts::Fact;
use crate::habit_rows::HabitFacts;
use crate::project::Project;
use crate::texts::{block_word, date_text};
use org_cal::Day;
use org_client::{Members, OneLine};
use std::alloc::{AllocError, Global};

/// Puts what is said of a heading.
pub(crate) fn put_fact(to: &mut Members<'_>, fact: &Fact<'_>) -> Result<(), AllocError> {
    match fact {
        Fact::Project(project) => put_project(to, project),
        Fact::Habit(habit) => put_habit(to, habit),
    }
}

fn put_project(to: &mut Members<'_>, project: &Project) -> Result<(), AllocError> {
    to.number("open_below", project.open as u64)?;
    to.number("done_below", project.done as u64)?;
    to.number("next_below", project.next as u64)?;
    to.date("next_date", project.first)?;
    to.number("effort_left", project.effort)?;
    to.number("clocked", project.clocked)?;
    to.flag("stuck", project.is_stuck)?;
    match project.block {
        Some(block) => to.text("blocked", block_word(block).as_bytes()),
        None => Ok(()),
    }
}

fn put_habit(to: &mut Members<'_>, habit: &HabitFacts) -> Result<(), AllocError> {
    to.text("repeater", habit.repeater.as_bytes())?;
    to.date("next_date", habit.scheduled)?;
    to.date("last_done", habit.last_done)?;
    to.text("graph", habit.graph.as_bytes())
}

/// Appends what is said of a heading as fields between commas.
pub(crate) fn push_fields(
    alloc: Global,
    line: &mut OneLine,
    fact: &Fact<'_>,
) -> Result<(), AllocError> {
    match fact {
        Fact::Project(project) => push_project(alloc, line, project),
        Fact::Habit(habit) => push_habit(alloc, line, habit),
    }
}

fn push_project(alloc: Global, line: &mut OneLine, project: &Project) -> Result<(), AllocError> {
    push_number(line, project.open as u64)?;
    push_number(line, project.done as u64)?;
    push_number(line, project.next as u64)?;
    push_day(alloc, line, project.first)?;
    push_number(line, project.effort)?;
    push_number(line, project.clocked)?;
    push_text(line, if project.is_stuck { "stuck" } else { "" })?;
    match project.block {
        Some(block) => push_text(line, block_word(block)),
        None => push_text(line, ""),
    }
}

fn push_habit(alloc: Global, line: &mut OneLine, habit: &HabitFacts) -> Result<(), AllocError> {
    push_text(line, habit.repeater.as_str())?;
    push_day(alloc, line, habit.scheduled)?;
    push_day(alloc, line, habit.last_done)?;
    push_text(line, habit.graph.as_str())
}

fn push_number(line: &mut OneLine, number: u64) -> Result<(), AllocError> {
    line.push(b',')?;
    line.push_number(number)
}

fn push_day(alloc: Global, line: &mut OneLine, day: Option<Day>) -> Result<(), AllocError> {
    let date = date_text(alloc, day)?;
    push_text(line, date.as_str())
}

fn push_text(line: &mut OneLine, text: &str) -> Result<(), AllocError> {
    line.push(b',')?;
    line.field(text.as_bytes())
}

//! What stands in front of a heading's title.

use crate::facts::Fact;
use crate::habit_rows::HabitFacts;
use crate::paint::{Role, end_of, escape_of, push_column, push_room};
use crate::project::Project;
use org_base::Fault;
use org_cal::{Day, push_date, push_two};
use org_day::Background;
use org_project::Block;
use std::alloc::{AllocError, Global};

/// On which day it is said, and on what background letters have colours, if they have any.
#[derive(Clone, Copy, Debug)]
pub struct Shades {
    pub today: Day,
    pub background: Option<Background>,
}

/// What is said of a heading, in columns.
pub(crate) fn fact_text(alloc: Global, fact: &Fact<'_>, shades: &Shades) -> Result<String, Fault> {
    match fact {
        Fact::Project(project) => project_text(alloc, project, shades),
        Fact::Habit(habit) => habit_text(alloc, habit, shades),
    }
}

// How many tasks are done of all; how many are next, or what is wrong; the first day; and what is left and spent.
fn project_text(alloc: Global, project: &Project, shades: &Shades) -> Result<String, Fault> {
    let mut text = String::new(alloc);
    push_counts(alloc, &mut text, project)?;
    push_stand(alloc, &mut text, project, shades)?;
    push_day(
        alloc,
        &mut text,
        project.first,
        day_role(project.first, shades.today),
        shades,
    )?;
    push_minutes(&mut text, project.effort)?;
    push_minutes(&mut text, project.clocked)?;
    Ok(text)
}

fn push_counts(alloc: Global, text: &mut String, project: &Project) -> Result<(), Fault> {
    let (done, all) = (project.done, project.done.saturating_add(project.open));
    let counts = format!(in alloc; "[{done}/{all}]")?;
    push_column(text, counts.as_str(), 9, None, None)
}

// Appends why a task is blocked, that a project is stuck, or how many of its tasks are next.
fn push_stand(
    alloc: Global,
    text: &mut String,
    project: &Project,
    shades: &Shades,
) -> Result<(), Fault> {
    if let Some(word) = wrong_of(project) {
        return push_column(text, word, 9, Some(Role::Due), shades.background);
    }
    let next = next_text(alloc, project.next)?;
    push_column(text, next.as_str(), 9, None, None)
}

// Why a task is blocked, or that a project is stuck.
fn wrong_of(project: &Project) -> Option<&'static str> {
    match project.block {
        Some(block) => Some(block_word(block)),
        None if project.is_stuck => Some("stuck"),
        None => None,
    }
}

fn next_text(alloc: Global, next: usize) -> Result<String, AllocError> {
    match next {
        0 => Ok(String::new(alloc)),
        next => format!(in alloc; "{next} next"),
    }
}

// What a day is that is late, or is today or one of the next two.
fn day_role(day: Option<Day>, today: Day) -> Option<Role> {
    let ahead = i64::from(day?.number()) - i64::from(today.number());
    if ahead < 0 {
        Some(Role::Late)
    } else if ahead <= 2 {
        Some(Role::Due)
    } else {
        None
    }
}

/// What a reason is called for which a task is blocked.
pub(crate) fn block_word(block: Block) -> &'static str {
    match block {
        Block::Below => "below",
        Block::Before => "before",
    }
}

/// A day as a date; empty where there is none.
pub(crate) fn date_text(alloc: Global, day: Option<Day>) -> Result<String, AllocError> {
    let mut text = String::new(alloc);
    if let Some(day) = day {
        push_date(&mut text, day)?;
    }
    Ok(text)
}

fn push_day(
    alloc: Global,
    text: &mut String,
    day: Option<Day>,
    role: Option<Role>,
    shades: &Shades,
) -> Result<(), Fault> {
    let date = date_text(alloc, day)?;
    push_column(text, date.as_str(), 11, role, shades.background)
}

// Appends minutes as hours, a colon and two digits, in a column; nothing but blanks where there are none.
fn push_minutes(text: &mut String, minutes: u64) -> Result<(), AllocError> {
    if minutes == 0 {
        return text.push_str("        ");
    }
    let hours = minutes / 60;
    write!(text, "{hours:>4}:")?;
    push_two(text, (minutes % 60) as u8)?;
    text.push_str(" ")
}

// The graph of a habit, its repeater, and the day for which it is planned.
fn habit_text(alloc: Global, habit: &HabitFacts, shades: &Shades) -> Result<String, Fault> {
    let mut text = String::new(alloc);
    push_signs(&mut text, habit.graph.as_str(), shades.background)?;
    push_room(&mut text, habit.graph.as_str(), 36)?;
    push_column(&mut text, habit.repeater.as_str(), 9, None, None)?;
    push_day(
        alloc,
        &mut text,
        habit.scheduled,
        habit_role(habit, shades.today),
        shades,
    )?;
    Ok(text)
}

// What the day is for which a habit is planned.
fn habit_role(habit: &HabitFacts, today: Day) -> Option<Role> {
    if habit.graph.as_str().chars().any(is_late_today) {
        return Some(Role::Late);
    }
    if habit.scheduled?.number() <= today.number() {
        Some(Role::Due)
    } else {
        None
    }
}

fn is_late_today(sign: char) -> bool {
    matches!(sign, '×' | 'x')
}

// Appends the signs of a graph; what stands in place of one has none of them.
fn push_signs(
    text: &mut String,
    graph: &str,
    background: Option<Background>,
) -> Result<(), AllocError> {
    if background.is_none() || !graph.chars().any(is_today) {
        return text.push_str(graph);
    }
    let mut before = ' ';
    for sign in graph.chars() {
        push_sign(text, sign, sign_role(sign, is_today(before)), background)?;
        before = sign;
    }
    Ok(())
}

// Whether a sign stands before today.
fn is_today(sign: char) -> bool {
    matches!(sign, '│' | '|')
}

fn sign_role(sign: char, is_of_today: bool) -> Option<Role> {
    match sign {
        '●' | '*' => Some(Role::Done),
        '╌' | '.' | '×' | 'x' => Some(Role::Late),
        '○' | 'o' if is_of_today => Some(Role::Due),
        _ => None,
    }
}

fn push_sign(
    text: &mut String,
    sign: char,
    role: Option<Role>,
    background: Option<Background>,
) -> Result<(), AllocError> {
    let escape = escape_of(role, background);
    text.push_str(escape)?;
    text.push(sign)?;
    text.push_str(end_of(escape))
}

//! What rows say beside what their headings say.

use crate::habit_rows::{HabitFacts, Habits};
use crate::project::Project;
use crate::project_rows::Projects;

/// What is said of headings: as projects, or as habits.
#[derive(Clone, Copy, Debug)]
pub enum Facts<'a> {
    Projects(&'a Projects),
    Habits(&'a Habits),
}

/// What is said of one heading.
#[derive(Clone, Copy, Debug)]
pub(crate) enum Fact<'a> {
    Project(Project),
    Habit(&'a HabitFacts),
}

impl<'a> Facts<'a> {
    /// What is said of the heading at a place of a file.
    pub(crate) fn get(&self, file: usize, heading: usize) -> Option<Fact<'a>> {
        match self {
            Facts::Projects(projects) => Some(Fact::Project(projects.get(file, heading)?)),
            Facts::Habits(habits) => Some(Fact::Habit(habits.get(file, heading)?)),
        }
    }

    /// The kind of the rows.
    pub(crate) fn kind(&self) -> &'static str {
        match self {
            Facts::Projects(_) => "project",
            Facts::Habits(_) => "habit",
        }
    }
}

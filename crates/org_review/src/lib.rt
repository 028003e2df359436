//! Projects and habits of files that were read: which headings they are, and the bytes of their rows.
//!
//! A row is that of its heading in a list, with what is said of the heading as a project or as a habit: in front of its title, and as
//! members and fields of its own. So rows are chosen, put in order and in groups as those of all lists are.
//! Whatever stands in a file, no control character of it is printed where a terminal reads.
//!
//! Every call that allocates may be refused memory. Where it names no other refusal, that is its only one.
//!
//! ```
//! let projects = projects_of(alloc, of.inherits, choice)?;
//! let rows = projects.rows.clone()?;
//! let lines = picked_lines(alloc, of.inherits, rows, picked)?;
//! ```
//!
//! Lines of `orgq_answers/src/review.rt`. Tests: cases `tests/orgq/projects-*` and `tests/orgq/habits-*`.
#![tactic(auto)]

mod bytes;
mod facts;
mod file_tasks;
mod habit_graph;
mod habit_rows;
mod members;
mod paint;
mod project;
mod project_rows;
mod row_line;
mod row_text;
mod rows;
mod texts;

pub use bytes::{ReviewLook, review_bytes};
pub use facts::Facts;
pub use habit_rows::{HabitFacts, Habits, habits_of};
pub use project::Project;
pub use project_rows::{ProjectChoice, Projects, Which, projects_of};
pub use rows::{Picked, picked_lines};
pub use texts::Shades;

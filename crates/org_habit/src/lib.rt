//! Habits, and the graph of how consistently they were kept.
//!
//! Every call that allocates may be refused memory, and that is its only refusal.
//!
//! A habit is what a stamp under SCHEDULED says by its repeater: how many days after it was done it is to be done again, and how many
//! days after that at the latest. Its graph has for each day whether it was done, and how urgent it was by what was done before.
//!
//! ```
//! let drawn = graph(alloc, habit, done, &days)?;
//! push_graph(&mut facts.graph, drawn.as_slice(), &days, look.is_ascii)
//! ```
//!
//! Lines of `org_review/src/habit_rows.rt`. Tests: cases `tests/orgq/habits-*`, beside Emacs `tests/habits.sh`.
#![tactic(auto)]

mod drawing;
mod habit;
pub mod laws;
mod urgency;

pub use drawing::{GraphDay, GraphDays, graph};
pub use habit::{Habit, NoHabit};
pub use urgency::Urgency;

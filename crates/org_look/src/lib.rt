//! Pictures of days in a terminal: a month or a week as a grid with bars over its days, or as a list.
//!
//! Every call that allocates may be refused memory, and that is its only refusal.
//!
//! It knows rows by their labels and by how they stand on their day, and asks for nothing else. A `Strip` is a text with
//! its width by `unicode_width`; lines are strips beside one another with borders between, so that nothing that a label
//! holds moves what stands beside it.
//!
//! ```
//! match Grid::within(self.calendar.canvas.columns, self.calendar.canvas.signs) {
//!     Some(grid) => self.push_grid(alloc, out, weeks, &grid),
//!     None => self.push_list(alloc, out, weeks),
//! }
//! // ..
//! planned.push(Week::of(alloc, number, week.days.as_slice(), &plan)?)?;
//! // ..
//! for line in &grid_lines(alloc, planned.as_slice(), grid)? {
//!     out.push_strip(line)?;
//!     out.text.push('\n')?;
//! }
//! ```
//!
//! Lines of `org_answer/src/picture.rt`. Tests: cases `tests/orgq/calendar-*`.
#![tactic(auto)]

mod bar;
mod cell;
mod day;
mod entry;
mod fill;
mod grid;
mod hours;
mod lanes;
pub mod laws;
mod line;
mod narrow;
mod overlap;
mod plan;
mod rule;
mod sheet;
mod sign;
mod span;
mod strip;
mod week;
mod wrap;

pub use cell::{Cell, Content, Note, Shape, is_narrow};
pub use day::GridDay;
pub use entry::{Entry, Share, Stand, own_labels};
pub use fill::{cut, fill_text};
pub use grid::grid_lines;
pub use hours::{DayLook, Timed, push_hours};
pub use lanes::lanes_of;
pub use line::join_strips;
pub use narrow::{Narrow, push_listed_day, push_small_week};
pub use overlap::half_hours;
pub use plan::{Plan, notes_of};
pub use sheet::{Sheet, Stain, Tone};
pub use sign::{Sign, Signs};
pub use span::{Bar, Span};
pub use strip::Strip;
pub use week::{Grid, LEAST_CELL, Week};

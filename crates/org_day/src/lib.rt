//! A day in sections, as a terminal shows it: what lasts all day, what has a time, what is due, late, planned and due soon, and
//! habits, in lines of a known width whose parts have roles.
//!
//! Every call that allocates may be refused memory, and that is its only refusal.
//!
//! It knows rows by how they stand on the day and by their words, and asks for nothing else. Of the rows of one heading the
//! first is a line and the others are its note; what has a time is always a line. All rows are sorted once, by section, by the
//! order in it, by their line and by their places, so each stands in exactly one line. A line takes what it shows by
//! `Draft::push` alone, which lets no control character through, and is measured when it is done.
//!
//! ```
//! let lines = day_lines(alloc, &values, &head, &canvas.look)?;
//! paint_lines(alloc, lines.as_slice(), canvas.background)?
//! ```
//!
//! Lines of `org_answer/src/day.rt`. Tests: cases `tests/orgq/day-*`.
#![tactic(auto)]

mod clock;
mod columns;
mod cut;
mod draft;
mod fit;
pub mod laws;
mod lead;
mod line;
mod note;
mod order;
mod page;
mod paint;
mod placed;
mod role;
mod row_line;
mod section;
mod shown;
mod sign;
mod stand;
mod when;
mod words;

pub use line::{Line, Span};
pub use page::{DayHead, DayLook, day_lines};
pub use paint::{Background, paint_lines};
pub use placed::{Placed, placed_rows};
pub use role::Role;
pub use section::{Section, section_of};
pub use shown::push_shown;
pub use sign::Signs;
pub use stand::{Hours, Kind, Stand};
pub use words::{DayRows, KeywordKind, Words};

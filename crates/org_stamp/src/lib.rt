//! Timestamps: the grammar of Org's stamps and ranges, read from lines and printed.
//!
//! What is read is a stamp of the grammar, and the longest at its place; a line's iterator misses none. What the
//! grammar gives is printed and read again as it was. The pairs of planning lines and the stamps of clock lines are
//! read here too. Only `print_stamp` takes memory. The bounds on numbers are a predicate beside the types (`CanPrint`),
//! which the readers promise.
//!
//! ```
//! match read_stamp(text.as_bytes(), 0) {
//!     Some((stamp, _)) => Ok(print_stamp(alloc, &stamp)?.as_str() == want),
//!     None => Ok(false),
//! }
//! // ..
//! for stamp in stamps_in(line) {
//!     push_place(&mut found, alloc, stamp.at, stamp.len)?;
//! }
//! ```
//!
//! Lines of `org_tests/src/stamps.rt`. Tests: `org_tests/src/stamps.rt`.
#![tactic(auto)]

mod inner;
pub mod laws;
mod line;
mod mark;
mod pair;
mod planning;
mod print;
mod read;
mod stamp;
mod word;

pub use line::{LineStamps, next_close, stamp_at, stamps_in};
pub use mark::{Delay, Repeater, RepeaterKind};
pub use pair::{Pair, PlanningKeyword};
pub use planning::{clock_stamp, is_clock, is_planning, next_pair, planning_word};
pub use print::print_stamp;
pub use read::{first_close, read_single, read_stamp};
pub use stamp::{Found, Stamp};
pub use word::leading_spaces;

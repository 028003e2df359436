//! Clock tables: what their options ask for, and their rows.
//!
//! Every call that allocates may be refused memory. Where it names no other refusal, that is its only one.
//!
//! Options are read first, as places in their text, then the block by the moment's day, then the expression. What
//! doesn't depend on the step is worked out once for each file: the efforts, and a list of the clocks of the headings
//! that count. A step goes over that list once, keeps the clocks with minutes in its days as a sum that rises from
//! place to place, and then goes from the last heading with minutes up to the one before it. So it costs the list and
//! the headings that have a line, with those above them.
//!
//! ```
//! let files = counted_files(alloc, inherits, spec.expression(), &moment)?;
//! // ..
//! for period in period.steps(spec.step()) {
//!     let rows = step_rows(alloc, &period, spec.most(), files)?;
//! ```
//!
//! Lines of `org_answer/src/table.rt`. Tests: streams `tests/rows/clock-*`.
#![tactic(auto)]

mod counted;
pub mod laws;
mod options;
mod request;
mod row;
mod rows;
mod running_sums;
mod spec;

pub use counted::{CountedFile, counted_files};
pub use row::{Of, TableRow};
pub use rows::step_rows;
pub use spec::TableSpec;

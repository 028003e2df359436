//! What the lines under headings log: when a heading was closed, when its keyword changed, and when it was clocked.
//!
//! Every call that allocates may be refused memory. Where it names no other refusal, that is its only one.
//!
//! A line logs at most one thing, by its class: the planning line its `CLOSED`, a clock line its clock, any other line of text a
//! change of the keyword, where it is an item as Org writes one into a drawer. So one pass over a section finds all, and a row
//! names the first byte of its line.
//!
//! ```
//! let log_file = LogFile {
//! // ..
//! push_log(alloc, rows, text, &log_file)
//! ```
//!
//! Lines of `org_client/src/logged.rt`. Tests: cases `tests/orgq/log-*`, beside Emacs `tests/log.sh`.
#![tactic(auto)]

mod entry;
pub mod laws;
mod line;
mod order;
mod row;
mod section;
mod state;
mod text;

pub use entry::{LogEntry, LogEvent, StateChange};
pub use order::by_time;
pub use row::{LogFile, LogQuery, LogRow};
pub use text::push_log;

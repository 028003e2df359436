//! What Org logs where a heading gets another keyword or another date: what a file asks for, and what is written in the section.
//!
//! A file asks by `#+STARTUP:` words, by marks of its keywords and by the properties `LOGGING` and `LOG_INTO_DRAWER`; where it
//! says nothing, what a person set counts. Every call that allocates may be refused memory, and that is its only refusal.
//!
//! ```
//! let len = section_end(own.as_bytes());
//! let section = logged_section(alloc, own.get(..len).unwrap_or(""), moment, entry)?;
//! ```
//!
//! Lines of `org_act/src/trace.rt`. Tests: its laws and examples, `org_log/src/laws.rt`; beside Emacs `tests/acts.sh`.
#![tactic(auto)]

mod asked;
mod decision;
mod entry;
mod heading;
mod how;
pub mod laws;
mod layout;
mod local;
mod marks;
mod note;
mod place;
mod rules;
mod section;
mod startup;
mod taken_note;
mod words;

pub use asked::{DateChange, DateLog, KeywordChange, KeywordLog, date_log, keyword_log};
pub use entry::{LogEntry, LogLine, Repeats};
pub use how::How;
pub use layout::without_closed;
pub use note::{is_drawer_name, is_note};
pub use rules::{DrawerChoice, LogRules, LogSettings};
pub use section::logged_section;
pub use taken_note::{NoteLog, note_log, removal_log};

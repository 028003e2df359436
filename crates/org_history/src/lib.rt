//! What acts changed in a file, kept so that it can be taken back: the text that the last act left, and the changes before it.
//!
//! It is one run of bytes: the file's path, the text that the newest change left, and the changes, the newest first. Each older
//! change left the text that the newer one was made in, so one text is enough for all. What was written is read back: the readers
//! are proved to find what the writers wrote.
//!
//! ```
//! let changes = settled_changes(alloc, &history, text.as_bytes())?.unwrap_or(history.changes);
//! match change_at(changes) {
//!     Some((newest, _)) => Ok(Made::At(newest.order)),
//!     None => Ok(Made::Never),
//! }
//! ```
//!
//! Lines of `orgq_undo/src/newest.rt`. Tests: `tests/undo.sh`.
#![tactic(auto)]

mod change;
mod history;
pub mod laws;
mod number;
mod piece;
mod settled;

pub use change::{KeptChange, change_at, change_bytes, newest_changes, text_after, text_before};
pub use history::{History, history_at, history_bytes, history_with};
pub use settled::settled_changes;

//! Texts as they are shown to a person, in a string of JSON, and in a field between commas: without control characters and
//! without marks that turn or hide what stands beside them.
//!
//! Every call that allocates may be refused memory, and that is its only refusal.
//!
//! Text comes as bytes of UTF-8, which are looked at one by one; the front of a character that may not be shown as it is waits
//! for the bytes behind it. Control characters, U+202A to U+202E, U+2066 to U+2069 and U+E0000 to U+E007F are told in one place.
//!
//! ```
//! return push_visible(out, text.as_bytes(), Escape::Caret);
//! ```
//!
//! Lines of `org_answer/src/show.rt`. Tests: cases `tests/orgq/control-*` and `tests/orgq/mark-*`.
#![tactic(auto)]

mod front;
pub mod laws;
mod visible;

pub use front::is_mark;
pub use visible::{Escape, push_visible};

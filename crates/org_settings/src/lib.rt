//! What the setting lines of a file say: its keywords, tags, category, properties and default priority; and what a
//! priority is.
//!
//! Every call that allocates may be refused memory. Where it names no other refusal, that is its only one.
//!
//! The lines are taken as they are given; which lines of a text are setting lines is `org_class`'s. Keywords are found
//! by order and not by hash, since whoever writes a file could make hashes collide; up to eight are compared one by
//! one.
//!
//! ```
//! let mut texts = Texts::new(alloc);
//! push_lines(&mut texts, lines)?;
//! Settings::of_lines(alloc, &texts)
//! // ..
//! match settings.keyword_place(word) {
//!     None => Ok(String::from_str(alloc, "none")?),
//!     Some(place) => {
//!         let state = if settings.is_done(place) {
//! ```
//!
//! Lines of `org_tests/src/file_settings.rt`. Tests: `org_tests/src/file_settings.rt`.
#![tactic(auto)]

mod draft;
mod keywords;
pub mod laws;
mod pieces;
mod priority;
mod property;
mod sequence;
mod setting_line;
mod settings;

pub use priority::{is_priority, priority_number};
pub use settings::Settings;

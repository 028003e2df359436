//! Acts of `orgq` on a person's files: the heading is found, changed in the text that was read, and the file is replaced whole.
//!
//! An act that is refused leaves its file as it was; its sentence and its status say why. Behind status 0 the file has the text
//! that the act makes.
//!
//! ```
//! if let Some(status) = act(rt, matches, options.moment, is_seen)? {
//!     return Ok(status);
//! }
//! ```
//!
//! Lines of `orgq/src/session.rt`. Tests: `tests/orgq.sh`, `tests/saves.sh`.
#![tactic(auto)]

mod acts;
mod all_matches;
mod amending;
mod clock_act;
mod found;
mod heading;
mod headings;
mod one_match;
mod refusals;
mod running;
mod several;
mod switching;
mod text_ids;
mod told;
mod told_parts;

pub use acts::act;

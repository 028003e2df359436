//! The lines of a part of a text, lent where they lie in one piece.
//!
//! Every call that allocates may be refused memory. Where it names no other refusal, that is its only one.
//!
//! The items of `Lines` are the lines of the span, in order. It asks the text for a run once and takes line after line
//! from it, and asks for the next run only where that one ends.
//!
//! ```
//! let mut shown = Vec::new(alloc);
//! for line in Lines::new(alloc, text, part) {
//!     push_line(&mut shown, &line?)?;
//! }
//! Ok(shown)
//! ```
//!
//! Lines of `org_tests/src/texts.rt`. Tests: `org_tests/src/texts.rt`.
#![tactic(auto)]

mod lines;

pub use lines::{Line, Lines, lend, line_starts};

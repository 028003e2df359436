//! A heading of a file completed: the one change of the file's text that it is.
//!
//! The section that begins with the heading is read, if it is still to be read, and nothing else. A completion is one
//! change from the first byte that it replaces to the last, and what is between is put in again: of two changes the
//! first alone may be over the limit where both together aren't.
//!
//! ```
//! let file = &mut self.files[place];
//! complete(alloc, meter, file, line, keyword, self.moment)
//! ```
//!
//! Lines of `org_engine/src/world.rt`. Tests: streams `tests/rows/complete-*`.
#![tactic(auto)]

mod completion;
pub mod laws;
mod plan;

pub use completion::complete;

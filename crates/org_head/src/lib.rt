//! The parts of a heading line: stars, keyword, priority, `COMMENT`, title, tags.
//!
//! The parts that are read are those of which the line is the spelling, in a file with these settings. Equal tags are
//! found by comparing as long as there are at most eight, then by an ordered set: whoever writes a line could make
//! hashes collide.
//!
//! ```
//! let head = read_head(alloc, line, settings)?;
//! Ok(head.priority_number(line, settings))
//! // ..
//! head.tags.count() == 2
//!     && head.tags.get(1) == Some(Span { at: 7, len: 1 })
//!     && head.tags.get(2).is_none()
//! ```
//!
//! Lines of `org_tests/src/heads.rt`. Tests: `org_tests/src/heads.rt`.
#![tactic(auto)]

mod cookie;
mod head;
pub mod laws;
mod parts;
mod read;
mod spans;

pub use head::Head;
pub use read::read_head;
pub use spans::{Spans, part};

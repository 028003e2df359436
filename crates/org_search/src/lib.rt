//! What is looked for in the lines of a section: words without regard to case, patterns, and what mustn't be there.
//!
//! Every call that allocates may be refused memory. Where it names no other refusal, that is its only one.
//!
//! A typed word is a word; between slashes it is a pattern, and behind a minus it mustn't be there. A line holds a word where
//! some place of the line begins with it, both with their case folded as Unicode does it in full; a section holds what one
//! of its lines holds. So no word spans lines. `Scan` looks at a section once for each word, and no further than it has to.
//!
//! ```
//! let mut scan = Scan::new(alloc, sought.search)?;
//! let found = found_lines(alloc, file_set, &inherits, &mut scan, sought)?;
//! ```
//!
//! Lines of `orgq_answers/src/search.rt`. Tests: cases `tests/orgq/search-*`.
#![tactic(auto)]

mod fold;
pub mod laws;
mod line;
mod refusal;
mod scan;
mod search;
mod typed;

pub use line::bare_line;
pub use refusal::{MOST_WORDS, Refusal, refusal_of};
pub use scan::Scan;
pub use search::Search;

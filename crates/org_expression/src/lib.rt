//! Match expressions as they are written: the tree that a text spells, and what its numbers and times stand for.
//!
//! Every call that allocates may be refused memory. Where it names no other refusal, that is its only one.
//!
//! A text is read as the one expression of the grammar that it spells, or refused with how far it goes. What an
//! expression says of a heading is `org_match`'s. The grammar comes before patterns, so a text with both faults is
//! refused for its grammar.
//!
//! ```
//! pub fn read(alloc: Global, text: &str) -> Result<Match, Fault>
//! // ..
//! let written = Expression::read(alloc, text)?;
//! build_match(alloc, &written)
//! ```
//!
//! Lines of `org_match/src/read.rt`. Tests: streams `tests/rows/match-*`.
#![tactic(auto)]

mod decimal;
mod draft;
pub mod laws;
mod read;
mod scan;
mod shape;
mod state;
mod step;
mod term_text;
mod times;
mod tree;

pub use decimal::{number, number_at};
pub use term_text::TermText;
pub use times::{front_minute, is_time, named_minute};
pub use tree::{Expression, Item, Kind, Link, Op, Sign, Term, Value};

//! The entries of a text with parents, ancestors and subtree ends.
//!
//! Every call that allocates may be refused memory. Where it names no other refusal, that is its only one.
//!
//! An outline is seen as the list of its entries. The parent of a heading is the nearest earlier heading of a smaller
//! level, and its subtree ends before the first later heading that isn't below it. Parents are made in one pass that
//! jumps along what it holds already, so no heading is searched for; subtree ends are made where they are asked for.
//!
//! ```
//! let mut entries = Entries::with_room(alloc, 1)?;
//! entries.push(section_entry(alloc)?)?;
//! Ok(entries)
//! // ..
//! let mut outline = Outline::of(alloc, one_entry(alloc)?)?;
//! shares(alloc, &mut outline)
//! ```
//!
//! Lines of `org_measure/src/outline_calls.rt`. Tests: `org_measure/src/outline_calls.rt`, streams `tests/rows/tags-*`.
#![tactic(auto)]

mod ancestors;
mod body;
mod entries;
pub mod laws;
mod levels;
mod outline;

pub use ancestors::Ancestors;
pub use entries::Entries;
pub use outline::{Outline, Refused};

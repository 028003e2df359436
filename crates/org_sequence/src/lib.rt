//! A persistent balanced sequence of measured items.
//!
//! Every call that allocates may be refused memory. Where it names no other refusal, that is its only one.
//!
//! It is seen as the list of its items' values. An item has a size, may count lines, may be pending, and may bear a flag;
//! sums of these are kept, so the item at a place and the first item with a sign are found in as many steps as the
//! logarithm of their number. One tree serves pieces of a text and sections of a file, and knows neither.
//!
//! Leaves hold up to 32 items: with 16 the first pending item is set sooner and iterating is slower, with 64 the other
//! way round. Above them the tree is balanced by height, at most about twice the logarithm high. Every edit is a cut
//! and two joins along one path. Nodes never change, so what is shared stays as it was, and a refused edit has nothing
//! to undo. No item is empty and none counts more lines than it is long, so one bound covers every sum.
//!
//! ```
//! if from > to || to > sequence.len() || sequence.size().checked_add(more).is_none() {
//!     return Ok(false);
//! }
//! sequence.replace(from, to, items)?;
//! // ..
//! for item in sequence {
//!     if rest.next() != Some(&item.0) {
//! ```
//!
//! Lines of `org_tests/src/sequence.rt`. Tests: `org_tests/src/sequence.rt`.
#![tactic(auto)]

mod items;
mod join;
mod leaf;
mod measured;
mod replace;
mod search;
mod sequence;
mod sums;
mod tree;

pub use items::Items;
pub use measured::Measured;
pub use sequence::Sequence;

//! Rows in an order of one's own, and in groups, by plain values that are made once for each row.
//!
//! Every call that allocates may be refused memory, and that is its only refusal.
//!
//! What a row has for each key is a [`Rank`]: rows whose first ranks are equal stand by the
//! second, and so on, and those whose ranks are all equal stand as they stood. What has nothing for a key stands behind all that
//! has something, whichever way the key goes. A row may stand in several groups; groups stand in the order in which they came, and
//! what is in none stands last.
//!
//! ```
//! let mut ranked = ranked_rows(alloc, inherits, rows, arrangement)?;
//! put_in_order(&mut ranked)?;
//! push_rows(out, ranked.as_slice())
//! ```
//!
//! Lines of `org_answer/src/arranging.rt`. Tests: cases `tests/orgq/sort-*` and `tests/orgq/group-*`.
#![tactic(auto)]

mod groups;
pub mod laws;
mod rank;
mod ranked;

pub use groups::{GroupPlace, GroupedRow, Groups};
pub use rank::{KeyValue, Rank};
pub use ranked::{RankedRow, put_in_order};

//! Short ids of headings: what a heading is named by, the sum of that, and the words that stand for a sum.
//!
//! A heading is named by its file and the titles on the way to it, so that its id stays where keywords, dates, clocks and tags change
//! and lines move. Where several headings of a file have one name, the text of each section is put in too. A short id is the
//! beginning of the sum, as long as the number of headings wants it. It knows headings by plain values.
//!
//! Every call that allocates may be refused memory, and that is its only refusal.
//!
//! ```
//! let beside = beside_stamps(alloc, title)?;
//! names.push(head.level, beside.as_slice(), id)
//! ```
//!
//! Lines of `org_client/src/heading_names.rt`. Tests: cases `tests/orgq/id*`.
#![tactic(auto)]

mod counts;
pub mod laws;
mod letters;
mod names;
mod sums;
mod words;

pub use counts::NameCounts;
pub use letters::{MOST_LETTERS, id_length, is_id, push_id, stands_for};
pub use names::Names;
pub use sums::{has_text, push_summed, sum_of};

//! Sums of clocks and efforts over the subtrees of an outline.
//!
//! Every call that allocates may be refused memory. Where it names no other refusal, that is its only one.
//!
//! A sum is what the headings of a subtree count, each once, of those that are asked for. A heading's sum is the
//! difference of two sums from the start of its file, so a file's sums take one pass. No sum overflows: a clock line
//! takes at least eighteen bytes and an effort ten, so the sums of one text stay below 2^55.
//!
//! ```
//! let clocks = clocks_of(alloc, outline, counted.as_slice())?;
//! let efforts = effort_sums(alloc, outline, counted.as_slice())?;
//! let effort = whole_sum(&Measure::Efforts, outline, counted.as_slice());
//! ```
//!
//! Lines of `org_clocktable/src/counted.rt`. Tests: streams `tests/rows/clock-*`.
#![tactic(auto)]

pub mod laws;
mod measure;
mod sums;

pub use measure::Measure;
pub use sums::{clock_sums, effort_sums, whole_sum};

//! What stands before the stamps of planning lines.

use crate::stamp::Stamp;

/// A keyword of a planning line (Org Syntax, "Planning").
#[derive(Clone, Copy, Debug, PartialEq, Eq)]
pub enum PlanningKeyword {
    /// `SCHEDULED:`
    Scheduled,
    /// `DEADLINE:`
    Deadline,
    /// `CLOSED:`
    Closed,
}

/// A keyword of a planning line with its stamp. Places and lengths are in bytes, from the line's first.
#[derive(Clone, Copy, Debug, PartialEq, Eq)]
pub struct Pair {
    pub word: PlanningKeyword,
    /// The stamp; of a range the first one alone.
    pub stamp: Stamp,
    /// Where the stamp begins.
    pub at: usize,
    /// How long it is; of a range the first one alone.
    pub len: usize,
    /// Where the pair ends; of a range where its second stamp does.
    pub end: usize,
}

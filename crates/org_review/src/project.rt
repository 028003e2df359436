//! What is said of a heading as a project.

use org_cal::Day;
use org_project::Block;

/// What is said of a heading as a project: how many of the headings below it are open, done and next; the first day for which it or
/// an open heading below it is planned or due; the minutes of effort that are left of them, and all that were clocked; whether it is
/// stuck; and why it is blocked, if it is.
#[derive(Clone, Copy, Debug, PartialEq, Eq)]
pub struct Project {
    pub open: usize,
    pub done: usize,
    pub next: usize,
    pub first: Option<Day>,
    pub effort: u64,
    pub clocked: u64,
    pub is_stuck: bool,
    pub block: Option<Block>,
}

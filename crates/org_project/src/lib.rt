//! Projects of a file: how many tasks are below headings, which of them are stuck, and which tasks are blocked.
//!
//! Every call that allocates may be refused memory, and that is its only refusal.
//!
//! What entries are is told by a list with a flag for each. Each call passes over the outline once: what is below a heading is the
//! difference of two counts from the start, and what an entry takes from its parent was found before, since parents stand earlier.
//!
//! ```
//! let counted = flags(alloc, inherit, flag)?;
//! tasks_below(alloc, inherit.outline(), counted.as_slice())
//! ```
//!
//! Lines of `org_review/src/file_tasks.rt`. Tests: cases `tests/orgq/projects-*`, beside Emacs `tests/projects.sh`.
#![tactic(auto)]

mod below;
mod blocked;
mod entry_flags;
pub mod laws;
mod outermost;

pub use below::{stuck, tasks_below};
pub use blocked::{Block, Tasks, blocks};
pub use entry_flags::{Flag, both, either, flags};
pub use outermost::topmost;

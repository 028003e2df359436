//! What the lines under a heading say: its planning line, its property drawer, its clock lines and its effort.
//!
//! Every call that allocates may be refused memory. Where it names no other refusal, that is its only one.
//!
//! What is read of a line is what one definition says of it, and nothing exactly where it is no such line. Only
//! `read_drawer` and `add_line` take memory.
//!
//! ```
//! match read_clock(line.as_bytes()) {
//!     Some(clock) => want.parse::<u64>() == Ok(clock.minutes_in(period)),
//!     None => want == "none",
//! }
//! // ..
//! let lines = lines_of(alloc)?;
//! read_drawer(alloc, &lines)
//! ```
//!
//! Lines of `org_tests/src/drawer_lines.rt`. Tests: `org_tests/src/drawer_lines.rt`.
#![tactic(auto)]

mod clock;
mod drawer;
mod effort;
pub mod laws;
mod node;
mod planning;

pub use clock::{ClockLine, read_clock};
pub use drawer::{Drawer, add_line, read_drawer};
pub use effort::{LONGEST_EFFORT, effort_minutes};
pub use node::is_node;
pub use planning::{Planning, read_planning};

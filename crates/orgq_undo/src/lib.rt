//! What acts changed is kept, and taken back by `orgq undo`.
//!
//! Each Org file has a history of its own in the state folder, a file that its owner alone may read. What an act is about to change
//! is put there before the file is written, under the file's lock; so wherever the program is stopped, the newest change is one
//! that was made, or one in whose text the file still is, which is passed over. Taking back is an act of its own: it goes through
//! the same safe replacement, and is refused where the file has another text than the act left.
//!
//! ```
//! let status = print_changed(rt, lines);
//! if let Err(why) = kept {
//!     say_unkept(rt, name, why);
//! }
//! status
//! ```
//!
//! Lines of `orgq_acts/src/amending.rt`. Tests: `tests/undo.sh`.
#![tactic(auto)]

mod back;
mod differing;
mod folder;
mod found;
mod keeping;
mod lines;
mod listing;
mod newest;
mod past;
mod undoing;
mod unkept;

pub use differing::{Differing, differing_lines};
pub use keeping::keep;
pub use undoing::undo;
pub use unkept::{Unkept, say_unkept};

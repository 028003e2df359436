//! Views with a name, as a file of them says: what each is for, and the commands whose answers it shows.
//!
//! A file has lines `[NAME]`, and below each `show = COMMAND`, once or several times, `about = TEXT` and `empty = hide` or
//! `show`; `#` begins a remark. The words of a command are cut as a shell cuts them, by blanks and by quotation marks, and
//! nothing in them is expanded. A file is read whole before one of its views is shown, and its first line that isn't such a line
//! is refused.
//!
//! ```
//! let views = read_views(alloc, file.text.as_str())?;
//! ```
//!
//! Lines of `orgq/src/views.rt`. Tests: cases `tests/orgq/view-*` and `tests/orgq/views-*`.
#![tactic(auto)]

mod block;
mod refusal;
mod views;
mod words;

pub use block::Block;
pub use refusal::Refusal;
pub use views::{View, read_views};

//! What `orgq` says beside its answers: sentences of what went wrong, and exit statuses.
//!
//! Each refusal has one sentence here, and each way to end one status; what a file says reaches a terminal without control
//! characters. It knows neither arguments nor files.
//!
//! ```
//! if paths.is_empty() {
//!     return Err(Problem::Files);
//! }
//! ```
//!
//! Lines of `orgq_files/src/sources.rt`. Tests: `tests/orgq.sh`.
#![tactic(auto)]

mod commands;
mod environment;
mod exit;
mod problem;
mod standard_error;
mod standard_output;
mod unwritten;

pub use commands::{CommandName, is_command, nearest_command};
pub use environment::{Variable, value_of};
pub use exit::{
    BAD_ARGUMENTS, LEFT_OUT, NO_MATCH, STOPPED, UNTOLD, UNWRITTEN, check_status, status_of,
    unamended_status, unsaved_status,
};
pub use problem::{Problem, report_problem};
pub use standard_error::{out_of_memory, say, say_lines, say_of, visible_text};
pub use standard_output::{print_all, print_changed};
pub use unwritten::{CHANGED, report_unfit, report_unmade, say_saved, say_unsaved, say_unsure};

//! Acts: changes of a file that are asked for from outside an editor, and how they are written.
//!
//! An act works out of a file's text one change of it, or why it is refused; that is pure. `amend` carries every act: it
//! makes the change and replaces the file's text by one safe replacement of `org_save`. So whatever fails, and wherever it is
//! stopped, the file has the text that it had or that with the change, whole. `Completion` is the act that completes a heading,
//! `ClockAct` begins, ends or cancels its clock, `Planning` gives it a date or takes one away, `HeadAct` changes its tags, its
//! priority and whether it has a keyword, `PropertyAct` its properties, `Addition` writes another heading, and `TakingBack` takes
//! such a change back. `Acts` are one act on several headings, which is done on all of them or
//! on none.
//!
//! ```
//! let change = match act.plan(alloc, old) {
//!     Ok(change) => change,
//!     Err(why) => return Err(Unamended::Refused(why)),
//! };
//! write_change(alloc, store, old, change)
//! ```
//!
//! Lines of `org_act/src/amendment.rt`. Tests: its laws and examples, `org_act/src/laws.rt`.
#![tactic(auto)]

mod act;
mod acts;
mod addition;
mod amendment;
mod between;
mod change;
mod clock_act;
mod clock_section;
mod clock_step;
mod completion;
mod done;
mod head_act;
mod kept;
pub mod laws;
mod lines;
mod moved;
mod note_trace;
mod planning;
mod property_act;
mod rewriting;
mod shift_trace;
mod taking_back;
mod trace;

pub use act::{Act, Refusal};
pub use acts::{Acts, HeadingAct, text_in_turn};
pub use addition::Addition;
pub use amendment::{Amended, Unamended, amend};
pub use between::change_between;
pub use change::with_change;
pub use clock_act::{ClockAct, ClockStep};
pub use completion::{Completion, KeywordChoice};
pub use head_act::HeadAct;
pub use moved::moved_pairs;
pub use note_trace::{traced_notes, traced_removals};
pub use org_store::OwnedChange;
pub use planning::Planning;
pub use property_act::PropertyAct;
pub use rewriting::Rewriting;
pub use shift_trace::{DateShift, traced_shifts};
pub use taking_back::TakingBack;
pub use trace::{Trace, traced_completions, traced_plannings};

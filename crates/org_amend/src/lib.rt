//! What is written about a heading: its line with other tags, another priority or no keyword, the line under it with a date or
//! without one, its properties, the lines of a new heading, and its clocks: which one runs, where the line of one that begins goes,
//! and what is written where one begins or ends. But for clocks all is read back: what would be read as something else isn't written.
//!
//! Nothing here changes a text. A call finds a place in the section of a heading, or gives what is put in at one, so all else
//! stays. A clock is ended by what is put right behind its stamp. Its line is taken away with the drawer that holds no other.
//!
//! Every call that allocates may be refused memory, and that is its only refusal.
//!
//! ```
//! match drawer_of(alloc, text, section, classes, DrawerName::Logbook)? {
//!     Some(drawer) => Ok(ClockPlace::InDrawer(drawer)),
//!     None => Ok(ClockPlace::UnderFront(front_end(alloc, text, section, classes)?)),
//! }
//! ```
//!
//! Lines of `org_amend/src/place.rt`. Tests: its laws and examples, `org_amend/src/laws.rt`.
#![tactic(auto)]

mod aligned_tags;
mod begun;
mod cancelled;
mod changed_nodes;
mod clock;
mod entry;
mod found_drawer;
mod head;
mod head_change;
mod head_draft;
mod head_parts;
mod head_said;
mod keyword_pairs;
pub mod laws;
mod line_tail;
mod place;
mod planning;
mod property_change;
mod property_line;
mod running;
mod search;
mod tags_column;
mod typed;
mod wanted_tags;

pub use begun::{clock_drawer, clock_line, line_break};
pub use cancelled::cancelled_part;
pub use clock::end_text;
pub use entry::{NewEntry, entry_text};
pub use head::{NewHead, Unreadable, head_line};
pub use head_change::{HeadChange, changed_head};
pub use place::{ClockPlace, clock_place};
pub use planning::{dated_line, undated_line};
pub use property_change::{DrawerPut, PropertyChange, changed_drawer};
pub use running::{RunningClock, running_clock};
pub use tags_column::TAGS_COLUMN;
pub use typed::TypedDate;
pub use wanted_tags::TagChange;

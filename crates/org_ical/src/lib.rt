//! Calendars as other programs read them (iCalendar, RFC 5545): events and tasks as properties in lines that are folded, of
//! which no text makes one of its own.
//!
//! Every call that allocates may be refused memory, and that is its only refusal.
//!
//! It knows events and tasks by plain values: texts as bytes of UTF-8, days, and times without a zone. Of a text each control
//! character but a line feed is a space. An event that is again and again has a rule without an end, or its further days.
//! Components that have equal keys are told apart by a number, so that no two have one name; one of which nothing is written
//! counts all the same, and the others keep their names. A reader that unfolds the lines finds those of the properties, and
//! takes each value for its text.
//!
//! ```
//! let calendar = calendar_of(asked.made, components);
//! let bytes = calendar.bytes(alloc)?;
//! ```
//!
//! Lines of `org_answer/src/ical.rt`. Tests: cases `tests/orgq/ical*`, and `tests/ical.sh`, which two other programs read back.
#![tactic(auto)]

mod alarm;
mod calendar;
mod component;
mod counts;
mod date;
pub mod laws;
mod line;
mod property;
mod rule;
mod value;
mod words;

pub use calendar::Calendar;
pub use component::{Component, Kind, Shown, Status};
pub use date::{Date, Time, When, push_date};
pub use rule::{Frequency, Rule};
pub use words::Words;

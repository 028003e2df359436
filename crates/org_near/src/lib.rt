//! The stamps of files' headings that are near some days: the kind of `Stamps` that asks the indexes of files.
//!
//! Each file answers which of its headings own a stamp near the days. Of these alone the stamps are read of their
//! entries, and each is examined once, as the meter counts.
//!
//! ```
//! let stamps = DatedStamps { inherits, files };
//! let last = last_of(first, count);
//! let near = stamps.near(alloc, meter, &days.as_of, first, last)?;
//! Agenda::new(alloc, near, &days.as_of, first, count)
//! ```
//!
//! Lines of `org_engine/src/agenda.rt`. Tests: `org_tests/src/examined.rt`.
#![tactic(auto)]

mod near;
mod stamps;

pub use stamps::DatedStamps;

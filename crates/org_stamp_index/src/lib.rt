//! The outline of a file with an index of its stamps by days, once an agenda asked for it.
//!
//! Every call that allocates may be refused memory. Where it names no other refusal, that is its only one.
//!
//! It keeps two indexes of its headings' stamps: of those that press, in the planning line of a heading without a done
//! keyword, and of all others, which neither warn nor are late. An entry that is put in the place of another one takes
//! the other's stamps out and puts its own in, unless the same is kept of both; nothing else is
//! looked at. Contracts see entries and settings alone: no
//! answer depends on whether indexes are kept.
//!
//! Ids of stamps count up and are never given twice. One list leads from an id to the place of its heading, another
//! from a place to the first id of its heading. An id whose stamp went leads nowhere; where more than 65,536 ids do,
//! and more than half of all, the indexes are forgotten at the next change and made anew. Where headings come or go,
//! one pass over numbers moves the places after them.
//!
//! ```
//! let entries = shared_entries(alloc, list)?;
//! let outline = Outline::of(alloc, entries)?;
//! Ok(IndexedOutline::new(outline))
//! ```
//!
//! Lines of `org_store/src/outline.rt`. Tests: `org_tests/src/examined.rt`.
#![tactic(auto)]

mod alike;
mod heading_ids;
mod index;
mod indexed_outline;
mod near_query;
mod parsed_file;

pub use indexed_outline::IndexedOutline;
pub use near_query::NearQuery;
pub use parsed_file::ParsedFile;

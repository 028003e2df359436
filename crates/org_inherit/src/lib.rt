//! What the outline of a file says of a heading beyond its own lines: tags, values, category, and whether it is hidden.
//!
//! Every call that allocates may be refused memory. Where it names no other refusal, that is its only one.
//!
//! Each call answers what its definition gives of the entries of one file, the file's settings and name, and the names
//! whose values are inherited. Lists and clock tables make tables once for a question: which headings are hidden, which
//! have tags, and where a heading has its own category the categories. An agenda asks of few headings, makes none of
//! these, and goes up from each (`Inherit::by_ancestors`). A heading has more stars than ancestors, so all ways up
//! together take no more steps than the text has bytes.
//!
//! ```
//! let inherit = outline.inherit(alloc, "a.org", names)?;
//! gathers_one(&mut Inherits::new(alloc), inherit)
//! // ..
//! let mut file = File::new(alloc, &mut Meter::new(), text, 0)?;
//! file.read_outline(alloc, &mut Meter::new())
//! ```
//!
//! Lines of `org_measure/src/outline_calls.rt`. Tests: `org_measure/src/outline_calls.rt`, streams `tests/rows/tags-*`,
//! `tests/rows/properties-*`.
#![tactic(auto)]

mod ancestors;
mod categories;
mod category;
mod find;
mod first_tags;
mod heading;
mod headings;
mod hidden;
mod inherit;
mod inherits;
pub mod laws;
mod lent_tags;
mod special;
mod tables;
mod tags;
mod values;

pub use category::category_of;
pub use headings::Heading;
pub use inherit::Inherit;
pub use inherits::Inherits;
pub use tags::tags_text;

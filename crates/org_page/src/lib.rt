//! One page of HTML over plain values: today by its hours, what is late and due soon, days that come, a month, clocks, tasks.
//!
//! Every call that allocates may be refused memory, and that is its only refusal.
//!
//! A page is a list of pieces, of which some are tags of the program's and the others texts. What is written of them is read
//! back by a small reader of tags, values and words, in `specs/Reader.antt`: whatever the texts are, the tags are those of the
//! pieces, and the words of a title are the title. Rows come as values with their links; it knows no files.
//!
//! ```
//! let mut draft = Draft::new(alloc);
//! put_page(&mut draft, page)?;
//! let text = page_text(alloc, draft.pieces.as_slice())?;
//! ```
//!
//! Lines of `org_page/src/page.rt`. Tests: cases `tests/orgq/page-*`.
#![tactic(auto)]

mod bars;
mod character;
mod chart;
mod clocked;
mod coming;
mod day;
mod draft;
mod head;
mod heading;
pub mod laws;
mod link;
mod list;
mod marks;
mod month;
mod page;
mod piece;
mod place;
mod plot;
mod row;
mod rows;
mod style;
mod task;
mod today;
mod written;

pub use chart::{Chart, ChartDay, ChartFile, ChartWeek};
pub use clocked::{Sum, SumOf, Sums};
pub use day::{Boxed, Day, Month, MonthDay, Today, Week};
pub use head::is_page;
pub use link::{LINK_MEMBERS, LinkPlace, LinkTemplate, PLAIN_LINK};
pub use page::{Page, html};
pub use place::{Placed, place_rows};
pub use row::{COLORS, Hours, Row, StampPlace, Stand};
pub use task::{Due, Task, TaskGroup};

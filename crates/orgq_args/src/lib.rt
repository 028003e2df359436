//! What is typed behind `orgq`: commands and their options, read into questions, acts and the forms of answers.
//!
//! Each reader answers a value of the crates below or a `Problem`, which names what is wrong; nothing is read from a file but
//! the time zone.
//!
//! ```
//! let Ok(joined) = joined_values(rt.alloc(), words) else {
//! // ..
//! match command.try_get_matches_from(joined.as_slice()) {
//! ```
//!
//! Lines of `orgq/src/main.rt`. Tests: `tests/orgq.sh`.
#![tactic(auto)]

mod act_arguments;
mod act_words;
mod adding;
mod arguments;
mod ask;
mod calendar;
mod call;
mod captured;
mod clock;
mod efforts;
mod filters;
mod head_words;
mod joined;
mod log;
mod option_lines;
mod options;
mod ordering;
mod place;
mod planning;
mod search;
mod sections;
mod terms;
mod trace;
mod undoing;
mod usage;
mod wish;

pub use act_words::{ActWords, date_words, keyword_words, set_words, typed_words};
pub use adding::{WishedHeading, added_place, lend, read_body};
pub use arguments::command;
pub use ask::{asked_period, read_filters, read_question};
pub use calendar::{columns_for, environment_columns};
pub use call::call_words;
pub use captured::captured_heading;
pub use clock::{now, typed_moment, universal};
pub use filters::Filters;
pub use head_words::{
    WishedProperty, WishedTags, changes_parts, part_words, wished_note, wished_part,
};
pub use joined::joined_values;
pub use log::asked_log;
pub use options::{
    form, has_ids, is_colored, named_form, profile, property_names, property_words, without_rows,
};
pub use ordering::{Ordering, has_order, read_ordering};
pub use place::{HeadingPlace, TypedPlace, is_place, read_place};
pub use planning::{planning_keyword, wished_planning};
pub use search::read_search;
pub use sections::{DayOptions, environment_lines, names_day_option};
pub use trace::WishedTrace;
pub use undoing::{UndoWish, read_undo};
pub use usage::parser_said;
pub use wish::{Look, Wish, WishedAct, WishedKeyword, done_keyword, read_wish, set_keyword};

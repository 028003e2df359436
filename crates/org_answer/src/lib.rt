//! Answers to questions over files that were read, and the bytes that are printed of them.
//!
//! A [`Question`] is what is asked, in which profile, at which moment and of which headings; its [`Answer`] is the lines of the
//! view. Contracts say it by the definitions of agendas, lists and clock tables alone.
//! Of an answer, [`answer_bytes`] makes what is printed in a [`Form`]: lines, lines with places, objects of JSON, fields between
//! commas, or a template. Whatever stands in a file, no control character of it is printed where a terminal reads.
//!
//! Every call that allocates may be refused memory. Where it names no other refusal, that is its only one.
//!
//! ```
//! let answer = arranged_answer(alloc, inherits, question)?;
//! let lines = lines_within(answer.lines.as_slice(), look.limit);
//! ```
//!
//! Lines of `orgq_answers/src/text.rt`. Tests: worked cases `tests/orgq`.
#![tactic(auto)]

mod any_row;
mod arranging;
mod calendar;
mod chart;
mod clocks;
mod day;
mod day_words;
mod expression;
mod found;
mod grouped;
mod hours;
mod ical;
mod labels;
pub mod laws;
mod limits;
mod line_ids;
mod link_words;
mod log;
mod names;
mod once_words;
mod paint;
mod picture;
mod placed;
mod print;
mod query;
mod rows_ahead;
mod running;
mod show;
mod table;
mod view;
mod words;

pub use any_row::has_row;
pub use arranging::{Arrangement, arrange};
pub use calendar::{Calendar, Canvas, View};
pub use chart::clock_picture;
pub use clocks::clock_lines;
pub use day::{DayCanvas, DayText, day_text};
pub use expression::read_expression;
pub use found::found_bytes;
pub use grouped::{GroupedLine, GroupedLines, arranged_lines, group_title, grouped_bytes};
pub use hours::day_picture;
pub use ical::{Ical, IcalQuery, ical_of};
pub use limits::lines_within;
pub use line_ids::{headings_of_lines, push_line_id};
pub use log::log_lines;
pub use paint::picture_bytes;
pub use picture::{Picture, calendar_picture};
pub use placed::{heading_of, push_file_name, push_place, seems_placed};
pub use print::answer_bytes;
pub use query::{ClockQuery, Query, Question, answer, check};
pub use running::{running_clocks, running_lines};
pub use show::{Form, PrintOptions, has_stamp, push_seen, push_title, push_whole};
pub use view::{Answer, Chosen, Days, match_list};
pub use words::{WordKind, word_lines, words_of};

//! The calendar: days, times of day, minutes, units and periods of the years 0001 to 9999.
//!
//! A day is its number, 1 for 0001-01-01; its date, weekday and ISO week are functions of that number. A number is
//! compared, hashed and counted with at no cost, and contracts see it; calls that need year, month and day ask `jiff`.
//! No call takes memory but those that append to a text, and these append whole or not at all.
//!
//! ```
//! let day = Day::read(date.as_bytes())?;
//! let (year, month, number) = day.parts();
//! let same = Day::of(year, month, number)? == day;
//! // ..
//! match unit {
//!     "day" => day.add_units(n, Unit::Day),
//!     "week" => day.add_units(n, Unit::Week),
//!     "month" => day.add_units(n, Unit::Month),
//!     _ => day.add_units(n, Unit::Year),
//! }
//! ```
//!
//! Lines of `org_tests/src/calendar.rt`. Tests: `org_tests/src/calendar.rt`.
#![tactic(auto)]

mod block;
mod day;
mod digits;
pub mod laws;
mod minute;
mod moment;
mod period;
mod steps;
mod text;
mod time_of_day;
mod typed;
mod unit;
mod year_day;

pub use day::{Day, LAST_DAY, LAST_MONTH};
pub use digits::two_digits;
pub use minute::{CALENDAR_MINUTES, Minute};
pub use moment::Moment;
pub use period::Period;
pub use steps::{Step, Steps};
pub use text::{day_name, push_date, push_time, push_two};
pub use time_of_day::{MINUTES_PER_DAY, TimeOfDay};
pub use unit::Unit;

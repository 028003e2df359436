//! Which days a calendar shows, and how.

use crate::options::refused_word;
use clap::ArgMatches;
use org_answer::{Calendar, Canvas, View};
use org_cal::{Day, Moment, Period};
use org_look::Signs;
use orgq_messages::{Problem, Variable, value_of};
use std::rt::Env;

/// What a command's words draw on, in so many columns.
pub fn canvas_of(own: &ArgMatches<'_>, columns: u16) -> Canvas {
    let signs = if own.get_flag("ascii") {
        Signs::Ascii
    } else {
        Signs::Drawn
    };
    Canvas { columns, signs }
}

/// The calendar that words ask for at a moment, in so many columns.
pub fn asked_calendar(
    own: &ArgMatches<'_>,
    moment: &Moment,
    columns: u16,
) -> Result<Calendar, Problem> {
    let (view, date) = match (own.get_str("VIEW"), own.get_str("DATE")) {
        (Some("month"), date) => (View::Month, date),
        (Some("week"), date) => (View::Week, date),
        (Some("year"), date) => (View::Year, date),
        (Some(date), None) if is_year(date) => (View::Year, Some(date)),
        (date, None) => (View::Month, date),
        (Some(word), Some(_)) => return Err(refused_word(word, Problem::View)),
        (None, Some(_)) => return Err(Problem::View),
    };
    let day = match date {
        Some(text) => day_typed(text, moment.day)?,
        None => moment.day,
    };
    let lines = own.get_one::<u32>("lines").unwrap_or(LINES);
    Calendar::of(view, day, lines as usize, canvas_of(own, columns)).ok_or(Problem::Days)
}

// Whether a word names a year.
fn is_year(word: &str) -> bool {
    let is_number = word.len() == 4 && word.bytes().all(|byte| byte.is_ascii_digit());
    is_number || matches!(word, "thisyear" | "lastyear" | "nextyear")
}

// How many lines a day of a month takes at most, where none is named.
const LINES: u32 = 6;

fn day_typed(text: &str, today: Day) -> Result<Day, Problem> {
    match Period::of_word(text.as_bytes(), today) {
        Some(period) => Ok(period.first),
        None => Err(refused_word(text, Problem::Date)),
    }
}

// How wide a terminal is where nothing says it.
const COLUMNS: u16 = 80;

/// How many columns a picture has: those of `--columns` behind the command or in front of it, else those that the environment names, else 80.
pub fn columns_for<R: AllocGlobal + Env>(rt: &R, matches: &ArgMatches<'_>) -> Result<u16, Problem> {
    let named = match matches.subcommand() {
        Some(("calendar" | "agenda", own)) => own
            .get_one::<u32>("columns")
            .or(matches.get_one::<u32>("columns")),
        _ => return Ok(COLUMNS),
    };
    if let Some(columns) = named {
        return Ok(columns.min(u32::from(MOST)) as u16);
    }
    Ok(environment_columns(rt)?.unwrap_or(COLUMNS))
}

/// How many columns the environment names, if it does.
pub fn environment_columns<R: AllocGlobal + Env>(rt: &R) -> Result<Option<u16>, Problem> {
    let Some(text) = value_of(rt, Variable::Columns)? else {
        return Ok(None);
    };
    match text.as_str().parse::<u16>() {
        Ok(columns) if columns > 0 => Ok(Some(columns.clamp(LEAST, MOST))),
        _ => Ok(None),
    }
}

// The fewest and the most columns of a picture.
const LEAST: u16 = 20;

const MOST: u16 = 1000;

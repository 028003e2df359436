//! How an agenda of one day is shown on a terminal.

use crate::calendar::environment_columns;
use clap::ArgMatches;
use org_answer::{DayCanvas, Form, PrintOptions};
use org_day::{Background, DayLook, Signs};
use orgq_messages::{Problem, Variable, value_of};
use std::rt::Env;

/// What the arguments say of a day in sections: whether it is to come by its rows alone, the signs, the columns, and the lines of
/// the terminal; and what letters stand on.
#[derive(Clone, Copy, Debug)]
pub struct DayOptions {
    is_plain: bool,
    is_ascii: bool,
    columns: Option<u32>,
    lines: Option<u32>,
    background: Option<Background>,
}

// How wide a terminal is where nothing says it.
const COLUMNS: u16 = 80;

impl DayOptions {
    /// Those of the arguments. In front of a command that shows no day such options are refused; a calendar takes columns.
    pub fn read(matches: &ArgMatches<'_>) -> Result<DayOptions, Problem> {
        let background = named_background(matches)?;
        match matches.subcommand() {
            Some(("agenda", own)) => Ok(DayOptions::of(matches, own, background)),
            Some(("calendar", _)) if !names_look_of_day(matches) => {
                Ok(DayOptions::of(matches, matches, background))
            }
            Some(_) if names_day_option(matches) => Err(Problem::DayOf),
            _ => Ok(DayOptions::of(matches, matches, background)),
        }
    }

    // Those of a command's own words, and those in front of it.
    fn of<'a>(
        front: &ArgMatches<'a>,
        own: &ArgMatches<'a>,
        background: Option<Background>,
    ) -> DayOptions {
        DayOptions {
            is_plain: own.get_flag("plain") || front.get_flag("plain"),
            is_ascii: own.get_flag("ascii") || front.get_flag("ascii"),
            columns: own
                .get_one::<u32>("columns")
                .or(front.get_one::<u32>("columns")),
            lines: own
                .get_one::<u32>("lines")
                .or(front.get_one::<u32>("lines")),
            background,
        }
    }

    /// What an agenda of one day is drawn on; nothing where it comes by its rows alone.
    pub fn canvas<R: AllocGlobal + Env>(
        &self,
        rt: &R,
        look: &PrintOptions<'_, '_>,
        on_terminal: bool,
    ) -> Result<Option<DayCanvas>, Problem> {
        if !on_terminal || self.is_plain || look.form != Form::Plain {
            return Ok(None);
        }
        let signs = if self.is_ascii {
            Signs::Ascii
        } else {
            Signs::Drawn
        };
        let look_of_day = DayLook {
            columns: self.columns(rt)?,
            lines: self.lines(rt)?,
            signs,
        };
        let background = if look.is_colored {
            Some(self.background(rt)?)
        } else {
            None
        };
        Ok(Some(DayCanvas {
            look: look_of_day,
            background,
            limit: look.limit,
        }))
    }

    fn columns<R: AllocGlobal + Env>(&self, rt: &R) -> Result<usize, Problem> {
        if let Some(columns) = self.columns {
            return Ok(columns as usize);
        }
        let columns = environment_columns(rt)?.unwrap_or(COLUMNS);
        Ok(usize::from(columns))
    }

    fn lines<R: AllocGlobal + Env>(&self, rt: &R) -> Result<Option<usize>, Problem> {
        if let Some(lines) = self.lines {
            return Ok(Some(lines as usize));
        }
        environment_lines(rt)
    }

    /// On what letters stand where they have colours.
    pub fn background<R: AllocGlobal + Env>(&self, rt: &R) -> Result<Background, Problem> {
        if let Some(background) = self.background {
            return Ok(background);
        }
        match value_of(rt, Variable::Background)? {
            Some(colors) => Ok(background_of(colors.as_str())),
            None => Ok(Background::Unknown),
        }
    }
}

/// How many lines the environment names, if it does.
pub fn environment_lines<R: AllocGlobal + Env>(rt: &R) -> Result<Option<usize>, Problem> {
    let Some(text) = value_of(rt, Variable::Lines)? else {
        return Ok(None);
    };
    match text.as_str().parse::<u16>() {
        Ok(lines) if lines > 0 => Ok(Some(usize::from(lines))),
        _ => Ok(None),
    }
}

/// Whether options of a day in sections stand among a command's own words.
pub fn names_day_option(matches: &ArgMatches<'_>) -> bool {
    names_look_of_day(matches) || matches.get_one::<u32>("columns").is_some()
}

// Whether such options but columns stand there.
fn names_look_of_day(matches: &ArgMatches<'_>) -> bool {
    matches.get_flag("plain")
        || matches.get_flag("ascii")
        || matches.get_one::<u32>("lines").is_some()
}

// The background that the arguments name, if they name one.
fn named_background(matches: &ArgMatches<'_>) -> Result<Option<Background>, Problem> {
    match matches.get_str("background") {
        None => Ok(None),
        Some("dark") => Ok(Some(Background::Dark)),
        Some("light") => Ok(Some(Background::Light)),
        Some(_) => Err(Problem::Background),
    }
}

// The background of colours as terminals name them, by numbers between semicolons of which the last is its own.
fn background_of(colors: &str) -> Background {
    let last = match colors.rsplit_once(';') {
        Some((_, last)) => last,
        None => return Background::Unknown,
    };
    match last.parse::<u8>() {
        Ok(0..=6 | 8) => Background::Dark,
        Ok(7 | 9..=15) => Background::Light,
        _ => Background::Unknown,
    }
}

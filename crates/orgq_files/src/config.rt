//! The file of settings, `config` in the configuration folder.

use crate::file_list::{folder_path, path_of, text_of_list};
use crate::setting::{Choice, Setting};
use orgq_messages::{Problem, Variable, say, value_of};
use std::alloc::{AllocError, AllocFailed, Global};
use std::rt::{Env, Files};

/// The settings of a file, and its path.
#[derive(Debug, Drop)]
pub struct Config {
    pub path: String,
    pub settings: Vec<Setting>,
}

/// Why no settings are had.
#[derive(Debug, Drop)]
pub enum Unread {
    Problem(Problem),
    /// The line of a file, as FILE:LINE, says no setting.
    Line(String, &'static str),
}

impl From<Problem> for Unread {
    fn from(problem: Problem) -> Unread {
        Unread::Problem(problem)
    }
}

impl From<AllocError> for Unread {
    fn from(refused: AllocError) -> Unread {
        Unread::Problem(Problem::from(refused))
    }
}

// Why a line says no setting.
#[derive(Clone, Copy)]
enum BadLine {
    Memory,
    Because(&'static str),
}

impl From<AllocError> for BadLine {
    fn from(_refused: AllocError) -> BadLine {
        BadLine::Memory
    }
}

impl<T: Drop> From<AllocFailed<T>> for BadLine {
    fn from(_refused: AllocFailed<T>) -> BadLine {
        BadLine::Memory
    }
}

const NO_OPTION: &str =
    "no option of this file; there are file, inbox, words, keywords, inherit, profile, color, background, columns, project, next-action, log-done, log-repeat and log-into-drawer, each with its value behind a space";

const NO_COLOR: &str = "color is auto, always or never";

const NO_BACKGROUND: &str = "background is dark or light";

const NO_COLUMNS: &str = "columns is a number, 20 to 1000";

const NO_PROFILE: &str = "profile is 1 or 2";

const NO_WORDS: &str = "words is yes or no";

const NO_LOG: &str = "log-done and log-repeat are no, time or note";

const TWICE: &str = "this option stands in a line before";

/// No settings, as where the file doesn't count.
pub fn no_config(alloc: Global) -> Config {
    Config {
        path: String::new(alloc),
        settings: Vec::new(alloc),
    }
}

/// The settings of the configuration folder's file; none where there is no such file. Where the environment doesn't say by UTF-8
/// which folder that is, it is said, and there are none.
pub fn read_config<R: AllocGlobal + Files + Env + Eprint>(rt: &R) -> Result<Config, Unread> {
    let home = match value_of(rt, Variable::Home) {
        Ok(Some(home)) => home,
        Ok(None) => String::new(rt.alloc()),
        Err(problem) => return without(rt, problem),
    };
    match folder_path(rt, home.as_str(), "config") {
        Ok(path) => in_file(rt, path, home.as_str()),
        Err(problem) => without(rt, problem),
    }
}

fn without<R: AllocGlobal + Eprint>(rt: &R, problem: Problem) -> Result<Config, Unread> {
    match problem {
        Problem::Environment(variable) => {
            say(rt, variable.why());
            Ok(no_config(rt.alloc()))
        }
        _ => Err(Unread::Problem(problem)),
    }
}

fn in_file<R: AllocGlobal + Files>(rt: &R, path: String, home: &str) -> Result<Config, Unread> {
    let settings = match text_of_list(rt, path.as_str(), Problem::Config)? {
        Some(text) => settings_of(rt.alloc(), text.as_str(), path.as_str(), home)?,
        None => Vec::new(rt.alloc()),
    };
    Ok(Config { path, settings })
}

// The settings of a text, where `~/` in front of a path stands for a folder.
fn settings_of(alloc: Global, text: &str, path: &str, home: &str) -> Result<Vec<Setting>, Unread> {
    let mut settings: Vec<Setting> = Vec::new(alloc);
    let mut number: usize = 0;
    for line in text.split('\n') {
        number = number.saturating_add(1);
        match push_line(alloc, &mut settings, line.trim(), number, home) {
            Ok(()) => {}
            Err(BadLine::Memory) => return Err(Unread::from(AllocError)),
            Err(BadLine::Because(why)) => {
                return Err(Unread::Line(format!(in alloc; "{path}:{number}")?, why));
            }
        }
    }
    Ok(settings)
}

// Puts the setting of a line after others, if it says one.
fn push_line(
    alloc: Global,
    settings: &mut Vec<Setting>,
    line: &str,
    number: usize,
    home: &str,
) -> Result<(), BadLine> {
    if line.is_empty() || line.starts_with('#') {
        return Ok(());
    }
    let (choice, value) = read_line(line)?;
    if !choice.is_list() && settings.iter().any(|setting| setting.choice == choice) {
        return Err(BadLine::Because(TWICE));
    }
    let value = match choice {
        Choice::File | Choice::Inbox => path_of(alloc, value, home)?,
        _ => String::from_str(alloc, value)?,
    };
    settings.push(Setting {
        choice,
        value,
        line: number,
    })?;
    Ok(())
}

// The option of a line and its value.
fn read_line(line: &str) -> Result<(Choice, &str), BadLine> {
    let Some((name, value)) = line.split_once(|c: char| c == ' ' || c == '\t') else {
        return Err(BadLine::Because(NO_OPTION));
    };
    let value = value.trim_start();
    match Choice::of_name(name) {
        None => Err(BadLine::Because(NO_OPTION)),
        Some(Choice::Color) if !matches!(value, "auto" | "always" | "never") => {
            Err(BadLine::Because(NO_COLOR))
        }
        Some(Choice::Background) if !matches!(value, "dark" | "light") => {
            Err(BadLine::Because(NO_BACKGROUND))
        }
        Some(Choice::Columns) if !is_width(value) => Err(BadLine::Because(NO_COLUMNS)),
        Some(Choice::Words) if !matches!(value, "yes" | "no") => Err(BadLine::Because(NO_WORDS)),
        Some(Choice::Profile) if !matches!(value, "1" | "2") => {
            Err(BadLine::Because(NO_PROFILE))
        }
        Some(Choice::LogDone | Choice::LogRepeat) if !matches!(value, "no" | "time" | "note") => {
            Err(BadLine::Because(NO_LOG))
        }
        Some(choice) => Ok((choice, value)),
    }
}

// Whether a word is a number of columns that lines may have.
fn is_width(value: &str) -> bool {
    match value.parse::<u16>() {
        Ok(columns) => 20 <= columns && columns <= 1000,
        Err(_) => false,
    }
}

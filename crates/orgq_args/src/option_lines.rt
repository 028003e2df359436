//! Lines of options: the letter, the name, the name of the value and what it does, with semicolons between. An option may
//! have no letter, and no value.

use clap::{Arg, ArgAction, Command, value_parser};
use org_base::MOST_DAYS;
use std::alloc::{AllocError, Global};

/// Whether lines have an option of that name or letter that takes a value.
pub fn is_valued(options: &'static str, name: &str) -> bool {
    options.split('\n').any(|line| {
        let mut fields = line.split(';');
        let is_named = fields.next() == Some(name) || fields.next() == Some(name);
        is_named && !name.is_empty() && has_value(line)
    })
}

fn has_value(line: &str) -> bool {
    line.split(';')
        .nth(2)
        .is_some_and(|value| !value.is_empty())
}

/// A word of a command.
pub fn word<'a>(alloc: Global, name: &'static str, help: &'static str) -> Arg<'a> {
    Arg::new(alloc, name).help(help).action(ArgAction::Set)
}

/// Any number of words.
pub fn words<'a>(alloc: Global, name: &'static str, help: &'static str) -> Arg<'a> {
    word(alloc, name, help)
        .num_args(0..)
        .action(ArgAction::Append)
}

/// A command with the options of these lines; those of all commands may stand behind any of them.
pub fn with_options<'a>(
    alloc: Global,
    mut command: Command<'a>,
    table: &'static str,
    is_global: bool,
) -> Result<Command<'a>, AllocError> {
    for line in table.lines() {
        command = command.arg(option(alloc, line).global(is_global))?;
    }
    Ok(command)
}

fn option<'a>(alloc: Global, line: &'static str) -> Arg<'a> {
    let mut fields = line.splitn(4, ';');
    let letter = fields.next().unwrap_or("");
    let name = fields.next().unwrap_or("");
    let value = fields.next().unwrap_or("");
    let mut arg = word(alloc, name, fields.next().unwrap_or("")).long(name);
    if let Some(letter) = letter.chars().next() {
        arg = arg.short(letter);
    }
    if value.is_empty() {
        return arg.action(ArgAction::SetTrue);
    }
    let arg = arg.value_name(value);
    match name {
        "file" | "inherit" | "only" | "not" => arg.action(ArgAction::Append),
        "tag" | "without" | "properties" => arg.action(ArgAction::Append),
        "from"
        | "to"
        | "at"
        | "since"
        | "format"
        | "scheduled"
        | "deadline"
        | "link"
        | "output"
        | "note"
        | "effort"
        | "sort" => { arg.allow_hyphen_values(true) }
        "limit" | "times" => arg.value_parser(value_parser!(u32).range(1..=1_000_000)),
        "profile" => arg.value_parser(value_parser!(u32).range(1..=2)),
        "days" => arg.value_parser(value_parser!(u32).range(1..=i64::from(MOST_DAYS))),
        "level" => arg.value_parser(value_parser!(u32).range(1..=99)),
        "columns" => arg.value_parser(value_parser!(u32).range(20..=1000)),
        "lines" if value == "HEIGHT" => arg.value_parser(value_parser!(u32).range(5..=1000)),
        "lines" => arg.value_parser(value_parser!(u32).range(2..=60)),
        "lead" | "alarm" => arg.value_parser(value_parser!(u32).range(0..=100_000)),
        _ => arg,
    }
}

//! The options of a call that all commands have.

use crate::arguments::OF_ALL;
use clap::ArgMatches;
use std::alloc::{AllocError, Global};

/// The options of a call that all commands have, and its files, each as one word: behind them another command is asked the same
/// way.
pub fn call_words(alloc: Global, matches: &ArgMatches<'_>) -> Result<Vec<String>, AllocError> {
    let mut words = Vec::new(alloc);
    for line in OF_ALL.lines() {
        push_option(alloc, &mut words, matches, line)?;
    }
    push_values(alloc, &mut words, "file", matches.get_strs("PATH"))?;
    Ok(words)
}

// Appends the words of the option of a line, as often as it was named.
fn push_option(
    alloc: Global,
    words: &mut Vec<String>,
    matches: &ArgMatches<'_>,
    line: &'static str,
) -> Result<(), AllocError> {
    let mut fields = line.split(';');
    let name = fields.nth(1).unwrap_or("");
    if fields.next().unwrap_or("").is_empty() {
        return push_flag(alloc, words, name, matches.get_flag(name));
    }
    match name {
        "file" | "inherit" | "properties" => {
            push_values(alloc, words, name, matches.get_strs(name))
        }
        "profile" => push_number(alloc, words, name, matches.get_one::<u32>(name)),
        _ => match matches.get_str(name) {
            Some(value) => push_value(alloc, words, name, value),
            None => Ok(()),
        },
    }
}

fn push_flag(
    alloc: Global,
    words: &mut Vec<String>,
    name: &str,
    is_named: bool,
) -> Result<(), AllocError> {
    if is_named {
        let word = format!(in alloc; "--{name}")?;
        words.push(word)?;
    }
    Ok(())
}

fn push_values(
    alloc: Global,
    words: &mut Vec<String>,
    name: &str,
    values: Option<&[&str]>,
) -> Result<(), AllocError> {
    for value in values.unwrap_or(&[]) {
        push_value(alloc, words, name, value)?;
    }
    Ok(())
}

fn push_number(
    alloc: Global,
    words: &mut Vec<String>,
    name: &str,
    value: Option<u32>,
) -> Result<(), AllocError> {
    if let Some(number) = value {
        let word = format!(in alloc; "--{name}={number}")?;
        words.push(word)?;
    }
    Ok(())
}

fn push_value(
    alloc: Global,
    words: &mut Vec<String>,
    name: &str,
    value: &str,
) -> Result<(), AllocError> {
    let word = format!(in alloc; "--{name}={value}")?;
    words.push(word)?;
    Ok(())
}

//! What counts, and from where.

use crate::counted::names_file;
use clap::ArgMatches;
use org_answer::Form;
use org_visible::{Escape, push_visible};
use orgq_args::{named_form, without_rows};
use orgq_files::{Choice, Config, NamedChoices, listed_word, path_of, read_list};
use orgq_messages::{Problem, Variable, print_all, status_of, value_of};
use std::alloc::{AllocError, Global};
use std::rt::Files;

// What stands for the command line in a line.
const COMMAND_LINE: &str = "command line";

/// Prints a line for each option that counts, with where it is from: the command line, a variable of the environment, or the
/// line of a file. Gives the exit status, which is 1 where nothing counts.
pub fn show_config(
    rt: &HostRuntime,
    matches: &ArgMatches<'_>,
    config: &Config,
    named: &NamedChoices,
) -> Result<u8, Problem> {
    refuse_forms(matches)?;
    let mut lines = Vec::new(rt.alloc());
    push_named(rt.alloc(), &mut lines, matches)?;
    push_environment(rt, &mut lines, matches)?;
    push_settings(rt.alloc(), &mut lines, config, named)?;
    if !named.file && !has_files(config) {
        push_list(rt, &mut lines)?;
    }
    let status = status_of(!lines.is_empty(), false);
    if matches.get_flag("quiet") {
        return Ok(status);
    }
    Ok(print_all(rt, lines.as_slice(), status))
}

// Refuses what is for rows alone, and what names a form or chooses rows.
fn refuse_forms(matches: &ArgMatches<'_>) -> Result<(), Problem> {
    without_rows(matches)?;
    if named_form(matches) != Form::Plain || matches.get_flag("days-too") {
        return Err(Problem::ConfigForm);
    }
    Ok(())
}

// The options that the command line names.
fn push_named(
    alloc: Global,
    lines: &mut Vec<u8>,
    matches: &ArgMatches<'_>,
) -> Result<(), AllocError> {
    push_each(alloc, lines, "file", matches.get_strs("file"))?;
    push_each(alloc, lines, "file", matches.get_strs("PATH"))?;
    push_each(alloc, lines, "inherit", matches.get_strs("inherit"))?;
    if let Some(keywords) = matches.get_str("keywords") {
        push_line(alloc, lines, COMMAND_LINE, "keywords", keywords)?;
    }
    if let Some(profile) = matches.get_one::<u32>("profile") {
        let profile = format!(in alloc; "{profile}")?;
        push_line(alloc, lines, COMMAND_LINE, "profile", profile.as_str())?;
    }
    if let Some(columns) = matches.get_one::<u32>("columns") {
        let columns = format!(in alloc; "{columns}")?;
        push_line(alloc, lines, COMMAND_LINE, "columns", columns.as_str())?;
    }
    for option in [
        "background",
        "color",
        "log-done",
        "log-repeat",
        "log-into-drawer",
        "project",
        "next-action",
        "inbox",
        "words",
    ] {
        if let Some(value) = matches.get_str(option) {
            push_line(alloc, lines, COMMAND_LINE, option, value)?;
        }
    }
    Ok(())
}

fn push_each(
    alloc: Global,
    lines: &mut Vec<u8>,
    option: &str,
    values: Option<&[&str]>,
) -> Result<(), AllocError> {
    for value in values.unwrap_or(&[]) {
        push_line(alloc, lines, COMMAND_LINE, option, value)?;
    }
    Ok(())
}

// The files that the environment names, where the command line names none.
fn push_environment(
    rt: &HostRuntime,
    lines: &mut Vec<u8>,
    matches: &ArgMatches<'_>,
) -> Result<(), Problem> {
    if names_file(matches) {
        return Ok(());
    }
    let Some(paths) = value_of(rt, Variable::Files)? else {
        return Ok(());
    };
    for part in paths.as_str().split(':') {
        if let Some(word) = listed_word(part) {
            let path = path_of(rt.alloc(), word, "")?;
            push_line(rt.alloc(), lines, "ORGQ_FILES", "file", path.as_str())?;
        }
    }
    Ok(())
}

// The settings of the file whose options aren't named.
fn push_settings(
    alloc: Global,
    lines: &mut Vec<u8>,
    config: &Config,
    named: &NamedChoices,
) -> Result<(), AllocError> {
    for setting in &config.settings {
        if named.leaves(setting.choice) {
            let from = place_of(alloc, config.path.as_str(), setting.line)?;
            let option = setting.choice.name();
            push_line(alloc, lines, from.as_str(), option, setting.value.as_str())?;
        }
    }
    Ok(())
}

fn has_files(config: &Config) -> bool {
    config
        .settings
        .iter()
        .any(|setting| setting.choice == Choice::File)
}

// The files of the configuration folder's list.
fn push_list(rt: &HostRuntime, lines: &mut Vec<u8>) -> Result<(), Problem> {
    let list = read_list(rt)?;
    let mut number: usize = 0;
    for part in list.text.as_str().split('\n') {
        number = number.saturating_add(1);
        if let Some(word) = listed_word(part) {
            let from = place_of(rt.alloc(), list.path.as_str(), number)?;
            let path = path_of(rt.alloc(), word, list.home.as_str())?;
            push_line(rt.alloc(), lines, from.as_str(), "file", path.as_str())?;
        }
    }
    Ok(())
}

// A line of a file, as FILE:LINE.
fn place_of(alloc: Global, path: &str, line: usize) -> Result<String, AllocError> {
    format!(in alloc; "{path}:{line}")
}

// Appends a line; control characters stand in it so that they can be seen.
fn push_line(
    alloc: Global,
    lines: &mut Vec<u8>,
    from: &str,
    option: &str,
    value: &str,
) -> Result<(), AllocError> {
    let text = format!(in alloc; "{from}: {option} {value}")?;
    push_visible(lines, text.as_bytes(), Escape::Caret)?;
    lines.push(b'\n')?;
    Ok(())
}

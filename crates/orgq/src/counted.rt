//! A run with the settings of the file `config`.

use crate::session::run;
use crate::shown_config::show_config;
use clap::ArgMatches;
use orgq_args::{command, environment_columns, joined_values, parser_said};
use orgq_files::{Choice, Config, NamedChoices, Unread, no_config, read_config, words_with};
use orgq_messages::{BAD_ARGUMENTS, Problem, Variable, report_problem, say_of, value_of};
use std::fs;
use std::fs::File;
use std::rt::Files;

/// Answers what the arguments ask for with the settings of the file that count, and gives the exit status.
pub fn run_with_config(
    rt: &HostRuntime,
    words: &[String],
    matches: &ArgMatches<'_>,
    on_terminal: bool,
) -> u8 {
    let config = if matches.get_flag("no-config") {
        Ok(no_config(rt.alloc()))
    } else {
        read_config(rt)
    };
    let counted = match config {
        Ok(config) => with_settings(rt, words, matches, &config, on_terminal),
        Err(unread) => Err(unread),
    };
    match counted {
        Ok(status) => status,
        Err(unread) => report_unread(rt, &unread),
    }
}

fn with_settings(
    rt: &HostRuntime,
    words: &[String],
    matches: &ArgMatches<'_>,
    config: &Config,
    on_terminal: bool,
) -> Result<u8, Unread> {
    let named = named_choices(rt, matches, config)?;
    if let Some(("config", _)) = matches.subcommand() {
        return Ok(show_config(rt, matches, config, &named)?);
    }
    if config.settings.is_empty() {
        return Ok(run(rt, matches, on_terminal));
    }
    let all = words_with(rt.alloc(), words, config.settings.as_slice(), &named)?;
    let all = joined_values(rt.alloc(), all.as_slice())?;
    match command(rt.alloc())?.try_get_matches_from(all.as_slice()) {
        Ok(matches) => Ok(run(rt, &matches, on_terminal)),
        Err(error) => Ok(parser_said(rt, all.as_slice(), &error)),
    }
}

// Which options are named by the command line, or by the environment, which names files and columns.
fn named_choices(
    rt: &HostRuntime,
    matches: &ArgMatches<'_>,
    config: &Config,
) -> Result<NamedChoices, Problem> {
    let is_named = names_file(matches) || value_of(rt, Variable::Files)?.is_some();
    let mut named = named_words(matches);
    named.columns = !takes_columns(rt, matches);
    named.file = is_named || !takes_files(rt, matches, config);
    Ok(named)
}

// Which options the command line names, but for columns and files.
fn named_words(matches: &ArgMatches<'_>) -> NamedChoices {
    NamedChoices {
        background: names(matches, "background"),
        columns: false,
        color: names(matches, "color"),
        file: false,
        inbox: names(matches, "inbox"),
        inherit: matches.get_strs("inherit").is_some(),
        keywords: names(matches, "keywords"),
        log_done: names(matches, "log-done"),
        log_into_drawer: names(matches, "log-into-drawer"),
        log_repeat: names(matches, "log-repeat"),
        next_action: names(matches, "next-action"),
        profile: matches.get_one::<u32>("profile").is_some(),
        project: names(matches, "project"),
        words: names(matches, "words"),
    }
}

// Whether an option with a word stands among the arguments.
fn names(matches: &ArgMatches<'_>, option: &str) -> bool {
    matches.get_str(option).is_some()
}

// Whether a command takes the columns that the settings name: one that shows a day or draws a picture, where neither the command line nor the
// environment names any.
fn takes_columns(rt: &HostRuntime, matches: &ArgMatches<'_>) -> bool {
    match matches.subcommand() {
        None | Some(("config", _)) => names_no_columns(rt, matches, matches),
        Some(("agenda" | "calendar", own)) => names_no_columns(rt, matches, own),
        Some(_) => false,
    }
}

// Whether neither a command's own words, nor those in front of it, nor the environment name columns.
fn names_no_columns<'a>(rt: &HostRuntime, front: &ArgMatches<'a>, own: &ArgMatches<'a>) -> bool {
    own.get_one::<u32>("columns").is_none()
        && front.get_one::<u32>("columns").is_none()
        && !matches!(environment_columns(rt), Ok(Some(_)))
}

// Whether a command takes the files that the settings name. One that adds a heading takes a single one, where it isn't to go
// below a heading of another or into an inbox.
fn takes_files(rt: &HostRuntime, matches: &ArgMatches<'_>, config: &Config) -> bool {
    match matches.subcommand() {
        Some(("add", own)) => {
            let is_free = own.get_str("under").is_none() && own.get_str("inbox").is_none();
            is_free && !has_inbox(config) && has_one_file(rt, config)
        }
        _ => true,
    }
}

// Whether the settings name an inbox.
fn has_inbox(config: &Config) -> bool {
    config
        .settings
        .iter()
        .any(|setting| setting.choice == Choice::Inbox)
}

// Whether the settings name one file, and no folder.
fn has_one_file(rt: &HostRuntime, config: &Config) -> bool {
    let mut count = 0u64;
    for setting in config.settings.as_slice() {
        if setting.choice == Choice::File {
            count = count.saturating_add(1);
            if fs::metadata(rt, setting.value.as_str()).is_ok_and(|found| found.is_dir()) {
                return false;
            }
        }
    }
    count == 1
}

/// Whether the command line names a file, by an option or by a word.
pub fn names_file(matches: &ArgMatches<'_>) -> bool {
    match matches.subcommand() {
        Some(("follow", own)) => names_own_file(matches) || names_own_file(own),
        _ => names_own_file(matches),
    }
}

// The same of the words of one command.
fn names_own_file(matches: &ArgMatches<'_>) -> bool {
    matches.get_strs("file").is_some()
        || matches.get_strs("PATH").is_some()
        || match matches.subcommand() {
            Some(("check", own)) => own.get_strs("FILE").is_some(),
            _ => false,
        }
}

fn report_unread(rt: &HostRuntime, unread: &Unread) -> u8 {
    match unread {
        Unread::Problem(problem) => report_problem(rt, *problem, ""),
        Unread::Line(place, why) => {
            say_of(rt, place.as_str(), why);
            BAD_ARGUMENTS
        }
    }
}

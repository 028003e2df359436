//! The command that says what looks planned and will not show.

use crate::options::without_days;
use clap::ArgMatches;
use org_cal::Moment;
use org_check::{Form, Selection, Severity, Wanted, kind_names, unknown_kind};
use orgq_args::without_rows;
use orgq_files::{CheckedFiles, Reading, load_all, paths, report_of};
use orgq_messages::{BAD_ARGUMENTS, Problem, check_status, print_all, say};
use std::alloc::{AllocError, Global};

/// Checks the files that the arguments name, and gives the exit status; `own` are the words of the command itself.
pub fn check_files(
    rt: &HostRuntime,
    matches: &ArgMatches<'_>,
    own: &ArgMatches<'_>,
    now: &Moment,
) -> Result<u8, Problem> {
    if let Some(name) = unknown_name(own) {
        return Ok(refuse_kind(rt, name)?);
    }
    let selection = selection(rt.alloc(), own)?;
    let wanted = Wanted {
        selection: &selection,
        form: form(matches)?,
    };
    let mut files = CheckedFiles::new(rt.alloc());
    let paths = paths(rt, matches, own.get_strs("FILE").unwrap_or(&[]))?;
    let left_out = load_all(rt, &mut files, paths.as_slice(), &Reading::of(matches))?;
    let report = report_of(rt.alloc(), &files, &wanted, now.minute())?;
    let status = check_status(report.counts, left_out);
    if matches.get_flag("quiet") {
        return Ok(status);
    }
    Ok(print_all(rt, report.lines.as_slice(), status))
}

// The first name among those of kinds that no kind has.
fn unknown_name<'a>(own: &ArgMatches<'a>) -> Option<&'a str> {
    unknown_of(own.get_strs("only")).or(unknown_of(own.get_strs("not")))
}

fn unknown_of<'a>(lists: Option<&[&'a str]>) -> Option<&'a str> {
    for names in lists.unwrap_or(&[]) {
        if let Some(name) = unknown_kind(names) {
            return Some(name);
        }
    }
    None
}

// Says that there is no such kind, and which there are.
fn refuse_kind(rt: &HostRuntime, name: &str) -> Result<u8, AllocError> {
    let names = kind_names(rt.alloc())?;
    let text = format!(in rt.alloc(); "no such kind: {name}; there are {names}")?;
    say(rt, text.as_str());
    Ok(BAD_ARGUMENTS)
}

// Which findings are wanted.
fn selection(alloc: Global, own: &ArgMatches<'_>) -> Result<Selection, Problem> {
    let mut selection = Selection::new(alloc);
    if own.get_flag("all") {
        selection.take_all();
    }
    for names in own.get_strs("only").unwrap_or(&[]) {
        selection.take(names)?;
    }
    for names in own.get_strs("not").unwrap_or(&[]) {
        selection.leave_out(names)?;
    }
    selection.set_least(least(own.get_str("severity"))?);
    Ok(selection)
}

// From which severity on a finding counts.
fn least(word: Option<&str>) -> Result<Severity, Problem> {
    match Severity::of_name(word.unwrap_or("note")) {
        Some(severity) => Ok(severity),
        None => Err(Problem::Severity),
    }
}

// The form of findings, where no option asks for one of rows alone.
fn form(matches: &ArgMatches<'_>) -> Result<Form, Problem> {
    without_days(matches)?;
    without_rows(matches)?;
    if matches.get_flag("csv") {
        return Err(Problem::Fields);
    }
    if matches.get_flag("json") {
        Ok(Form::Json)
    } else {
        Ok(Form::Lines)
    }
}

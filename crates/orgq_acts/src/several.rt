//! Several headings to which the same is done: all are found, and what becomes of their files is worked out, before the first file
//! is written; and each file is written once.

use crate::acts::heading_at;
use crate::amending::{ALREADY, carry_out_shown};
use crate::found::MOST_HEADINGS;
use crate::heading::HeadingText;
use crate::headings::{FileHeadings, Headings};
use crate::refusals::{say_unamended, say_unchanged};
use crate::told::told_lines;
use org_act::Unamended;
use org_save::{Disk, open};
use orgq_args::Wish;
use orgq_messages::{
    Problem, STOPPED, out_of_memory, print_all, report_unfit, say_of, say_saved, unamended_status,
};
use std::alloc::AllocError;
use std::fs::File;
use std::rt::{Env, Files};
use std::slice;
use std::time::Clock;

// What becomes of a file.
#[derive(Drop)]
struct PlannedFile {
    // Its text, and what is asked.
    heading: HeadingText,
    change: PlannedChange,
}

// What is printed of a change, and the text that the file gets.
#[derive(Drop)]
struct PlannedChange {
    told: Vec<u8>,
    text: String,
}

// What becomes of files, and the worst exit status of those that can't be changed.
#[derive(Drop)]
struct PlannedFiles {
    files: Vec<PlannedFile>,
    status: u8,
}

/// Does what is wished to headings, and gives the worst exit status of their files. A file of which one heading is refused, or
/// that can't be written, stays as it was; the others are changed. Where memory is refused before the first is written, none is.
pub fn change_all<R: AllocGlobal + Clock + Env + Files<File = File> + Print + Eprint>(
    rt: &R,
    headings: &Headings,
    wish: &Wish,
) -> Result<u8, Problem> {
    if headings.count() > MOST_HEADINGS {
        return Err(Problem::Many);
    }
    let planned = plan_files(rt, headings.files(), wish)?;
    if planned.status == STOPPED {
        return Ok(STOPPED);
    }
    let mut status = planned.status;
    for file in planned.files.as_slice() {
        status = status.max(finish_file(rt, file, wish.is_dry));
    }
    Ok(status)
}

// What becomes of files.
fn plan_files<R: AllocGlobal + Files + Eprint>(
    rt: &R,
    files: &[FileHeadings],
    wish: &Wish,
) -> Result<PlannedFiles, AllocError> {
    let mut planned = PlannedFiles {
        files: Vec::new(rt.alloc()),
        status: 0,
    };
    for named in files {
        match plan_file(rt, named, wish) {
            Ok(file) => planned.files.push(file)?,
            Err(status) => planned.status = planned.status.max(status),
        }
    }
    Ok(planned)
}

// What becomes of a file; where its headings can't be changed, it is said why, and the exit status comes.
fn plan_file<R: AllocGlobal + Files + Eprint>(
    rt: &R,
    named: &FileHeadings,
    wish: &Wish,
) -> Result<PlannedFile, u8> {
    let heading = heading_at(rt, &named.first, wish)?;
    match planned_change(rt, &heading, named.lines.as_slice()) {
        Ok(change) => Ok(PlannedFile { heading, change }),
        Err(status) => Err(status),
    }
}

// What becomes of the headings on some lines.
fn planned_change<R: AllocGlobal + Eprint>(
    rt: &R,
    heading: &HeadingText,
    lines: &[u64],
) -> Result<PlannedChange, u8> {
    match new_text(rt, heading, lines) {
        Ok(new) => told_change(rt, heading, lines, new),
        Err(why) => Err(report_refused(rt, heading, lines, why)),
    }
}

fn told_change<R: AllocGlobal + Eprint>(
    rt: &R,
    heading: &HeadingText,
    lines: &[u64],
    new: String,
) -> Result<PlannedChange, u8> {
    match told_lines(rt.alloc(), heading, lines, new.as_str()) {
        Ok(told) => Ok(PlannedChange { told, text: new }),
        Err(_) => Err(out_of_memory(rt)),
    }
}

// The text that the file gets.
fn new_text<R: AllocGlobal>(
    rt: &R,
    heading: &HeadingText,
    lines: &[u64],
) -> Result<String, Unamended> {
    match heading.traced_text(rt, lines) {
        Ok(new) => Ok(new),
        Err(why) => Err(Unamended::Refused(why)),
    }
}

// Says why headings aren't changed, by the first one that is refused, and gives the exit status.
fn report_refused<R: AllocGlobal + Eprint>(
    rt: &R,
    heading: &HeadingText,
    lines: &[u64],
    why: Unamended,
) -> u8 {
    let line = refused_line(rt, heading, lines);
    say_unamended(rt, heading, line, &why);
    let status = unamended_status(&why);
    if lines.len() > 1 && status != STOPPED {
        say_unchanged(rt, heading, line);
    }
    status
}

// The first line for whose heading the act is refused.
fn refused_line<R: AllocGlobal>(rt: &R, heading: &HeadingText, lines: &[u64]) -> u64 {
    for line in lines {
        if is_refused(rt, heading, *line) {
            return *line;
        }
    }
    heading.line
}

// Whether the act is refused for the heading on a line.
fn is_refused<R: AllocGlobal>(rt: &R, heading: &HeadingText, line: u64) -> bool {
    match new_text(rt, heading, slice::from_ref(&line)) {
        Ok(_text) => false,
        Err(_why) => true,
    }
}

// Writes what was planned of a file, if it isn't only tried out, and prints it.
fn finish_file<R: AllocGlobal + Clock + Env + Files<File = File> + Print + Eprint>(
    rt: &R,
    file: &PlannedFile,
    is_dry: bool,
) -> u8 {
    let name = file.heading.name.as_str();
    if is_dry {
        return print_all(rt, file.change.told.as_slice(), 0);
    }
    match open(rt, name) {
        Ok(mut opened) => write_file(rt, file, &mut opened.disk),
        Err(why) => report_unfit(rt, name, &why),
    }
}

fn write_file<R: AllocGlobal + Clock + Env + Files<File = File> + Print + Eprint>(
    rt: &R,
    file: &PlannedFile,
    disk: &mut Disk<'_, R>,
) -> u8 {
    let heading = &file.heading;
    let told = file.change.told.as_slice();
    let new = file.change.text.as_str();
    if new == heading.text.as_str() {
        say_of(rt, heading.name.as_str(), ALREADY);
        return print_all(rt, told, 0);
    }
    let ending = carry_out_shown(rt, disk, heading, &heading.rewriting(new), told);
    if let Some(saved) = ending.saved {
        say_saved(rt, heading.name.as_str(), saved, disk.rescue());
    }
    ending.status
}

//! The arguments of commands that change files.

use crate::option_lines::{with_options, word, words};
use clap::Command;
use std::alloc::{AllocError, Global};

// Lines of options.
const OF_ACTS: &str = "\
;match;EXPR;The heading of which the expression holds, in place of PLACE
;all;;With --match: all headings of which the expression holds, up to 1000
;dry-run;;Nothing is written; the same is printed";

const OF_KEYWORDS: &str = "\
;keyword;KEYWORD;The keyword, as of several headings
;note;TEXT;A note, which stands below the log line";

const OF_DATES: &str = ";note;TEXT;A note, which stands below the log line";

const OF_CLOCK_IN: &str = "\
;match;EXPR;The heading of which the expression holds, in place of PLACE
;switch;;The clock that runs is ended first
;dry-run;;Nothing is written; the same is printed";

const OF_CLOCK_OUT: &str = ";dry-run;;Nothing is written; the same is printed";

const OF_ADD: &str = "\
t;todo;KEYWORD;Its keyword, one of the file's
;tag;TAG;A tag; there may be several
;priority;X;Its priority: a letter, or a number 0 to 64
;scheduled;DATE;When it is scheduled, as of schedule
;deadline;DATE;Its deadline, as of deadline
;under;PLACE;The heading below which it goes, as FILE:LINE or a short id
;dry-run;;Nothing is written; the same is printed";

const OF_TAG: &str = ";without;TAG;A tag that goes; -TAG says the same";

const OF_UNDO: &str = "\
;list;;What would be taken back, the newest first; nothing is written
;dry-run;;Nothing is written; the same is printed";

/// Those that change files, after others.
pub fn with_acts<'a>(alloc: Global, command: Command<'a>) -> Result<Command<'a>, AllocError> {
    command
        .subcommand(act_done(alloc)?)?
        .subcommand(act_set(alloc)?)?
        .subcommand(act_schedule(alloc)?)?
        .subcommand(act_deadline(alloc)?)?
        .subcommand(act_tag(alloc)?)?
        .subcommand(act_priority(alloc)?)?
        .subcommand(act_property(alloc)?)?
        .subcommand(act_note(alloc)?)?
        .subcommand(act_add(alloc)?)?
        .subcommand(act_undo(alloc)?)
}

/// What is said of the clock that runs, and done to it, in place of a table.
pub fn with_clock_acts<'a>(alloc: Global, clock: Command<'a>) -> Result<Command<'a>, AllocError> {
    clock
        .args_conflicts_with_subcommands(true)
        .disable_help_subcommand(true)
        .subcommand(clock_in(alloc)?)?
        .subcommand(clock_out(alloc, "out", "The clock that runs ends")?)?
        .subcommand(clock_out(alloc, "cancel", "The clock that runs is taken away")?)?
        .subcommand(Command::new(alloc, "status").about("The clock that runs, for a status bar"))
}

fn clock_in<'a>(alloc: Global) -> Result<Command<'a>, AllocError> {
    let place = word(
        alloc,
        "PLACE",
        "The heading, as FILE:LINE or a short id; or --match names it",
    );
    let begin = Command::new(alloc, "in").about("A clock of a heading begins");
    with_options(alloc, begin.arg(place)?, OF_CLOCK_IN, false)
}

fn clock_out<'a>(
    alloc: Global,
    name: &'static str,
    about: &'static str,
) -> Result<Command<'a>, AllocError> {
    let end = Command::new(alloc, name).about(about);
    with_options(alloc, end, OF_CLOCK_OUT, false)
}

fn act_done<'a>(alloc: Global) -> Result<Command<'a>, AllocError> {
    let done = Command::new(alloc, "done").about(
        "Headings of files are done: they get a done keyword, or their stamps shift",
    );
    with_place(
        alloc,
        done,
        "The done keyword, without it the first one of the heading's; or another heading",
    )
}

fn act_set<'a>(alloc: Global) -> Result<Command<'a>, AllocError> {
    let set = Command::new(alloc, "set").about("Headings of files get a keyword");
    with_place(
        alloc,
        set,
        "The keyword, or another heading; none takes the keyword away",
    )
}

// What names headings and a keyword.
fn with_place<'a>(
    alloc: Global,
    command: Command<'a>,
    keyword: &'static str,
) -> Result<Command<'a>, AllocError> {
    let place = word(
        alloc,
        "PLACE",
        "The heading, as FILE:LINE or a short id; with --match the keyword stands here",
    );
    let command = command.arg(place)?.arg(word(alloc, "KEYWORD", keyword))?;
    let more = words(alloc, "MORE", "More headings");
    let command = with_options(alloc, command.arg(more)?, OF_KEYWORDS, false)?;
    with_options(alloc, command, OF_ACTS, false)
}

fn act_schedule<'a>(alloc: Global) -> Result<Command<'a>, AllocError> {
    let schedule = Command::new(alloc, "schedule").about(
        "Headings of files are scheduled for a date, or no longer",
    );
    with_date(alloc, schedule)
}

fn act_deadline<'a>(alloc: Global) -> Result<Command<'a>, AllocError> {
    let deadline = Command::new(alloc, "deadline").about(
        "Headings of files get a deadline, or lose it",
    );
    with_date(alloc, deadline)
}

fn act_tag<'a>(alloc: Global) -> Result<Command<'a>, AllocError> {
    let tag = Command::new(alloc, "tag").about("Headings of files get tags, and lose tags");
    let tag = with_options(alloc, tag, OF_TAG, false)?;
    with_words(
        alloc,
        tag,
        "The headings, as FILE:LINE or short ids, and then tags: +TAG comes, -TAG goes",
    )
}

fn act_priority<'a>(alloc: Global) -> Result<Command<'a>, AllocError> {
    let priority = Command::new(alloc, "priority").about("Headings of files get a priority");
    with_words(
        alloc,
        priority,
        "The headings, as FILE:LINE or short ids, and then the priority; none takes it away",
    )
}

fn act_property<'a>(alloc: Global) -> Result<Command<'a>, AllocError> {
    let property = Command::new(alloc, "property").about(
        "Headings of files get a property, or lose it",
    );
    with_words(
        alloc,
        property,
        "The headings, as FILE:LINE or short ids, and then NAME=VALUE; NAME= takes it away",
    )
}

fn act_note<'a>(alloc: Global) -> Result<Command<'a>, AllocError> {
    let note = Command::new(alloc, "note").about("A heading gets a note in its log");
    with_words(
        alloc,
        note,
        "The heading, as FILE:LINE or a short id, and then the note; - for standard input",
    )
}

// What names headings, and what they get.
fn with_words<'a>(
    alloc: Global,
    command: Command<'a>,
    help: &'static str,
) -> Result<Command<'a>, AllocError> {
    let command = command.arg(words(alloc, "MORE", help))?;
    with_options(alloc, command, OF_ACTS, false)
}

fn act_add<'a>(alloc: Global) -> Result<Command<'a>, AllocError> {
    let add = Command::new(alloc, "add").about(
        "A new heading, behind all others of a file or below one",
    );
    let title = words(
        alloc,
        "TITLE",
        "Its title; with - at the end standard input is its body",
    );
    with_options(alloc, add.arg(title)?, OF_ADD, false)
}

fn act_undo<'a>(alloc: Global) -> Result<Command<'a>, AllocError> {
    let undo = Command::new(alloc, "undo").about("The last change of a file is taken back");
    let file = word(
        alloc,
        "FILE",
        "The file, or a folder; without it the one that was changed last",
    );
    with_options(alloc, undo.arg(file)?, OF_UNDO, false)
}

// What names headings and a date.
fn with_date<'a>(alloc: Global, command: Command<'a>) -> Result<Command<'a>, AllocError> {
    let place = word(
        alloc,
        "PLACE",
        "The heading, as FILE:LINE or a short id; with --match the date stands here",
    );
    let date = word(
        alloc,
        "DATE",
        "The date, behind the last heading: tomorrow, fri, +3d, 2024-02-28; none takes it away",
    );
    let time = word(alloc, "TIME", "A time of that day: 9:30, 9:30-10:15");
    let command = command.arg(place.allow_hyphen_values(true))?;
    let command = command.arg(date.allow_hyphen_values(true))?.arg(time)?;
    let more = words(
        alloc,
        "MORE",
        "Words behind these: headings, the date, a time",
    );
    let command = with_options(alloc, command.arg(more)?, OF_DATES, false)?;
    with_options(alloc, command, OF_ACTS, false)
}

//! The rows of a log.
ghost use Rattle.std.specs.Prelude.{◌≡◌, filter, is_some, IsOkUnless};
ghost use Rattle.org_base.specs.Codes.{memory_fault};
ghost use Rattle.org_base.specs.Results.{Adds, GivesItems};
ghost use Rattle.org_client.specs.LogRows.{GivesLog, chosen_log, file_log, files_log, is_of_log, log_meeting, log_of_choice, log_of_text, shown_from};

use crate::file_set::FileSet;
use crate::matching::{HeldFile, held_files, holds_at};
use org_base::Fault;
use org_cal::Moment;
use org_entry::Entry;
use org_inherit::{Inherit, Inherits};
use org_match::Match;
use org_text::Text;
use org_trace::{LogFile, LogQuery, LogRow, by_time, push_log};
use std::alloc::{AllocError, Global};

/// What of a log is shown: days and kinds, and the expressions that have to hold of a heading at a moment.
#[derive(Clone, Copy, Debug)]
pub struct LogChoice<'a> {
    pub asked: &'a LogQuery,
    pub expressions: &'a [Match],
    pub moment: Moment,
}

/// What is logged of the headings of all files that aren't hidden and of which each expression holds, by day and time; of one
/// time in the order of files and lines. Each file is passed over once.
pub fn log_rows<T: Text>(
    alloc: Global,
    file_set: &FileSet<T>,
    inherits: &Inherits<'_>,
    choice: &LogChoice<'_>,
) -> Result<Vec<LogRow>, Fault>
    ensures value { GivesLog result (log_of_choice choice.now file_set.now.files inherits.now) }
{
    let all = all_rows(alloc, file_set, inherits, choice.asked)?;
    let some = matching_rows(alloc, inherits, all, choice.expressions, &choice.moment)?;
    Ok(by_time(some)?)
}

// What is logged of all headings that aren't hidden.
fn all_rows<T: Text>(
    alloc: Global,
    file_set: &FileSet<T>,
    inherits: &Inherits<'_>,
    asked: &LogQuery,
) -> Result<Vec<LogRow>, Fault>
    ensures value { GivesItems result (files_log asked.now file_set.now.files 0 inherits.now) }
    ensures memory { IsOkUnless result memory_fault }
{
    let mut rows = Vec::new(alloc);
    for file in 0..inherits.count() {
        let of = LoggedFile {
            file,
            inherit: inherits.get(file),
            asked,
        };
        push_file(alloc, &mut rows, file_set, &of)?;
    }
    Ok(rows)
}

// A file, what its headings inherit, and what is asked of it.
#[derive(Clone, Copy)]
struct LoggedFile<'a, 'b> {
    file: usize,
    inherit: &'a Inherit<'b>,
    asked: &'a LogQuery,
}

// Puts the rows of a file after others, if it is there.
fn push_file<T: Text>(
    alloc: Global,
    rows: &mut Vec<LogRow>,
    file_set: &FileSet<T>,
    of: &LoggedFile<'_, '_>,
) -> Result<(), Fault>
    ensures ok { Adds result rows.old rows.new (file_log of.now file_set.now.files) }
    ensures memory { IsOkUnless result memory_fault }
{
    if of.file >= file_set.count() {
        return Ok(());
    }
    push_text(alloc, rows, file_set.file(of.file).text(), of)
}

// Puts the rows of a file of this text after others.
fn push_text<T: Text>(
    alloc: Global,
    rows: &mut Vec<LogRow>,
    text: &T,
    of: &LoggedFile<'_, '_>,
) -> Result<(), Fault>
    ensures ok { Adds result rows.old rows.new (log_of_text of.now (T.content text.now)) }
    ensures memory { IsOkUnless result memory_fault }
{
    let shown = shown_flags(alloc, of.inherit)?;
    let log_file = LogFile {
        file: of.file,
        settings: of.inherit.settings(),
        shown: shown.as_slice(),
        asked: of.asked,
    };
    push_log(alloc, rows, text, &log_file)
}

// Of each entry of a file whether its log is shown: it is a heading that isn't hidden.
fn shown_flags(alloc: Global, inherit: &Inherit<'_>) -> Result<Vec<bool>, AllocError>
    ensures value { GivesItems result (shown_from inherit.now.entries 0 inherit.now.entries) }
{
    let mut shown = Vec::new(alloc);
    for place in 0..inherit.outline().count() {
        shown.push(is_heading(inherit.outline().entry(place)) && !inherit.hidden(place))?;
    }
    Ok(shown)
}

fn is_heading(entry: &Entry) -> bool
    ensures value { result ≡ is_some entry.now.head }
{
    entry.head.is_some()
}

// Those of some rows of whose headings each of these expressions holds.
fn matching_rows(
    alloc: Global,
    inherits: &Inherits<'_>,
    rows: Vec<LogRow>,
    expressions: &[Match],
    moment: &Moment,
) -> Result<Vec<LogRow>, Fault>
    ensures value { GivesItems result (chosen_log expressions.now moment.now inherits.now rows.items) }
{
    let mut some = rows;
    for expression in expressions {
        some = rows_meeting(alloc, inherits, some.as_slice(), expression, moment)?;
    }
    Ok(some)
}

// Those of some rows of whose headings an expression holds.
fn rows_meeting(
    alloc: Global,
    inherits: &Inherits<'_>,
    rows: &[LogRow],
    expression: &Match,
    moment: &Moment,
) -> Result<Vec<LogRow>, Fault>
    ensures value { GivesItems result (log_meeting expression.now moment.now inherits.now rows.now) }
{
    let held = held_files(alloc, inherits, expression, moment)?;
    Ok(rows_held(alloc, rows, held.as_slice())?)
}

fn rows_held(alloc: Global, rows: &[LogRow], held: &[HeldFile]) -> Result<Vec<LogRow>, AllocError>
    ensures value { GivesItems result (filter (is_of_log held.now) rows.now) }
{
    let mut some = Vec::new(alloc);
    for row in rows {
        if is_held(held, row) {
            some.push(*row)?;
        }
    }
    Ok(some)
}

fn is_held(held: &[HeldFile], row: &LogRow) -> bool
    ensures value { result ≡ is_of_log held.now row.now }
{
    match held.get(row.file) {
        Some(file) => holds_at(file, row.heading),
        None => false,
    }
}

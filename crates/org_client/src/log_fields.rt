//! Rows of a log as fields between commas.
ghost use Rattle.std.specs.Prelude.{◌≡◌, ◌++◌, OnOk};
ghost use Rattle.org_base.specs.Results.{Gives, GivesText};
ghost use Rattle.org_client.specs.Fields.{next_field};
ghost use Rattle.org_client.specs.LogFields.{found_back, found_front, found_log, heading_label, log_fields, log_times};

use crate::fields::{next, push_parts, push_priority, push_tags};
use crate::log_labels::log_label;
use crate::log_members::event_name;
use crate::one_line::OneLine;
use crate::rows::LoadReport;
use org_base::Fault;
use org_base::words::trim_end;
use org_cal::push_time;
use org_inherit::Heading;
use org_text::Text;
use org_trace::{LogEntry, LogRow};
use std::alloc::{AllocError, Global};

/// The fields of a row of a log, which are those of a row of a day: its date is its day, and its time that of the line.
pub(crate) fn log_fields<T: Text>(
    alloc: Global,
    files: &LoadReport<'_, '_, T>,
    row: &LogRow,
) -> Result<OneLine, Fault>
    ensures value { Gives result (log_fields files.now.scopes row.now) }
{
    let mut line = OneLine::new(alloc);
    push_log(alloc, &mut line, files, row)?;
    Ok(line)
}

// Appends those of a row; nothing where its heading isn't there.
fn push_log<T: Text>(
    alloc: Global,
    line: &mut OneLine,
    files: &LoadReport<'_, '_, T>,
    row: &LogRow,
) -> Result<(), Fault>
    ensures ok { OnOk result (line.new ≡ line.old ++ log_fields files.now.scopes row.now) }
{
    if let Some(heading) = Heading::find(files.inherits, row.file, row.heading) {
        push_found(alloc, line, &heading, &row.entry)?;
    }
    Ok(())
}

fn push_found(
    alloc: Global,
    line: &mut OneLine,
    heading: &Heading<'_, '_>,
    entry: &LogEntry,
) -> Result<(), Fault>
    ensures ok { OnOk result (line.new ≡ line.old ++ found_log heading.now entry.now) }
{
    push_front(alloc, line, heading, entry)?;
    push_back(alloc, line, heading, entry)?;
    Ok(())
}

// What is said of the heading.
fn push_front(
    alloc: Global,
    line: &mut OneLine,
    heading: &Heading<'_, '_>,
    entry: &LogEntry,
) -> Result<(), Fault>
    ensures ok { OnOk result (line.new ≡ line.old ++ found_front heading.now entry.now) }
{
    line.field(heading.category())?;
    next(line, heading.title())?;
    next(line, event_name(entry.event).as_bytes())?;
    next(line, heading.keyword().unwrap_or(&[]))?;
    push_tags(alloc, line, heading)
}

// When it was.
fn push_back(
    alloc: Global,
    line: &mut OneLine,
    heading: &Heading<'_, '_>,
    entry: &LogEntry,
) -> Result<(), AllocError>
    ensures ok { OnOk result (line.new ≡ line.old ++ found_back heading.now entry.now) }
{
    push_parts(alloc, line, Some(entry.day))?;
    push_times(alloc, line, entry)?;
    push_label(alloc, line, heading, entry)?;
    push_priority(alloc, line, heading)?;
    push_parts(alloc, line, Some(entry.day))
}

fn push_times(alloc: Global, line: &mut OneLine, entry: &LogEntry) -> Result<(), AllocError>
    ensures ok { OnOk result (line.new ≡ line.old ++ next_field (log_times entry.now)) }
{
    let times = times_of(alloc, entry)?;
    next(line, times.as_bytes())
}

// When it was, and a dash and the end of a clock.
fn times_of(alloc: Global, entry: &LogEntry) -> Result<String, AllocError>
    ensures value { GivesText result (log_times entry.now) }
{
    let mut times = String::new(alloc);
    if let Some(start) = entry.time {
        push_time(&mut times, start)?;
    }
    if let Some(end) = entry.end_time() {
        times.push_str("-")?;
        push_time(&mut times, end)?;
    }
    Ok(times)
}

// What Org's log mode shows before the heading, without white space behind it.
fn push_label(
    alloc: Global,
    line: &mut OneLine,
    heading: &Heading<'_, '_>,
    entry: &LogEntry,
) -> Result<(), AllocError>
    ensures ok { OnOk result (line.new ≡ line.old ++ heading_label heading.now entry.now) }
{
    let label = log_label(alloc, heading.inherit.settings(), entry)?;
    next(line, trim_end(label.as_slice()))
}

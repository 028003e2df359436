//! What is said of a row of a log, member by member.
ghost use Rattle.std.specs.Prelude.{◌≡◌};
ghost use Rattle.org_client.specs.LogMembers.{before_member, change_members, clocked_members, event_name, line_member, log_line_members, log_members, log_when_members, logged_members, logged_members_of, of_change, of_clock};
ghost use Rattle.org_client.specs.KeptHeadings.{StandsIn};
ghost use Rattle.org_client.specs.Members.{Puts};

use crate::kept_headings::KeptHeadings;
use crate::members::Members;
use crate::row_members::{put_file, put_minute, put_whole};
use crate::rows::LoadReport;
use org_base::Fault;
use org_inherit::Heading;
use org_settings::Settings;
use org_text::Text;
use org_trace::{LogEntry, LogEvent, LogRow, StateChange};
use std::alloc::{AllocError, Global};

/// The name of a kind of rows of a log.
pub(crate) fn event_name(event: LogEvent) -> &'static str
    ensures value { result.now ≡ event_name event }
{
    match event {
        LogEvent::Closed => "closed",
        LogEvent::State(_) => "state",
        LogEvent::Clock(_) => "clock",
    }
}

/// Puts when something was logged, where its line stands, what it says, and what its heading says.
pub(crate) fn put_log<T: Text>(
    alloc: Global,
    to: &mut Members<'_>,
    files: &LoadReport<'_, '_, T>,
    row: &LogRow,
) -> Result<(), Fault>
    ensures ok { Puts result to.old to.new (log_members to.old.only files.now row.now) }
{
    put_when(alloc, to, &row.entry)?;
    put_line(to, files, row)?;
    put_heading(alloc, to, files, row)
}

// The day and the times; of a clock the minutes too at which it began and ended, and those between.
fn put_when(alloc: Global, to: &mut Members<'_>, entry: &LogEntry) -> Result<(), AllocError>
    ensures ok { Puts result to.old to.new (log_when_members to.old.only entry.now) }
{
    to.date("day", Some(entry.day))?;
    to.time("start", entry.time)?;
    to.time("end", entry.end_time())?;
    put_clock(alloc, to, entry)
}

fn put_clock(alloc: Global, to: &mut Members<'_>, entry: &LogEntry) -> Result<(), AllocError>
    ensures ok { Puts result to.old to.new (clocked_members to.old.only entry.now entry.now.event) }
{
    match entry.event {
        LogEvent::Closed | LogEvent::State(_) => Ok(()),
        LogEvent::Clock(end) => put_clocked(alloc, to, entry, end),
    }
}

// When a clock began and ended, and the minutes between.
fn put_clocked(
    alloc: Global,
    to: &mut Members<'_>,
    entry: &LogEntry,
    end: Option<u64>,
) -> Result<(), AllocError>
    ensures ok { Puts result to.old to.new (of_clock to.old.only entry.now end) }
{
    put_minute(alloc, to, "from", Some(entry.minute()))?;
    put_minute(alloc, to, "to", end)?;
    to.number("minutes", entry.minutes())
}

// The file, the line and the first byte of the line.
fn put_line<T: Text>(
    to: &mut Members<'_>,
    files: &LoadReport<'_, '_, T>,
    row: &LogRow,
) -> Result<(), AllocError>
    ensures ok { Puts result to.old to.new (log_line_members to.old.only files.now row.now) }
{
    put_file(to, files, row.file)?;
    put_number(to, files, row)?;
    to.number("byte", u64::from(row.at))
}

fn put_number<T: Text>(
    to: &mut Members<'_>,
    files: &LoadReport<'_, '_, T>,
    row: &LogRow,
) -> Result<(), AllocError>
    ensures ok { Puts result to.old to.new (line_member to.old.only files.now.starts row.now) }
{
    match files.line_place(row.file, u64::from(row.at)) {
        Some(place) => to.number("line", place.line as u64),
        None => Ok(()),
    }
}

// What the row says of its heading's keyword, and what the heading says.
fn put_heading<T: Text>(
    alloc: Global,
    to: &mut Members<'_>,
    files: &LoadReport<'_, '_, T>,
    row: &LogRow,
) -> Result<(), Fault>
    ensures ok { Puts result to.old to.new (logged_members to.old.only files.now.scopes row.now) }
{
    if let Some(heading) = Heading::find(files.inherits, row.file, row.heading) {
        put_found(alloc, to, &files.kept, &heading, row.entry.event)?;
    }
    Ok(())
}

fn put_found(
    alloc: Global,
    to: &mut Members<'_>,
    kept: &KeptHeadings<'_, '_>,
    heading: &Heading<'_, '_>,
    event: LogEvent,
) -> Result<(), Fault>
    requires there { StandsIn kept.now heading.now }
    ensures ok { Puts result to.old to.new (logged_members_of to.old.only event heading.now) }
{
    put_change(to, heading.inherit.settings(), event)?;
    put_whole(alloc, to, kept, heading)
}

// The keyword that a heading got, and the one that it had.
fn put_change(to: &mut Members<'_>, settings: &Settings, event: LogEvent) -> Result<(), AllocError>
    ensures ok { Puts result to.old to.new (change_members to.old.only settings.now.keywords event) }
{
    match event {
        LogEvent::Closed | LogEvent::Clock(_) => Ok(()),
        LogEvent::State(change) => put_state(to, settings, change),
    }
}

fn put_state(
    to: &mut Members<'_>,
    settings: &Settings,
    change: StateChange,
) -> Result<(), AllocError>
    ensures ok { Puts result to.old to.new (of_change to.old.only settings.now.keywords change) }
{
    to.text("state", settings.keyword_word(change.to))?;
    put_before(to, settings, change.from)
}

fn put_before(
    to: &mut Members<'_>,
    settings: &Settings,
    from: Option<usize>,
) -> Result<(), AllocError>
    ensures ok { Puts result to.old to.new (before_member to.old.only settings.now.keywords from) }
{
    match from {
        Some(place) => to.text("state_before", settings.keyword_word(place)),
        None => Ok(()),
    }
}

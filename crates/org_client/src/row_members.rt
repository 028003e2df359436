//! What is said of a row, member by member.
ghost use Rattle.std.specs.Prelude.{◌≡◌};
ghost use Rattle.org_client.specs.HeadingMembers.{head_members_of, heading_members_of, keyword_members_of, whole_members_of};
ghost use Rattle.org_client.specs.KeptHeadings.{StandsIn};
ghost use Rattle.org_client.specs.Members.{Puts};
ghost use Rattle.org_client.specs.PlaceMembers.{file_member, minute_member};
ghost use Rattle.org_client.specs.RowMembers.{clock_members, members_at, kind_name, kind_of, line_members, members_of, minutes_members, of_members, place_members, row_members, row_numbers, said_members, stamp_if, stamp_line_in, stamp_members, step_members, sum_members, when_members};

use crate::clocks::push_clock_minute;
use crate::details::put_details;
use crate::kept_headings::KeptHeadings;
use crate::log_members::{event_name, put_log};
use crate::members::Members;
use crate::rows::{LoadReport, ShownClock, ShownSum, ViewRow};
use org_agenda::{Row, RowKind};
use org_base::Fault;
use org_clocktable::{Of, TableRow};
use org_inherit::Heading;
use org_layout::ShownRow;
use org_store::Place;
use org_text::Text;
use std::alloc::{AllocError, Global};

/// The name of a row's kind.
pub(crate) fn kind_of(row: &ViewRow) -> &'static str
    ensures value { result.now ≡ kind_of row.now }
{
    match row {
        ViewRow::Row(shown) => kind_name(shown.row.kind),
        ViewRow::Sum(shown) => match shown.row.of {
            Of::All => "total",
            Of::File(_) => "file",
            Of::Heading(..) => "heading",
        },
        ViewRow::Clock(_) => "clock",
        ViewRow::Log(row) => event_name(row.entry.event),
    }
}

// The name of a kind of rows of days and lists.
fn kind_name(kind: RowKind) -> &'static str
    ensures value { result.now ≡ kind_name kind }
{
    match kind {
        RowKind::Listed => "listed",
        RowKind::OnDay => "stamp",
        RowKind::InRange => "range",
        RowKind::OnSchedule => "scheduled",
        RowKind::LateSchedule => "late-scheduled",
        RowKind::OnDeadline => "deadline",
        RowKind::Warning => "warning",
        RowKind::LateDeadline => "late-deadline",
    }
}

/// Puts what is said of a row beside its kind and its line: those members that apply, in their order.
pub fn put_members<T: Text>(
    alloc: Global,
    to: &mut Members<'_>,
    files: &LoadReport<'_, '_, T>,
    row: &ViewRow,
) -> Result<(), Fault>
    ensures ok { Puts result to.old to.new (members_of to.old.only files.now row.now) }
{
    match row {
        ViewRow::Row(shown) => put_row(alloc, to, files, shown),
        ViewRow::Sum(shown) => put_sum(to, files, shown),
        ViewRow::Clock(shown) => put_clock(alloc, to, files, shown),
        ViewRow::Log(row) => put_log(alloc, to, files, row),
    }
}

// When a row is, where its heading stands, and where its stamp does, if it is one of a day; then what its heading says.
fn put_row<T: Text>(
    alloc: Global,
    to: &mut Members<'_>,
    files: &LoadReport<'_, '_, T>,
    shown: &ShownRow,
) -> Result<(), Fault>
    ensures ok { Puts result to.old to.new (row_members to.old.only files.now shown.now) }
{
    let row = &shown.row;
    put_when(to, shown)?;
    put_place(to, files, row.file, row.heading)?;
    put_stamp_if(to, files, shown)?;
    put_said(alloc, to, files, row)
}

// The day, the times and the numbers of a row.
fn put_when(to: &mut Members<'_>, shown: &ShownRow) -> Result<(), AllocError>
    ensures ok { Puts result to.old to.new (when_members to.old.only shown.now) }
{
    to.date("day", shown.day)?;
    to.time("start", shown.row.start)?;
    to.time("end", shown.row.end)?;
    put_numbers(to, &shown.row)
}

// The days of a late row or a warning, and the numbers of a range.
fn put_numbers(to: &mut Members<'_>, row: &Row) -> Result<(), AllocError>
    ensures ok { Puts result to.old to.new (row_numbers to.old.only row.now) }
{
    match row.kind {
        RowKind::InRange => {
            to.number("day_of", u64::from(row.number))?;
            to.number("days_in", u64::from(row.of))
        }
        RowKind::LateSchedule | RowKind::Warning | RowKind::LateDeadline => {
            to.number("days", u64::from(row.number))
        }
        RowKind::Listed | RowKind::OnDay | RowKind::OnSchedule | RowKind::OnDeadline => Ok(()),
    }
}

// The name of a file, and where a section of it begins.
fn put_place<T: Text>(
    to: &mut Members<'_>,
    files: &LoadReport<'_, '_, T>,
    file: usize,
    heading: usize,
) -> Result<(), AllocError>
    ensures ok { Puts result to.old to.new (place_members to.old.only files.now.files file heading) }
{
    match files.file_set.place(file, heading) {
        Some(place) => put_line(to, files, file, place),
        None => Ok(()),
    }
}

fn put_line<T: Text>(
    to: &mut Members<'_>,
    files: &LoadReport<'_, '_, T>,
    file: usize,
    place: Place,
) -> Result<(), AllocError>
    ensures ok { Puts result to.old to.new (line_members to.old.only files.now.files file place) }
{
    put_file(to, files, file)?;
    to.number("line", u64::from(place.line))?;
    to.number("byte", u64::from(place.at))
}

/// Puts the name of a file, if it is there.
pub(crate) fn put_file<T: Text>(
    to: &mut Members<'_>,
    files: &LoadReport<'_, '_, T>,
    file: usize,
) -> Result<(), AllocError>
    ensures ok { Puts result to.old to.new (file_member to.old.only files.now.files file) }
{
    if file >= files.file_set.count() {
        return Ok(());
    }
    to.text("file", files.file_set.file(file).name().as_bytes())
}

// Where the stamp of a row stands, if the row is one of a day.
fn put_stamp_if<T: Text>(
    to: &mut Members<'_>,
    files: &LoadReport<'_, '_, T>,
    shown: &ShownRow,
) -> Result<(), AllocError>
    ensures ok { Puts result to.old to.new (stamp_if to.old.only files.now shown.now) }
{
    if shown.day.is_some() {
        put_stamp(to, files, &shown.row)?;
    }
    Ok(())
}

// Where the stamp of a day's row stands in its file: its byte, its line and the byte of that line.
fn put_stamp<T: Text>(
    to: &mut Members<'_>,
    files: &LoadReport<'_, '_, T>,
    row: &Row,
) -> Result<(), AllocError>
    ensures ok { Puts result to.old to.new (stamp_members to.old.only files.now row.now) }
{
    let Some(place) = files.file_set.place(row.file, row.heading) else {
        return Ok(());
    };
    let at = u64::from(place.at).saturating_add(row.stamp_at as u64);
    to.number("stamp", at)?;
    put_stamp_line(to, files, row.file, at)
}

fn put_stamp_line<T: Text>(
    to: &mut Members<'_>,
    files: &LoadReport<'_, '_, T>,
    file: usize,
    at: u64,
) -> Result<(), AllocError>
    ensures ok { Puts result to.old to.new (stamp_line_in to.old.only files.now.starts file at) }
{
    let Some(place) = files.line_place(file, at) else {
        return Ok(());
    };
    to.number("stamp_line", place.line as u64)?;
    to.number("stamp_column", place.column)
}

// What the heading of a row says.
fn put_said<T: Text>(
    alloc: Global,
    to: &mut Members<'_>,
    files: &LoadReport<'_, '_, T>,
    row: &Row,
) -> Result<(), Fault>
    ensures ok { Puts result to.old to.new (said_members to.old.only files.now.scopes row.now) }
{
    if let Some(heading) = Heading::find(files.inherits, row.file, row.heading) {
        put_whole(alloc, to, &files.kept, &heading)?;
    }
    Ok(())
}

/// Puts what a heading's line says, and what stands beside it.
pub(crate) fn put_whole(
    alloc: Global,
    to: &mut Members<'_>,
    kept: &KeptHeadings<'_, '_>,
    heading: &Heading<'_, '_>,
) -> Result<(), Fault>
    requires there { StandsIn kept.now heading.now }
    ensures ok { Puts result to.old to.new (whole_members_of to.old.only heading.now) }
{
    put_heading(to, kept, heading)?;
    put_details(alloc, to, kept, heading)
}

// What a heading's line says.
fn put_heading(
    to: &mut Members<'_>,
    kept: &KeptHeadings<'_, '_>,
    heading: &Heading<'_, '_>,
) -> Result<(), Fault>
    requires there { StandsIn kept.now heading.now }
    ensures ok { Puts result to.old to.new (heading_members_of to.old.only heading.now) }
{
    to.text("category", heading.category())?;
    to.number("level", u64::from(heading.level()))?;
    put_keyword(to, heading)?;
    put_head(to, kept, heading)
}

fn put_keyword(to: &mut Members<'_>, heading: &Heading<'_, '_>) -> Result<(), AllocError>
    ensures ok { Puts result to.old to.new (keyword_members_of to.old.only heading.now) }
{
    let Some(keyword) = heading.keyword() else {
        return Ok(());
    };
    to.text("keyword", keyword)?;
    to.flag("done", heading.is_done())
}

fn put_head(
    to: &mut Members<'_>,
    kept: &KeptHeadings<'_, '_>,
    heading: &Heading<'_, '_>,
) -> Result<(), Fault>
    requires there { StandsIn kept.now heading.now }
    ensures ok { Puts result to.old to.new (head_members_of to.old.only heading.now) }
{
    if let Some(priority) = heading.priority() {
        to.text("priority", priority)?;
    }
    to.title(kept, heading)?;
    let tags = heading.tags()?;
    to.texts("tags", &tags)?;
    Ok(())
}

// The days of a row of a clock table, its sums in minutes, and what it is of.
fn put_sum<T: Text>(
    to: &mut Members<'_>,
    files: &LoadReport<'_, '_, T>,
    shown: &ShownSum,
) -> Result<(), Fault>
    ensures ok { Puts result to.old to.new (sum_members to.old.only files.now shown.now) }
{
    put_step(to, shown)?;
    put_minutes(to, &shown.row)?;
    put_of(to, files, shown.row.of)
}

fn put_step(to: &mut Members<'_>, shown: &ShownSum) -> Result<(), AllocError>
    ensures ok { Puts result to.old to.new (step_members to.old.only shown.now) }
{
    to.date("from", Some(shown.first))?;
    to.date("to", Some(shown.last))
}

fn put_minutes(to: &mut Members<'_>, row: &TableRow) -> Result<(), AllocError>
    ensures ok { Puts result to.old to.new (minutes_members to.old.only row.now) }
{
    to.number("clock", row.clock)?;
    to.number("effort", row.effort)
}

fn put_of<T: Text>(to: &mut Members<'_>, files: &LoadReport<'_, '_, T>, of: Of) -> Result<(), Fault>
    ensures ok { Puts result to.old to.new (of_members to.old.only files.now of) }
{
    match of {
        Of::All => Ok(()),
        Of::File(file) => Ok(put_file(to, files, file)?),
        Of::Heading(file, place, _) => {
            put_place(to, files, file, place)?;
            put_heading_at(to, files, file, place)
        }
    }
}

fn put_heading_at<T: Text>(
    to: &mut Members<'_>,
    files: &LoadReport<'_, '_, T>,
    file: usize,
    place: usize,
) -> Result<(), Fault>
    ensures ok { Puts result to.old to.new (members_at to.old.only files.now.scopes file place) }
{
    if let Some(heading) = Heading::find(files.inherits, file, place) {
        put_heading(to, &files.kept, &heading)?;
    }
    Ok(())
}

// When a clock began and ended, its minutes, where its line stands, and what its heading says.
fn put_clock<T: Text>(
    alloc: Global,
    to: &mut Members<'_>,
    files: &LoadReport<'_, '_, T>,
    shown: &ShownClock,
) -> Result<(), Fault>
    ensures ok { Puts result to.old to.new (clock_members to.old.only files.now shown.now) }
{
    let row = &shown.row;
    put_minute(alloc, to, "from", Some(row.from))?;
    put_minute(alloc, to, "to", row.to)?;
    to.number("minutes", row.minutes)?;
    put_line(to, files, row.file, shown.place)?;
    put_heading_at(to, files, row.file, row.heading)
}

/// Puts a minute as a date and a time, if there is one.
pub(crate) fn put_minute(
    alloc: Global,
    to: &mut Members<'_>,
    name: &str,
    minute: Option<u64>,
) -> Result<(), AllocError>
    ensures ok { Puts result to.old to.new (minute_member to.old.only name.now minute) }
{
    let Some(minute) = minute else {
        return Ok(());
    };
    let mut text = String::new(alloc);
    push_clock_minute(&mut text, minute)?;
    to.text(name, text.as_bytes())
}

//! Rows as fields between commas, those of Org's own batch agendas.
ghost use Rattle.std.specs.Prelude.{◌≡◌, ◌++◌, ◌*◌, ◌-◌, decimal, string_bytes, OnOk};
ghost use Rattle.org_base.specs.Results.{Gives, GivesText};
ghost use Rattle.org_cal.specs.Texts.{date_text};
ghost use Rattle.org_client.specs.Fields.{between, end_field, heading_priority, heading_tags, kind_field, next_field, parts_field, row_fields, row_label, spoken_of, start_field, when_fields};
ghost use Rattle.org_client.specs.Json.{field_text};
ghost use Rattle.org_client.specs.TableFields.{clock_fields, empty_fields, fields_of, line_text, minute_text, name_field, of_fields, place_fields, said_at, said_fields_of, sum_fields};

use crate::clocks::push_clock_minute;
use crate::log_fields::log_fields;
use crate::one_line::OneLine;
use crate::rows::{LoadReport, ShownClock, ShownSum, ViewRow};
use org_agenda::{Row, RowKind};
use org_base::Fault;
use org_cal::{Day, Unit, push_date, push_time};
use org_clocktable::Of;
use org_inherit::{Heading, tags_text};
use org_layout::ShownRow;
use org_store::Place;
use org_text::Text;
use std::alloc::{AllocError, Global};

/// The fields of a row. Those of a list or a day (Org manual 9.6, "Extracting Agenda Information") are category, title, kind,
/// keyword, tags, date, time, what stands before the heading, priority, its number, and the day; the kind of a list's rows is
/// named by the caller. Those of a clock table are the first and the last day of the table, the file, and the line, the level,
/// the title and the tags of its heading, each of which is empty where it doesn't apply; then the sums of clocks and of
/// efforts in minutes. Those of a clock line are the same but for efforts, with its beginning and end and its own line; those of
/// a log are those of a day.
pub fn csv_line<T: Text>(
    alloc: Global,
    files: &LoadReport<'_, '_, T>,
    row: &ViewRow,
    list: &str,
) -> Result<OneLine, Fault>
    ensures value { Gives result (fields_of files.now row.now list.now) }
{
    match row {
        ViewRow::Row(shown) => row_fields(alloc, files, shown, list),
        ViewRow::Sum(shown) => sum_fields(alloc, files, shown),
        ViewRow::Clock(shown) => clock_fields(alloc, files, shown),
        ViewRow::Log(row) => log_fields(alloc, files, row),
    }
}

// The fields of a row of a list or a day.
fn row_fields<T: Text>(
    alloc: Global,
    files: &LoadReport<'_, '_, T>,
    shown: &ShownRow,
    list: &str,
) -> Result<OneLine, Fault>
    ensures value { Gives result (row_fields files.now.scopes shown.now list.now) }
{
    let mut line = OneLine::new(alloc);
    let row = &shown.row;
    let Some(heading) = Heading::find(files.inherits, row.file, row.heading) else {
        return Ok(line);
    };
    line.field(heading.category())?;
    next(&mut line, heading.title())?;
    next(&mut line, kind_name(row.kind, list).as_bytes())?;
    next(&mut line, heading.keyword().unwrap_or(&[]))?;
    push_tags(alloc, &mut line, &heading)?;
    push_when(alloc, &mut line, shown)?;
    push_label(alloc, &mut line, row)?;
    push_priority(alloc, &mut line, &heading)?;
    push_parts(alloc, &mut line, shown.day)?;
    Ok(line)
}

// The fields of a row of a clock table.
fn sum_fields<T: Text>(
    alloc: Global,
    files: &LoadReport<'_, '_, T>,
    shown: &ShownSum,
) -> Result<OneLine, Fault>
    ensures value { Gives result (sum_fields files.now shown.now) }
{
    let mut line = OneLine::new(alloc);
    push_iso(alloc, &mut line, shown.first)?;
    line.push(b',')?;
    push_iso(alloc, &mut line, shown.last)?;
    push_of(alloc, &mut line, files, shown.row.of)?;
    push_number(alloc, &mut line, shown.row.clock)?;
    push_number(alloc, &mut line, shown.row.effort)?;
    Ok(line)
}

// The fields of a clock line.
fn clock_fields<T: Text>(
    alloc: Global,
    files: &LoadReport<'_, '_, T>,
    shown: &ShownClock,
) -> Result<OneLine, Fault>
    ensures value { Gives result (clock_fields files.now shown.now) }
{
    let row = &shown.row;
    let mut line = OneLine::new(alloc);
    push_minute(alloc, &mut line, Some(row.from))?;
    line.push(b',')?;
    push_minute(alloc, &mut line, row.to)?;
    push_name(&mut line, files, row.file)?;
    push_number(alloc, &mut line, u64::from(shown.place.line))?;
    push_heading(alloc, &mut line, files, row.file, row.heading)?;
    push_number(alloc, &mut line, row.minutes)?;
    Ok(line)
}

// Appends a minute as a field, as the first one or after a comma.
fn push_minute(alloc: Global, line: &mut OneLine, minute: Option<u64>) -> Result<(), AllocError>
    ensures ok { OnOk result (line.new ≡ line.old ++ field_text (minute_text minute)) }
{
    let mut text = String::new(alloc);
    if let Some(minute) = minute {
        push_clock_minute(&mut text, minute)?;
    }
    line.field(text.as_bytes())
}

// Appends a date as the calendar's standard has it, as the first field or after a comma.
fn push_iso(alloc: Global, line: &mut OneLine, day: Day) -> Result<(), AllocError>
    ensures ok { OnOk result (line.new ≡ line.old ++ field_text (date_text day)) }
{
    let mut date = String::new(alloc);
    push_date(&mut date, day)?;
    line.field(date.as_bytes())
}

fn push_number(alloc: Global, line: &mut OneLine, number: u64) -> Result<(), AllocError>
    ensures ok { OnOk result (line.new ≡ line.old ++ next_field (decimal number)) }
{
    let text = format!(in alloc; "{number}")?;
    next(line, text.as_bytes())
}

// Appends what a row of a clock table is of: the file, and the line, the level, the title and the tags of its heading.
fn push_of<T: Text>(
    alloc: Global,
    line: &mut OneLine,
    files: &LoadReport<'_, '_, T>,
    of: Of,
) -> Result<(), Fault>
    ensures ok { OnOk result (line.new ≡ line.old ++ of_fields files.now of) }
{
    match of {
        Of::All => Ok(push_empty(line, 5)?),
        Of::File(file) => {
            push_name(line, files, file)?;
            Ok(push_empty(line, 4)?)
        }
        Of::Heading(file, place, _) => {
            push_name(line, files, file)?;
            push_place(alloc, line, files, file, place)
        }
    }
}

// Appends so many fields without a text.
fn push_empty(line: &mut OneLine, count: u32) -> Result<(), AllocError>
    ensures ok { OnOk result (line.new ≡ line.old ++ empty_fields count) }
{
    for _place in 0..count {
        line.push(b',')?;
    }
    Ok(())
}

fn push_name<T: Text>(
    line: &mut OneLine,
    files: &LoadReport<'_, '_, T>,
    file: usize,
) -> Result<(), AllocError>
    ensures ok { OnOk result (line.new ≡ line.old ++ name_field files.now.files file) }
{
    if file >= files.file_set.count() {
        return next(line, &[]);
    }
    next(line, files.file_set.file(file).name().as_bytes())
}

fn push_place<T: Text>(
    alloc: Global,
    line: &mut OneLine,
    files: &LoadReport<'_, '_, T>,
    file: usize,
    place: usize,
) -> Result<(), Fault>
    ensures ok { OnOk result (line.new ≡ line.old ++ place_fields files.now file place) }
{
    push_line(alloc, line, files.file_set.place(file, place))?;
    push_heading(alloc, line, files, file, place)
}

// Appends the line of a place.
fn push_line(alloc: Global, line: &mut OneLine, place: Option<Place>) -> Result<(), AllocError>
    ensures ok { OnOk result (line.new ≡ line.old ++ next_field (line_text place)) }
{
    match place {
        Some(at) => push_number(alloc, line, u64::from(at.line)),
        None => next(line, &[]),
    }
}

// Appends the level, the title and the tags of a heading.
fn push_heading<T: Text>(
    alloc: Global,
    line: &mut OneLine,
    files: &LoadReport<'_, '_, T>,
    file: usize,
    place: usize,
) -> Result<(), Fault>
    ensures ok { OnOk result (line.new ≡ line.old ++ said_at files.now.scopes file place) }
{
    match Heading::find(files.inherits, file, place) {
        Some(heading) => push_said(alloc, line, &heading)?,
        None => push_empty(line, 3)?,
    }
    Ok(())
}

fn push_said(alloc: Global, line: &mut OneLine, heading: &Heading<'_, '_>) -> Result<(), Fault>
    ensures ok { OnOk result (line.new ≡ line.old ++ said_fields_of heading.now) }
{
    push_number(alloc, line, u64::from(heading.level()))?;
    next(line, heading.title())?;
    push_tags(alloc, line, heading)
}

// Appends one field more.
pub(crate) fn next(line: &mut OneLine, text: &[u8]) -> Result<(), AllocError>
    ensures ok { OnOk result (line.new ≡ line.old ++ next_field text.now) }
{
    line.push(b',')?;
    line.field(text)
}

fn kind_name(kind: RowKind, list: &str) -> &str
    ensures value { result.now ≡ kind_field kind list.now }
{
    match kind {
        RowKind::Listed => list,
        RowKind::OnDay => "timestamp",
        RowKind::InRange => "block",
        RowKind::OnSchedule => "scheduled",
        RowKind::LateSchedule => "past-scheduled",
        RowKind::OnDeadline | RowKind::LateDeadline => "deadline",
        RowKind::Warning => "upcoming-deadline",
    }
}

// All tags, with colons between them.
pub(crate) fn push_tags(
    alloc: Global,
    line: &mut OneLine,
    heading: &Heading<'_, '_>,
) -> Result<(), Fault>
    ensures ok { OnOk result (line.new ≡ line.old ++ next_field (heading_tags heading.now)) }
{
    let tags = heading.tags()?;
    let text = tags_text(alloc, &tags)?;
    next(line, between(text.as_slice()))?;
    Ok(())
}

// What stands between the first byte and the last.
pub(crate) fn between(text: &[u8]) -> &[u8]
    ensures value { result.now ≡ between text.now }
{
    match text {
        [_, inner @ .., _] => inner,
        _ => &[],
    }
}

// The date that a row speaks of, and its times.
fn push_when(alloc: Global, line: &mut OneLine, shown: &ShownRow) -> Result<(), AllocError>
    ensures ok { OnOk result (line.new ≡ line.old ++ when_fields shown.now) }
{
    push_parts(alloc, line, spoken_of(shown))?;
    let times = times_of(alloc, &shown.row)?;
    next(line, times.as_bytes())
}

// The start of a row, and a dash and its end, those that it has.
fn times_of(alloc: Global, row: &Row) -> Result<String, AllocError>
    ensures value { GivesText result (start_field row.now.start ++ end_field row.now.end) }
{
    let mut times = String::new(alloc);
    if let Some(start) = row.start {
        push_time(&mut times, start)?;
    }
    if let Some(end) = row.end {
        times.push_str("-")?;
        push_time(&mut times, end)?;
    }
    Ok(times)
}

// The day of a row, or the one of which it warns or for which it is late.
fn spoken_of(shown: &ShownRow) -> Option<Day>
    ensures value { result ≡ spoken_of shown.now shown.now.day }
{
    let day = shown.day?;
    let days = i64::from(shown.row.number);
    match shown.row.kind {
        RowKind::Warning => day.add_units(days, Unit::Day),
        RowKind::LateSchedule | RowKind::LateDeadline => day.add_units(-days, Unit::Day),
        _ => Some(day),
    }
}

pub(crate) fn push_parts(
    alloc: Global,
    line: &mut OneLine,
    day: Option<Day>,
) -> Result<(), AllocError>
    ensures ok { OnOk result (line.new ≡ line.old ++ next_field (parts_field day)) }
{
    let Some(day) = day else {
        return next(line, &[]);
    };
    let (year, month, of_month) = day.parts();
    let text = format!(in alloc; "{year}-{month}-{of_month}")?;
    next(line, text.as_bytes())
}

// What an agenda shows before the heading.
fn push_label(alloc: Global, line: &mut OneLine, row: &Row) -> Result<(), AllocError>
    ensures ok { OnOk result (line.new ≡ line.old ++ next_field (row_label row.now)) }
{
    let text = label_of(alloc, row)?;
    next(line, text.as_bytes())
}

fn label_of(alloc: Global, row: &Row) -> Result<String, AllocError>
    ensures value { GivesText result (row_label row.now) }
{
    let number = row.number;
    let of = row.of;
    Ok(match row.kind {
        RowKind::Listed | RowKind::OnDay => String::new(alloc),
        RowKind::InRange => format!(in alloc; "({number}/{of}):")?,
        RowKind::OnSchedule => String::from_str(alloc, "Scheduled:")?,
        RowKind::LateSchedule => format!(in alloc; "Sched. {number} d.:")?,
        RowKind::OnDeadline => String::from_str(alloc, "Deadline:")?,
        RowKind::Warning => format!(in alloc; "In {number} d.:")?,
        RowKind::LateDeadline => format!(in alloc; "{number} d. ago:")?,
    })
}

// The priority, and a thousand for each step above C.
pub(crate) fn push_priority(
    alloc: Global,
    line: &mut OneLine,
    heading: &Heading<'_, '_>,
) -> Result<(), AllocError>
    ensures ok { OnOk result (line.new ≡ line.old ++ heading_priority heading.now) }
{
    next(line, heading.priority().unwrap_or(&[]))?;
    let number = u32::from(b'C'.saturating_sub(heading.priority_number())) * 1000;
    let text = format!(in alloc; "{number}")?;
    next(line, text.as_bytes())
}

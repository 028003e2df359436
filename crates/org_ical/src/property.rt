//! Properties of components.
ghost use Rattle.std.specs.Prelude.{◌≡◌, [], ◌∷◌};
ghost use Rattle.org_ical.specs.Dates.{moment_text};
ghost use Rattle.org_ical.specs.Lines.{written_line};
ghost use Rattle.org_ical.specs.Properties.{end_lines, priority_lines, property, text_line, when_line};
ghost use Rattle.org_ical.specs.Results.{Adds, AddsLines};
ghost use Rattle.org_ical.specs.declared.date.When.TheVariants.{Day};

use crate::date::{Date, Time, When, digit, push_date, push_moment};
use crate::line::push_line;
use crate::value::push_value;
use std::alloc::{AllocError, Global};

/// Appends the line of a property.
pub(crate) fn push_property(
    alloc: Global,
    out: &mut Vec<u8>,
    name: &[u8],
    value: &[u8],
) -> Result<(), AllocError>
    ensures { Adds result out.old out.new (written_line (property name.now value.now)) }
{
    let mut line = Vec::new(alloc);
    line.extend_from_slice(name)?;
    line.push(b':')?;
    line.extend_from_slice(value)?;
    push_line(out, line.as_slice())
}

/// Appends the line of a property whose value is a text.
pub(crate) fn push_text(
    alloc: Global,
    out: &mut Vec<u8>,
    name: &[u8],
    text: &[u8],
) -> Result<(), AllocError>
    ensures { Adds result out.old out.new (written_line (text_line name.now text.now)) }
{
    let mut value = Vec::new(alloc);
    push_value(&mut value, text)?;
    push_property(alloc, out, name, value.as_slice())
}

/// Appends when something begins or is due.
pub(crate) fn push_when(
    alloc: Global,
    out: &mut Vec<u8>,
    name: &[u8],
    when: When,
) -> Result<(), AllocError>
    ensures { Adds result out.old out.new (written_line (when_line name.now when)) }
{
    match when {
        When::Day(date) => push_day(alloc, out, name, date),
        When::Days(date, _) => push_day(alloc, out, name, date),
        When::At(date, time) => push_time(alloc, out, name, date, time),
        When::Between(date, time, ..) => push_time(alloc, out, name, date, time),
    }
}

fn push_day(alloc: Global, out: &mut Vec<u8>, name: &[u8], date: Date) -> Result<(), AllocError>
    ensures { Adds result out.old out.new (written_line (when_line name.now (Day date))) }
{
    let mut line = Vec::new(alloc);
    line.extend_from_slice(name)?;
    line.extend_from_slice(b";VALUE=DATE:")?;
    push_date(&mut line, date)?;
    push_line(out, line.as_slice())
}

fn push_time(
    alloc: Global,
    out: &mut Vec<u8>,
    name: &[u8],
    date: Date,
    time: Time,
) -> Result<(), AllocError>
    ensures { Adds result out.old out.new (written_line (property name.now (moment_text date time))) }
{
    let mut value = Vec::new(alloc);
    push_moment(&mut value, date, time)?;
    push_property(alloc, out, name, value.as_slice())
}

/// Appends when something ends, if that is known.
pub(crate) fn push_end(alloc: Global, out: &mut Vec<u8>, when: When) -> Result<(), AllocError>
    ensures { AddsLines result out.old out.new (end_lines when) }
{
    match when {
        When::Day(_) | When::At(..) => Ok(()),
        When::Days(_, behind) => push_day(alloc, out, b"DTEND", behind),
        When::Between(_, _, date, time) => push_time(alloc, out, b"DTEND", date, time),
    }
}

/// Appends a priority, if there is one.
pub(crate) fn push_priority(
    alloc: Global,
    out: &mut Vec<u8>,
    priority: Option<u8>,
) -> Result<(), AllocError>
    ensures { AddsLines result out.old out.new (priority_lines priority) }
{
    match priority {
        Some(number) => push_property(alloc, out, b"PRIORITY", &[digit(u16::from(number))]),
        None => Ok(()),
    }
}

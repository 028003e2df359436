//! Calendars.
ghost use Rattle.std.specs.Prelude.{◌≡◌};
ghost use Rattle.org_ical.specs.Components.{all_lines, calendar_lines};
ghost use Rattle.org_ical.specs.Lines.{written};
ghost use Rattle.org_ical.specs.Properties.{stamp_line};
ghost use Rattle.org_ical.specs.Results.{AddsLines, GivesItems};
ghost use Rattle.org_ical.specs.Uids.{uid_text};

use crate::component::Component;
use crate::counts::KeyCounts;
use crate::date::{Date, Time, push_moment};
use crate::line::push_line;
use std::alloc::{AllocError, Global};

/// Events and tasks in their order, and when the calendar of them is made, by universal time.
#[derive(Debug, Drop)]
pub struct Calendar {
    pub date: Date,
    pub time: Time,
    pub components: Vec<Component>,
}

impl Calendar {
    /// The bytes of a stream of iCalendar.
    pub fn bytes(&self, alloc: Global) -> Result<Vec<u8>, AllocError>
        ensures value { GivesItems result (written (calendar_lines self.now)) }
    {
        let stamp = stamp_line(alloc, self.date, self.time)?;
        let mut out = Vec::new(alloc);
        push_line(&mut out, b"BEGIN:VCALENDAR")?;
        push_line(&mut out, b"VERSION:2.0")?;
        push_line(&mut out, b"PRODID:-//orgviews//orgq//EN")?;
        push_components(
            alloc,
            &mut out,
            stamp.as_slice(),
            self.components.as_slice(),
        )?;
        push_line(&mut out, b"END:VCALENDAR")?;
        Ok(out)
    }
}

fn stamp_line(alloc: Global, date: Date, time: Time) -> Result<Vec<u8>, AllocError>
    ensures value { GivesItems result (stamp_line date time) }
{
    let mut line = Vec::from_slice(alloc, b"DTSTAMP:")?;
    push_moment(&mut line, date, time)?;
    line.push(b'Z')?;
    Ok(line)
}

fn push_components(
    alloc: Global,
    out: &mut Vec<u8>,
    stamp: &[u8],
    components: &[Component],
) -> Result<(), AllocError>
    ensures { AddsLines result out.old out.new (all_lines stamp.now components.now) }
{
    let mut counts = KeyCounts::new(alloc);
    for component in components {
        let number = counts.count(alloc, component.key.as_slice())?;
        let uid = uid_text(alloc, component.key.as_slice(), number)?;
        component.push(alloc, out, stamp, uid.as_slice())?;
    }
    Ok(())
}

// A key with a number.
fn uid_text(alloc: Global, key: &[u8], number: usize) -> Result<Vec<u8>, AllocError>
    ensures value { GivesItems result (uid_text key.now number) }
{
    let digits = format!(in alloc; "{number}")?;
    let mut uid = Vec::from_slice(alloc, key)?;
    uid.push(b'-')?;
    uid.extend_from_slice(digits.as_bytes())?;
    Ok(uid)
}

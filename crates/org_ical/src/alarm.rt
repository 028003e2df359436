//! Alarms of events and tasks.
ghost use Rattle.std.specs.Prelude.{◌≡◌};
ghost use Rattle.org_ical.specs.Alarms.{alarm_lines, own_alarm, trigger_line, trigger_name};
ghost use Rattle.org_ical.specs.Results.{AddsLines, GivesItems};

use crate::component::{Kind, Shown};
use crate::line::push_line;
use crate::property::push_text;
use std::alloc::{AllocError, Global};

/// Appends the alarm of an event or a task, if one is wanted.
pub(crate) fn push_alarm(alloc: Global, out: &mut Vec<u8>, shown: &Shown) -> Result<(), AllocError>
    ensures { AddsLines result out.old out.new (own_alarm shown.now) }
{
    match shown.alarm {
        Some(minutes) => {
            let trigger = trigger_line(alloc, shown.kind, minutes)?;
            push_display(
                alloc,
                out,
                shown.words.summary.as_slice(),
                trigger.as_slice(),
            )
        }
        None => Ok(()),
    }
}

fn push_display(
    alloc: Global,
    out: &mut Vec<u8>,
    summary: &[u8],
    trigger: &[u8],
) -> Result<(), AllocError>
    ensures { AddsLines result out.old out.new (alarm_lines summary.now trigger.now) }
{
    push_line(out, b"BEGIN:VALARM")?;
    push_line(out, b"ACTION:DISPLAY")?;
    push_text(alloc, out, b"DESCRIPTION", summary)?;
    push_line(out, trigger)?;
    push_line(out, b"END:VALARM")
}

fn trigger_line(alloc: Global, kind: Kind, minutes: u32) -> Result<Vec<u8>, AllocError>
    ensures value { GivesItems result (trigger_line kind minutes) }
{
    let digits = format!(in alloc; "{minutes}")?;
    let mut line = Vec::from_slice(alloc, trigger_name(kind))?;
    line.extend_from_slice(b":-PT")?;
    line.extend_from_slice(digits.as_bytes())?;
    line.push(b'M')?;
    Ok(line)
}

// What an alarm counts from: the beginning of an event, the day and time by which a task is due.
fn trigger_name(kind: Kind) -> &'static [u8]
    ensures value { result.now ≡ trigger_name kind }
{
    match kind {
        Kind::Event(..) => b"TRIGGER",
        Kind::Task(..) => b"TRIGGER;RELATED=END",
    }
}

//! What a log shows before a heading.
ghost use Rattle.org_base.specs.Results.{Adds, GivesItems, GivesText};
ghost use Rattle.org_client.specs.LogLabels.{clock_label, hours_text, in_parens, log_label};

use org_cal::push_two;
use org_settings::Settings;
use org_trace::{LogEntry, LogEvent};
use std::alloc::{AllocError, Global};

/// What Org's log mode shows before the heading: that it was closed, the keyword that it got, or how long it was clocked, which
/// is a dash where the clock runs.
pub fn log_label(
    alloc: Global,
    settings: &Settings,
    entry: &LogEntry,
) -> Result<Vec<u8>, AllocError>
    ensures value { GivesItems result (log_label settings.now.keywords entry.now entry.now.event) }
{
    let mut label = Vec::new(alloc);
    match entry.event {
        LogEvent::Closed => label.extend_from_slice(b"Closed:    ")?,
        LogEvent::State(change) => {
            push_in_parens(&mut label, b"State:     ", settings.keyword_word(change.to))?
        }
        LogEvent::Clock(end) => push_clock(alloc, &mut label, entry, end)?,
    }
    Ok(label)
}

fn push_in_parens(out: &mut Vec<u8>, front: &[u8], text: &[u8]) -> Result<(), AllocError>
    ensures { Adds result out.old out.new (in_parens front.now text.now) }
{
    out.extend_from_slice(front)?;
    out.push(b'(')?;
    out.extend_from_slice(text)?;
    out.push(b')')?;
    Ok(())
}

fn push_clock(
    alloc: Global,
    out: &mut Vec<u8>,
    entry: &LogEntry,
    end: Option<u64>,
) -> Result<(), AllocError>
    ensures { Adds result out.old out.new (clock_label entry.now end) }
{
    match end {
        None => push_in_parens(out, b"Clocked:   ", b"-"),
        Some(_) => {
            let hours = hours_text(alloc, entry.minutes())?;
            push_in_parens(out, b"Clocked:   ", hours.as_bytes())
        }
    }
}

// Minutes as hours, a colon and two digits of minutes.
fn hours_text(alloc: Global, minutes: u64) -> Result<String, AllocError>
    ensures { GivesText result (hours_text minutes) }
{
    let hours = minutes / 60;
    let mut text = format!(in alloc; "{hours}:")?;
    push_two(&mut text, (minutes % 60) as u8)?;
    Ok(text)
}

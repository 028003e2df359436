//! How often an event is again.
ghost use Rattle.std.specs.Prelude.{◌≡◌};
ghost use Rattle.org_ical.specs.Recurrences.{date_line, dates_lines, event_dates, frequency_text, rule_line, rule_lines};
ghost use Rattle.org_ical.specs.Lines.{written_line};
ghost use Rattle.org_ical.specs.Results.{Adds, AddsLines, GivesItems};

use crate::component::Kind;
use crate::date::{Date, When};
use crate::line::push_line;
use crate::property::push_when;
use std::alloc::{AllocError, Global};

/// How long one step of a rule is.
#[derive(Clone, Copy, Debug, PartialEq, Eq)]
pub enum Frequency {
    Daily,
    Weekly,
    Monthly,
    Yearly,
}

/// A rule without an end: each so many steps.
#[derive(Clone, Copy, Debug, PartialEq, Eq)]
pub struct Rule {
    pub interval: u16,
    pub frequency: Frequency,
}

/// Appends the line of a rule, if there is one.
pub(crate) fn push_rule(
    alloc: Global,
    out: &mut Vec<u8>,
    rule: Option<Rule>,
) -> Result<(), AllocError>
    ensures { AddsLines result out.old out.new (rule_lines rule) }
{
    match rule {
        Some(rule) => {
            let line = rule_line(alloc, rule)?;
            push_line(out, line.as_slice())
        }
        None => Ok(()),
    }
}

fn rule_line(alloc: Global, rule: Rule) -> Result<Vec<u8>, AllocError>
    ensures value { GivesItems result (rule_line rule) }
{
    let interval = rule.interval;
    let digits = format!(in alloc; "{interval}")?;
    let mut line = Vec::from_slice(alloc, b"RRULE:FREQ=")?;
    line.extend_from_slice(frequency_text(rule.frequency))?;
    line.extend_from_slice(b";INTERVAL=")?;
    line.extend_from_slice(digits.as_bytes())?;
    Ok(line)
}

fn frequency_text(frequency: Frequency) -> &'static [u8]
    ensures value { result.now ≡ frequency_text frequency }
{
    match frequency {
        Frequency::Daily => b"DAILY",
        Frequency::Weekly => b"WEEKLY",
        Frequency::Monthly => b"MONTHLY",
        Frequency::Yearly => b"YEARLY",
    }
}

/// Appends the further days of an event, each by a line.
pub(crate) fn push_dates(
    alloc: Global,
    out: &mut Vec<u8>,
    kind: Kind,
    dates: &[Date],
) -> Result<(), AllocError>
    ensures { AddsLines result out.old out.new (event_dates kind dates.now) }
{
    match kind {
        Kind::Event(when, ..) => push_when_on(alloc, out, when, dates),
        Kind::Task(..) => Ok(()),
    }
}

fn push_when_on(
    alloc: Global,
    out: &mut Vec<u8>,
    when: When,
    dates: &[Date],
) -> Result<(), AllocError>
    ensures { AddsLines result out.old out.new (dates_lines when dates.now) }
{
    for date in dates {
        push_on(alloc, out, when, *date)?;
    }
    Ok(())
}

fn push_on(alloc: Global, out: &mut Vec<u8>, when: When, date: Date) -> Result<(), AllocError>
    ensures { Adds result out.old out.new (written_line (date_line when date)) }
{
    push_when(alloc, out, b"RDATE", when.on(date))
}

//! Components of calendars.
ghost use Rattle.std.specs.Prelude.{◌≡◌};
ghost use Rattle.org_ical.specs.Components.{begin_line, end_line, own_lines, shown_lines, state_lines, status_line, times_lines};
ghost use Rattle.org_ical.specs.Results.{AddsLines};

use crate::alarm::push_alarm;
use crate::date::{Date, When};
use crate::line::push_line;
use crate::property::{push_end, push_priority, push_text, push_when};
use crate::rule::{Rule, push_dates, push_rule};
use crate::words::Words;
use std::alloc::{AllocError, Global};

/// Whether an event takes place.
#[derive(Clone, Copy, Debug, PartialEq, Eq)]
pub enum Status {
    Confirmed,
    Cancelled,
}

/// What a component is.
#[derive(Clone, Copy, Debug, PartialEq, Eq)]
pub enum Kind {
    /// An event: when it is, by which rule it is again, and whether it takes place.
    Event(When, Option<Rule>, Status),
    /// An open task: when it is due, and its priority, from 1, the most urgent, to 9.
    Task(When, Option<u8>),
}

/// What is written of an event or a task.
#[derive(Debug, Drop)]
pub struct Shown {
    pub kind: Kind,
    /// The days besides the first one on which an event is, where no rule gives them.
    pub more: Vec<Date>,
    pub words: Words,
    /// How many minutes before its time one is told of it, if that is wanted.
    pub alarm: Option<u32>,
}

/// An event or a task. Its texts are UTF-8.
#[derive(Debug, Drop)]
pub struct Component {
    /// What it is known by; those that have equal keys get numbers in their order.
    pub key: Vec<u8>,
    /// Nothing of a component that only counts among those of its key, so that the others keep their numbers.
    pub shown: Option<Shown>,
}

impl Component {
    // Appends its lines, under a unique name and with the line that says when the calendar is made.
    pub(crate) fn push(
        &self,
        alloc: Global,
        out: &mut Vec<u8>,
        stamp: &[u8],
        uid: &[u8],
    ) -> Result<(), AllocError>
        ensures value { AddsLines result out.old out.new (own_lines stamp.now uid.now self.now) }
    {
        match &self.shown {
            Some(shown) => shown.push(alloc, out, stamp, uid),
            None => Ok(()),
        }
    }
}

impl Shown {
    fn push(
        &self,
        alloc: Global,
        out: &mut Vec<u8>,
        stamp: &[u8],
        uid: &[u8],
    ) -> Result<(), AllocError>
        ensures value { AddsLines result out.old out.new (shown_lines stamp.now uid.now self.now) }
    {
        push_line(out, begin_line(self.kind))?;
        push_text(alloc, out, b"UID", uid)?;
        push_line(out, stamp)?;
        push_times(alloc, out, self.kind)?;
        push_dates(alloc, out, self.kind, self.more.as_slice())?;
        self.words.push(alloc, out)?;
        push_state(alloc, out, self.kind)?;
        push_alarm(alloc, out, self)?;
        push_line(out, end_line(self.kind))
    }
}

fn begin_line(kind: Kind) -> &'static [u8]
    ensures { result.now ≡ begin_line kind }
{
    match kind {
        Kind::Event(..) => b"BEGIN:VEVENT",
        Kind::Task(..) => b"BEGIN:VTODO",
    }
}

fn end_line(kind: Kind) -> &'static [u8]
    ensures { result.now ≡ end_line kind }
{
    match kind {
        Kind::Event(..) => b"END:VEVENT",
        Kind::Task(..) => b"END:VTODO",
    }
}

// Appends when an event is and how often, or when a task is due.
fn push_times(alloc: Global, out: &mut Vec<u8>, kind: Kind) -> Result<(), AllocError>
    ensures { AddsLines result out.old out.new (times_lines kind) }
{
    match kind {
        Kind::Event(when, rule, _) => {
            push_when(alloc, out, b"DTSTART", when)?;
            push_end(alloc, out, when)?;
            push_rule(alloc, out, rule)
        }
        Kind::Task(due, _) => push_when(alloc, out, b"DUE", due),
    }
}

// Appends how things stand with a component.
fn push_state(alloc: Global, out: &mut Vec<u8>, kind: Kind) -> Result<(), AllocError>
    ensures { AddsLines result out.old out.new (state_lines kind) }
{
    match kind {
        Kind::Event(_, _, status) => push_line(out, status_line(status)),
        Kind::Task(_, priority) => {
            push_priority(alloc, out, priority)?;
            push_line(out, b"STATUS:NEEDS-ACTION")
        }
    }
}

fn status_line(status: Status) -> &'static [u8]
    ensures { result.now ≡ status_line status }
{
    match status {
        Status::Confirmed => b"STATUS:CONFIRMED",
        Status::Cancelled => b"STATUS:CANCELLED",
    }
}

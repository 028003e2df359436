//! The section whose clock is changed.
ghost use Rattle.std.specs.Prelude.{◌≡◌, ◌+◌, ◌<◌, ◌≤◌, length, IfOk, IsOkUnless};
ghost use Rattle.org_act.specs.Clocking.{Finds, is_ended, section_on};
ghost use Rattle.org_act.specs.ClockSections.{span_at};
ghost use Rattle.org_base.specs.Codes.{memory_fault};
ghost use Rattle.org_base.specs.Results.{Gives};
ghost use Rattle.org_base.specs.Spans.{IsInside, bytes_in};
ghost use Rattle.org_class.specs.Sections.{sections};

use crate::act::Refusal;
use org_base::{Code, Fault, Span};
use org_class::{Class, has_heading_at, sections};
use org_store::File;
use org_text::{Text, Whole};
use std::alloc::Global;

// A section of a text, with the classes of its lines.
#[derive(Clone, Copy)]
pub(crate) struct ClockSection<'a> {
    pub(crate) text: &'a str,
    pub(crate) whole: &'a Whole,
    pub(crate) span: Span,
    pub(crate) classes: &'a [Class],
}

impl<'a> ClockSection<'a> {
    // The bytes of a part of the text.
    pub(crate) fn bytes(&self, span: Span) -> &[u8]
        requires within { span.at + span.len ≤ length self.now.text.now }
        ensures value { result.now ≡ bytes_in self.now.text.now span }
    {
        let at = span.at as usize;
        &self.text.as_bytes()[at..at + span.len as usize]
    }

    // Whether the line before a place is ended.
    pub(crate) fn is_ended(&self, at: u32) -> bool
        requires within { at ≤ length self.now.text.now }
        ensures value { result ≡ is_ended self.now.text.now at }
    {
        let at = at as usize;
        at > 0 && self.text.as_bytes()[at - 1] == b'\n'
    }
}

// The section of the heading on a line.
pub(crate) fn section_on(alloc: Global, file: &File<Whole>, line: u64) -> Result<Span, Refusal>
    ensures value { Finds result (section_on file.now.text line) }
    ensures within { IfOk result (IsInside file.now.text) }
{
    let Some(place) = file.begun_by(line) else {
        return Err(Refusal::Fault(Fault::Plain(Code::Heading)));
    };
    if !has_heading_at(file.text(), file.start(place) as usize) {
        return Err(Refusal::Fault(Fault::Plain(Code::Heading)));
    }
    Ok(span_at(alloc, file.text(), place as usize)?)
}

// The section at a place of those of a text.
fn span_at(alloc: Global, text: &Whole, place: usize) -> Result<Span, Fault>
    requires there { place < length (sections text.now) }
    ensures value { Gives result (span_at text.now place) }
    ensures within { IfOk result (IsInside text.now) }
    ensures memory { IsOkUnless result memory_fault }
{
    match sections(alloc, text)?.get(place) {
        Some(span) => Ok(span),
        None => unreachable!(),
    }
}

//! Parts of a line in order.
ghost use Rattle.std.specs.Prelude.{◌≡◌, [], ◌++◌, ◌+◌, ◌<◌, ◌^◌, length, slice_get, OnOk};
ghost use Rattle.org_base.specs.Spans.{bytes_in, IsInside};
ghost use Rattle.org_head.specs.Tags.{span, spans_from};

use org_base::Span;
use smallvec::SmallVec;
use std::alloc::{AllocError, Global};
use std::marker::Model;

/// Parts of a line in order. Up to two of them need no memory.
#[derive(Debug, Drop)]
pub struct Spans {
    spans: SmallVec<Span, 2>,
}

impl Model for Spans {
    ghost use Rattle.std.specs.Prelude.{List};
    ghost use Rattle.org_base.specs.declared.span.Span.{Span};

    ghost Value = { List Span };

    ghost view = { λ s. s.spans.items };
}

impl Spans {
    // No parts.
    pub(crate) fn new(alloc: Global) -> Spans
        ensures value { result ≡ [] }
    {
        Spans {
            spans: SmallVec::new(alloc),
        }
    }

    // Puts a part at the end, if it isn't empty.
    fn push(&mut self, at: u32, len: u32) -> Result<(), AllocError>
        ensures ok { OnOk result (self.new ≡ self.old ++ span at len) }
    {
        if len > 0 {
            self.spans.push(Span { at, len })?;
        }
        Ok(())
    }

    // Puts the pieces between the colons of a text at the end. The text stands at a place of the line.
    pub(crate) fn push_pieces(&mut self, at: usize, text: &[u8]) -> Result<(), AllocError>
        requires { at + length text.now < 2 ^ 32 }
        ensures ok { OnOk result (self.new ≡ self.old ++ spans_from at 0 text.now) }
    {
        let mut start = 0;
        for (i, byte) in text.iter().enumerate() {
            if *byte == b':' {
                self.push((at + start) as u32, (i - start) as u32)?;
                start = i + 1;
            }
        }
        self.push((at + start) as u32, (text.len() - start) as u32)
    }

    /// How many parts there are.
    pub fn count(&self) -> usize
        ensures value { result ≡ length self.now }
    {
        self.spans.len()
    }

    /// The part at a place, from 0.
    pub fn get(&self, place: usize) -> Option<Span>
        ensures value { result ≡ slice_get self.now place }
    {
        self.as_slice().get(place).copied()
    }

    /// The parts, to go over.
    pub fn as_slice(&self) -> &[Span]
        ensures value { result.now ≡ self.now }
    {
        self.spans.as_slice()
    }
}

/// The bytes of a part of a line.
pub fn part(line: &[u8], span: Span) -> &[u8]
    requires within { IsInside line.now span }
    ensures value { result.now ≡ bytes_in line.now span }
{
    let start = span.at as usize;
    &line[start..start + span.len as usize]
}

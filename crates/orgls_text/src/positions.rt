//! The positions of bytes of a text.
ghost use Rattle.std.specs.Prelude.{◌≡◌, map};
ghost use Rattle.org_base.specs.Results.{GivesItems};
ghost use Rattle.orgls_text.specs.Positions.{position_of, range_of};

use crate::change::Range;
use crate::known::KnownPositions;
use crate::position::{Position, PositionEncoding};
use crate::reached::{Reached, reached_on};
use std::alloc::{AllocError, Global};
use std::marker::Model;

/// A text of which positions are asked. It goes on from the byte that was asked last, so ascending bytes are one pass.
#[derive(Debug, Drop)]
pub struct PositionReader<'a> {
    text: &'a [u8],
    encoding: PositionEncoding,
    reached: Reached,
}

impl<'a> Model for PositionReader<'a> {
    ghost use Rattle.orgls_text.specs.Positions.{ReaderView};
    ghost use Rattle.orgls_text.specs.Reached.{IsReached};

    ghost Value = { ReaderView };

    ghost view = { λ r. record { text = r.text.now; encoding = r.encoding } };

    ghost invariant = { λ r. IsReached r.encoding r.text.now r.reached };
}

impl<'a> PositionReader<'a> {
    /// A reader at the text's beginning.
    pub fn new(text: &'a [u8], encoding: PositionEncoding) -> PositionReader<'a>
        ensures value { result ≡ record { text = text.now; encoding = encoding } }
    {
        PositionReader {
            text,
            encoding,
            reached: Reached::front(),
        }
    }

    /// The position in front of a byte, of the text's end where it has no such byte.
    pub fn position(&mut self, offset: usize) -> Position
        ensures value { result ≡ position_of self.old.encoding self.old.text offset }
        ensures unchanged { self.new ≡ self.old }
    {
        let end = offset.min(self.text.len());
        let from = self.reached.up_to(end);
        self.reached = reached_on(self.encoding, self.text, from, end);
        self.reached.cursor.position
    }
}

/// The positions in front of some bytes of a text, in one pass where they ascend.
pub fn positions_of(
    alloc: Global,
    text: &[u8],
    encoding: PositionEncoding,
    offsets: &[usize],
) -> Result<Vec<Position>, AllocError>
    ensures value { GivesItems result (map (position_of encoding text.now) offsets.now) }
{
    let mut reader = PositionReader::new(text, encoding);
    let mut out = Vec::with_capacity(alloc, offsets.len())?;
    for offset in offsets {
        out.push(reader.position(*offset))?;
    }
    Ok(out)
}

/// A part of a text: the byte with which it begins, and the one behind it.
#[derive(Clone, Copy, Debug, PartialEq, Eq)]
pub struct TextSpan {
    pub start: usize,
    pub end: usize,
}

/// The ranges of some parts of a text. All places are brought in order first, so the text is passed once.
pub fn ranges_of(
    alloc: Global,
    text: &[u8],
    encoding: PositionEncoding,
    spans: &[TextSpan],
) -> Result<Vec<Range>, AllocError>
    ensures value { GivesItems result (map (range_of encoding text.now) spans.now) }
{
    let offsets = sorted_offsets(alloc, spans)?;
    let positions = positions_of(alloc, text, encoding, offsets.as_slice())?;
    let known = KnownPositions {
        text,
        encoding,
        offsets: offsets.as_slice(),
        positions: positions.as_slice(),
    };
    let mut out = Vec::with_capacity(alloc, spans.len())?;
    for span in spans {
        out.push(known.range(*span))?;
    }
    Ok(out)
}

// The bytes with which parts begin and behind which they end, in order.
fn sorted_offsets(alloc: Global, spans: &[TextSpan]) -> Result<Vec<usize>, AllocError> {
    let mut offsets = Vec::new(alloc);
    for span in spans {
        offsets.push(span.start)?;
        offsets.push(span.end)?;
    }
    offsets.sort()?;
    Ok(offsets)
}

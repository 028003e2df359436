//! Positions that are known.
ghost use Rattle.std.specs.Prelude.{◌≡◌, IfSome};
ghost use Rattle.orgls_text.specs.Known.{AreKnown, IsPlaceOf};
ghost use Rattle.orgls_text.specs.Positions.{position_of, range_of};

use crate::change::Range;
use crate::position::{Position, PositionEncoding};
use crate::positions::{PositionReader, TextSpan};

// Bytes of a text in order, and the positions in front of them.
#[derive(Clone, Copy)]
pub(crate) struct KnownPositions<'a> {
    pub text: &'a [u8],
    pub encoding: PositionEncoding,
    pub offsets: &'a [usize],
    pub positions: &'a [Position],
}

impl<'a> KnownPositions<'a> {
    // The range of a part of the text.
    pub(crate) fn range(&self, span: TextSpan) -> Range
        requires known { AreKnown self.now }
        ensures value { result ≡ range_of self.now.encoding self.now.text.now span }
    {
        Range {
            start: self.position(span.start),
            end: self.position(span.end),
        }
    }

    // The position in front of a byte; one that isn't known is looked for in the text.
    fn position(&self, offset: usize) -> Position
        requires known { AreKnown self.now }
        ensures value { result ≡ position_of self.now.encoding self.now.text.now offset }
    {
        if let Some(place) = place_of(self.offsets, offset) {
            if place < self.positions.len() {
                return self.positions[place];
            }
        }
        PositionReader::new(self.text, self.encoding).position(offset)
    }
}

// A place at which a number stands among numbers in order, if one is found.
fn place_of(numbers: &[usize], number: usize) -> Option<usize>
    ensures value { IfSome result (IsPlaceOf numbers.now number) }
{
    let place = numbers.partition_point(|other| *other < number);
    if place < numbers.len() && numbers[place] == number {
        Some(place)
    } else {
        None
    }
}

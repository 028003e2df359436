//! How far a text is read, and the position there.
ghost use Rattle.std.specs.Prelude.{◌≡◌, ◌≤◌, length};
ghost use Rattle.orgls_text.specs.Positions.{start};
ghost use Rattle.orgls_text.specs.Reached.{IsReached, before};

use crate::cursor::{Cursor, cursor_on};
use crate::position::PositionEncoding;

// How many bytes of a text are behind, and the cursor behind them.
#[derive(Clone, Copy, Debug)]
pub(crate) struct Reached {
    pub(crate) at: usize,
    pub(crate) cursor: Cursor,
}

impl Reached {
    // In front of all bytes.
    pub(crate) fn front() -> Reached
        ensures value { result ≡ record { at = 0; cursor = start } }
    {
        Reached {
            at: 0,
            cursor: Cursor::start(),
        }
    }

    // This one, or the front where it is past a byte.
    pub(crate) fn up_to(self, end: usize) -> Reached
        ensures value { result ≡ before self end }
        ensures within { result.at ≤ end }
    {
        if end < self.at {
            Reached::front()
        } else {
            self
        }
    }
}

// Behind so many bytes of a text, from one that is reached.
#[tactic(auto, using(crate::proofs::ReachedLemmas::behind_on, crate::proofs::ReachedLemmas::few_reached))]
pub(crate) fn reached_on(
    encoding: PositionEncoding,
    text: &[u8],
    from: Reached,
    end: usize,
) -> Reached
    requires cursor { IsReached encoding text.now from }
    requires from { from.at ≤ end }
    requires within { end ≤ length text.now }
    ensures at { result.at ≡ end }
    ensures cursor { IsReached encoding text.now result }
{
    Reached {
        at: end,
        cursor: cursor_on(encoding, from.cursor, &text[from.at..end]),
    }
}

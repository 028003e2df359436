//! The position behind the first bytes of a text, byte by byte.
ghost use Rattle.std.specs.Prelude.{◌≡◌, ◌+◌, ◌*◌, ◌<◌, ◌^◌, length};
ghost use Rattle.orgls_text.specs.Positions.{behind_byte, cursor_behind, is_stop, start};

use crate::position::{Position, PositionEncoding};

// The position behind some bytes, and whether the last of them is a carriage return.
#[derive(Clone, Copy, Debug)]
pub(crate) struct Cursor {
    pub(crate) position: Position,
    pub(crate) is_behind_return: bool,
}

impl Cursor {
    // In front of all bytes.
    pub(crate) fn start() -> Cursor
        ensures value { result ≡ start }
    {
        Cursor {
            position: Position {
                line: 0,
                character: 0,
            },
            is_behind_return: false,
        }
    }

    // Behind one more byte.
    #[tactic(auto, using(crate::proofs::CursorLemmas::units_few))]
    pub(crate) fn behind(self, encoding: PositionEncoding, byte: u8) -> Cursor
        requires line { self.position.line + 1 < 2 ^ 64 }
        requires character { self.position.character + 2 < 2 ^ 64 }
        ensures value { result ≡ behind_byte encoding self byte }
    {
        if self.is_behind_return && byte == b'\n' {
            return Cursor {
                position: self.position,
                is_behind_return: false,
            };
        }
        if byte == b'\n' || byte == b'\r' {
            return Cursor {
                position: Position {
                    line: self.position.line + 1,
                    character: 0,
                },
                is_behind_return: byte == b'\r',
            };
        }
        Cursor {
            position: Position {
                line: self.position.line,
                character: self.position.character + encoding.units(byte),
            },
            is_behind_return: false,
        }
    }

    // Whether a position can stand in front of a byte: no character and no end of a line goes on with it.
    pub(crate) fn is_stop(self, byte: u8) -> bool
        ensures value { result ≡ is_stop self byte }
    {
        !(self.is_behind_return && byte == b'\n') && (byte < 128 || byte >= 192)
    }
}

// Behind the next bytes of a text.
#[tactic(auto, using(crate::proofs::CursorLemmas::few_lines, crate::proofs::CursorLemmas::few_units))]
pub(crate) fn cursor_on(encoding: PositionEncoding, cursor: Cursor, bytes: &[u8]) -> Cursor
    requires line { cursor.position.line + length bytes.now < 2 ^ 64 }
    requires character { cursor.position.character + 2 * length bytes.now < 2 ^ 64 }
    ensures value { result ≡ cursor_behind encoding cursor bytes.now }
{
    let mut here = cursor;
    for byte in bytes {
        here = here.behind(encoding, *byte);
    }
    here
}

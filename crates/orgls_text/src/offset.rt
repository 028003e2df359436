//! Where a position stands in a text.
ghost use Rattle.std.specs.Prelude.{◌≡◌, ◌≤◌, length};
ghost use Rattle.orgls_text.specs.Positions.{offset_of};

use crate::cursor::Cursor;
use crate::position::{Position, PositionEncoding};

/// The byte of a text in front of which a position stands: the last one whose position isn't beyond it. So a position
/// beyond a line's end is that end, one beyond the last line the text's end, and one inside a character its beginning.
pub fn offset_of(text: &[u8], encoding: PositionEncoding, position: Position) -> usize
    ensures value { result ≡ offset_of encoding text.now position }
{
    let mut cursor = Cursor::start();
    let mut offset = 0;
    for (at, byte) in text.iter().enumerate() {
        if cursor.position.is_beyond(position) {
            return offset;
        }
        if cursor.is_stop(*byte) {
            offset = at;
        }
        cursor = cursor.behind(encoding, *byte);
    }
    if cursor.position.is_beyond(position) {
        offset
    } else {
        text.len()
    }
}

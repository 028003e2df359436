//! Positions, as the protocol has them.
ghost use Rattle.std.specs.Prelude.{◌≡◌};
ghost use Rattle.orgls_text.specs.Positions.{is_beyond, units, utf16_units};

/// In which units the characters of a line are counted.
#[derive(Clone, Copy, Debug, PartialEq, Eq)]
pub enum PositionEncoding {
    /// Bytes.
    Utf8,
    /// Units of UTF-16: two for a character of four bytes, one for each other.
    Utf16,
}

impl PositionEncoding {
    // How many units begin with a byte of UTF-8.
    pub(crate) fn units(self, byte: u8) -> u64
        ensures value { result ≡ units self byte }
    {
        match self {
            PositionEncoding::Utf8 => 1,
            PositionEncoding::Utf16 => utf16_units(byte),
        }
    }
}

// How many units of UTF-16 begin with a byte of UTF-8.
fn utf16_units(byte: u8) -> u64
    ensures value { result ≡ utf16_units byte }
{
    if byte < 128 {
        1
    } else if byte < 192 {
        0
    } else if byte < 240 {
        1
    } else {
        2
    }
}

/// A line and a character of it, both from 0.
#[derive(Clone, Copy, Debug, PartialEq, Eq)]
pub struct Position {
    pub line: u64,
    pub character: u64,
}

impl Position {
    /// Whether it stands behind another.
    pub fn is_beyond(self, other: Position) -> bool
        ensures value { result ≡ is_beyond self other }
    {
        self.line > other.line || self.line == other.line && self.character > other.character
    }
}

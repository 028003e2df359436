//! Characters that aren't shown as they are, byte by byte.
ghost use Rattle.std.specs.Prelude.{◌≡◌};
ghost use Rattle.org_visible.specs.Unseen.{front_of, block_of, ends, front_bytes, is_control, is_first, is_mark, next, place, waits};

/// How far a text is in a character that isn't shown as it is: the bytes of it that came, in base 16.
#[derive(Clone, Copy, Debug, PartialEq, Eq)]
pub(crate) enum Front {
    Empty,
    C2,
    E2,
    E280,
    E281,
    F3,
    F3A0,
    F3A080,
    F3A081,
}

/// The 256 characters among which one is.
#[derive(Clone, Copy, Debug, PartialEq, Eq)]
pub(crate) enum Block {
    /// U+0000 to U+00FF.
    Latin,
    /// U+2000 to U+20FF.
    Punctuation,
    /// U+E0000 to U+E00FF.
    Tags,
}

/// Whether a character turns what stands beside it around, U+202A to U+202E and U+2066 to U+2069, or is a tag, which hides it,
/// U+E0000 to U+E007F.
pub fn is_mark(c: char) -> bool
    ensures { result ≡ is_mark c }
{
    let number = u32::from(c);
    (8234 <= number && number < 8239)
        || (8294 <= number && number < 8298)
        || (917504 <= number && number < 917632)
}

// Whether a byte is a control character of ASCII.
pub(crate) fn is_control(byte: u8) -> bool
    ensures { result ≡ is_control byte }
{
    byte < 32 || byte == 127
}

// Whether a byte is the first of several of such a character.
pub(crate) fn is_first(byte: u8) -> bool
    ensures { result ≡ is_first byte }
{
    byte == 194 || byte == 226 || byte == 243
}

// Whether a byte is the last one of such a character.
pub(crate) fn ends(front: Front, byte: u8) -> bool
    ensures { result ≡ ends front byte }
{
    match front {
        Front::C2 => 128 <= byte && byte < 160,
        Front::E280 => 170 <= byte && byte < 175,
        Front::E281 => 166 <= byte && byte < 170,
        Front::F3A080 | Front::F3A081 => 128 <= byte && byte < 192,
        Front::Empty | Front::E2 | Front::F3 | Front::F3A0 => false,
    }
}

// Whether a byte is one more, and not the last, of such a character.
pub(crate) fn waits(front: Front, byte: u8) -> bool
    ensures { result ≡ waits front byte }
{
    match front {
        Front::E2 | Front::F3A0 => byte == 128 || byte == 129,
        Front::F3 => byte == 160,
        _ => false,
    }
}

// How far a text is behind one more byte.
pub(crate) fn next(front: Front, byte: u8) -> Front
    ensures { result ≡ next front byte }
{
    match front {
        Front::E2 if byte == 128 => Front::E280,
        Front::E2 if byte == 129 => Front::E281,
        Front::F3 if byte == 160 => Front::F3A0,
        Front::F3A0 if byte == 128 => Front::F3A080,
        Front::F3A0 if byte == 129 => Front::F3A081,
        _ => front_of(byte),
    }
}

// What has come of a character with its first byte.
fn front_of(byte: u8) -> Front
    ensures { result ≡ front_of byte }
{
    match byte {
        194 => Front::C2,
        226 => Front::E2,
        243 => Front::F3,
        _ => Front::Empty,
    }
}

// The bytes that came of a character.
pub(crate) fn front_bytes(front: Front) -> &'static [u8]
    ensures { result.now ≡ front_bytes front }
{
    match front {
        Front::Empty => b"",
        Front::C2 => b"\xc2",
        Front::E2 => b"\xe2",
        Front::E280 => b"\xe2\x80",
        Front::E281 => b"\xe2\x81",
        Front::F3 => b"\xf3",
        Front::F3A0 => b"\xf3\xa0",
        Front::F3A080 => b"\xf3\xa0\x80",
        Front::F3A081 => b"\xf3\xa0\x81",
    }
}

// The characters among which one is.
pub(crate) fn block_of(front: Front) -> Block
    ensures { result ≡ block_of front }
{
    match front {
        Front::Empty | Front::C2 => Block::Latin,
        Front::E2 | Front::E280 | Front::E281 => Block::Punctuation,
        Front::F3 | Front::F3A0 | Front::F3A080 | Front::F3A081 => Block::Tags,
    }
}

// Which of them it is, with its last byte.
pub(crate) fn place(front: Front, byte: u8) -> u8
    ensures { result ≡ place front byte }
{
    match front {
        Front::E280 | Front::F3A080 => byte.saturating_sub(128),
        Front::E281 | Front::F3A081 => byte.saturating_sub(64),
        _ => byte,
    }
}

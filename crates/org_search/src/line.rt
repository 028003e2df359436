//! Lines without their endings.
ghost use Rattle.std.specs.Prelude.{◌≡◌};
ghost use Rattle.org_search.specs.Holds.{bare, without_ending, without_last};

use std::str;

/// A line without the line feed at its end, and without a carriage return in front of that; nothing of bytes that are no
/// UTF-8, which no file has.
pub fn bare_line(line: &[u8]) -> &str
    ensures value { result.now ≡ bare line.now }
{
    match str::from_utf8(without_ending(line)) {
        Ok(text) => text,
        Err(_) => "",
    }
}

fn without_ending(line: &[u8]) -> &[u8]
    ensures value { result.now ≡ without_ending line.now }
{
    without_last(without_last(line, b'\n'), b'\r')
}

fn without_last(text: &[u8], byte: u8) -> &[u8]
    ensures value { result.now ≡ without_last byte text.now }
{
    let count = text.len();
    if count > 0 && text[count - 1] == byte {
        &text[..count - 1]
    } else {
        text
    }
}

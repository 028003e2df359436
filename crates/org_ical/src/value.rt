//! Texts as values of properties.
ghost use Rattle.std.specs.Prelude.{◌≡◌};
ghost use Rattle.org_ical.specs.Results.{Adds, bytes_of};
ghost use Rattle.org_ical.specs.Texts.{escaped_byte, is_control, is_second, is_special, plain_byte, value_text, values_behind, values_text};

use std::alloc::AllocError;

// The first byte of U+0080 to U+00BF.
const LEAD: u8 = 194;

/// Appends the value that spells a text: a backslash, a semicolon and a comma stand after a backslash, a line feed is `\n`,
/// another control character a space.
pub(crate) fn push_value(out: &mut Vec<u8>, text: &[u8]) -> Result<(), AllocError>
    ensures { Adds result out.old out.new (value_text text.now) }
{
    let mut led = false;
    for byte in text {
        push_escaped(out, plain_byte(led, *byte))?;
        led = *byte == LEAD;
    }
    Ok(())
}

/// Appends the values that spell some texts, with commas between them.
pub(crate) fn push_values(out: &mut Vec<u8>, texts: &[Vec<u8>]) -> Result<(), AllocError>
    ensures { Adds result out.old out.new (values_text (bytes_of texts.now)) }
{
    let Some((first, others)) = texts.split_first() else {
        return Ok(());
    };
    push_value(out, first.as_slice())?;
    push_others(out, others)
}

fn push_others(out: &mut Vec<u8>, texts: &[Vec<u8>]) -> Result<(), AllocError>
    ensures { Adds result out.old out.new (values_behind (bytes_of texts.now)) }
{
    for text in texts {
        out.push(b',')?;
        push_value(out, text.as_slice())?;
    }
    Ok(())
}

// A byte of a text, where LEAD may have come before.
fn plain_byte(led: bool, byte: u8) -> u8
    ensures { result ≡ plain_byte led byte }
{
    if byte == b'\n' {
        b'\n'
    } else if is_control(byte) {
        b' '
    } else if led && is_second(byte) {
        160
    } else {
        byte
    }
}

fn is_control(byte: u8) -> bool
    ensures { result ≡ is_control byte }
{
    byte < 32 || byte == 127
}

fn is_second(byte: u8) -> bool
    ensures { result ≡ is_second byte }
{
    128 <= byte && byte < 160
}

fn push_escaped(out: &mut Vec<u8>, byte: u8) -> Result<(), AllocError>
    ensures { Adds result out.old out.new (escaped_byte byte) }
{
    if byte == b'\n' {
        out.extend_from_slice(b"\\n")?;
        return Ok(());
    }
    if is_special(byte) {
        out.push(b'\\')?;
    }
    out.push(byte)?;
    Ok(())
}

fn is_special(byte: u8) -> bool
    ensures { result ≡ is_special byte }
{
    byte == b'\\' || byte == b';' || byte == b','
}

//! Content lines.
ghost use Rattle.std.specs.Prelude.{◌≡◌, ◌+◌, ◌≤◌, IfOk};
ghost use Rattle.org_ical.specs.Lines.{char_octets, is_past, octet_text, used_with, written_line};
ghost use Rattle.org_ical.specs.Results.{Adds, Gives};

use std::alloc::AllocError;

/// The most octets of a line, its end not counted.
pub const MOST_OCTETS: usize = 75;

/// Appends a content line, folded where it is longer than a line may be, but within no character.
pub(crate) fn push_line(out: &mut Vec<u8>, line: &[u8]) -> Result<(), AllocError>
    ensures { Adds result out.old out.new (written_line line.now) }
{
    let mut used: usize = 0;
    for octet in line {
        push_octet(out, used, *octet)?;
        used = used_with(used, *octet);
    }
    out.extend_from_slice(b"\r\n")?;
    Ok(())
}

fn push_octet(out: &mut Vec<u8>, used: usize, octet: u8) -> Result<(), AllocError>
    requires { used ≤ MOST_OCTETS }
    ensures { Adds result out.old out.new (octet_text used octet) }
{
    if is_past(used, octet) {
        out.extend_from_slice(b"\r\n ")?;
    }
    out.push(octet)?;
    Ok(())
}

// How many octets a line has with one more.
fn used_with(used: usize, octet: u8) -> usize
    requires { used ≤ MOST_OCTETS }
    ensures value { result ≡ used_with used octet }
    ensures within { result ≤ MOST_OCTETS }
{
    if is_past(used, octet) { 2 } else { used + 1 }
}

// Whether the character that an octet begins goes past the end of a line that has so many.
fn is_past(used: usize, octet: u8) -> bool
    requires { used ≤ MOST_OCTETS }
    ensures { result ≡ is_past used octet }
{
    used + char_octets(octet) > MOST_OCTETS
}

fn char_octets(octet: u8) -> usize
    ensures { result ≡ char_octets octet }
{
    match octet {
        0..192 => 1,
        192..224 => 2,
        224..240 => 3,
        _ => 4,
    }
}

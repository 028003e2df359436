//! Numbers that digits spell.
ghost use Rattle.std.specs.Prelude.{◌≡◌};
ghost use Rattle.org_cal.specs.Texts.{four_digits, two_digits};

/// The number that two ASCII digits spell.
pub fn two_digits(tens: u8, ones: u8) -> Option<u8>
    ensures value { result ≡ two_digits tens ones }
{
    if tens.is_ascii_digit() && ones.is_ascii_digit() {
        Some((tens - b'0') * 10 + (ones - b'0'))
    } else {
        None
    }
}

// The number that four ASCII digits spell.
pub(crate) fn four_digits(a: u8, b: u8, c: u8, d: u8) -> Option<u16>
    ensures value { result ≡ four_digits a b c d }
{
    let high = two_digits(a, b)?;
    let low = two_digits(c, d)?;
    Some(high as u16 * 100 + low as u16)
}

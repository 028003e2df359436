//! Numbers, in billionths and counted from -10^18.
ghost use Rattle.std.specs.Char.{is_ascii_digit};
ghost use Rattle.std.specs.Prelude.{◌≡◌, ◌^◌, ◌≤◌, ◌<◌, length, true};
ghost use Rattle.std.specs.List.{list_all};
ghost use Rattle.org_expression.specs.Decimal.{behind, front_digits, front_value, number, number_at, read_decimals, read_on, unsigned_decimal};

const ZERO: u128 = 1_000_000_000_000_000_000_000_000_000;

// The number of up to eighteen digits.
pub(crate) fn read_whole(digits: &[u8]) -> u128
    requires digits { list_all is_ascii_digit digits.now ≡ true }
    requires has_room { length digits.now ≤ 18 }
    ensures value { result ≡ read_on 0 digits.now }
    ensures below { result < 10 ^ 18 }
{
    let mut n: u128 = 0;
    for digit in digits {
        n = 10 * n + (*digit - b'0') as u128;
    }
    n
}

// The number with nine decimals more.
fn read_decimals(whole: u128, fraction: &[u8]) -> u128
    requires has_room { whole < 10 ^ 18 }
    ensures value { result ≡ read_decimals whole 9 fraction.now }
    ensures below { result < 10 ^ 27 }
{
    let mut n = whole;
    let mut rest = fraction;
    for place in 0..9u8 {
        let _ = place;
        n = 10 * n + front_value(rest) as u128;
        rest = behind(rest);
    }
    n
}

// The digit at the front, else 0.
fn front_value(text: &[u8]) -> u8
    ensures value { result ≡ front_value text.now }
    ensures fits { result ≤ 9 }
{
    match text.first() {
        Some(byte) if byte.is_ascii_digit() => *byte - b'0',
        _ => 0,
    }
}

// What stands after a digit at the front.
fn behind(text: &[u8]) -> &[u8]
    ensures value { result.now ≡ behind text.now }
{
    match text {
        [byte, rest @ ..] if byte.is_ascii_digit() => rest,
        _ => &[],
    }
}

// How many digits stand at the front.
pub(crate) fn digit_count(text: &[u8]) -> usize
    ensures value { result ≡ length (front_digits text.now) }
    ensures within { result ≤ length text.now }
{
    let mut count = 0;
    for byte in text {
        if !byte.is_ascii_digit() {
            return count;
        }
        count += 1;
    }
    count
}

/// The number with these digits before and after the point, in billionths counted from -10^18; that of 0 with none or
/// more than eighteen digits before it. Decimals after the ninth don't count (profile).
pub fn number(is_negative: bool, whole: &[u8], fraction: &[u8]) -> u128
    ensures value { result ≡ number is_negative whole.now fraction.now }
{
    let count = digit_count(whole);
    if count == 0 || count > 18 {
        return ZERO;
    }
    let n = read_decimals(read_whole(&whole[..count]), fraction);
    if is_negative { ZERO - n } else { ZERO + n }
}

// The number of digits, and perhaps a point and more.
fn unsigned_decimal(is_negative: bool, text: &[u8]) -> u128
    ensures value { result ≡ unsigned_decimal is_negative text.now }
{
    match &text[digit_count(text)..] {
        [b'.', fraction @ ..] => number(is_negative, text, fraction),
        _ => number(is_negative, text, &[]),
    }
}

/// The number at the front of a text, as [`number`] gives it, else that of 0.
pub fn number_at(text: &[u8]) -> u128
    ensures value { result ≡ number_at text.now }
{
    match text {
        [] => ZERO,
        [b'-', rest @ ..] => unsigned_decimal(true, rest),
        [b'+', rest @ ..] => unsigned_decimal(false, rest),
        _ => unsigned_decimal(false, text),
    }
}

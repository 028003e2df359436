//! Efforts.
ghost use Rattle.std.specs.Prelude.{◌≡◌, ◌<◌, ◌≤◌, ◌*◌, ◌^◌, IfSome, length, take, drop};
ghost use Rattle.std.specs.List.{prefix_len};
ghost use Rattle.std.specs.Char.{is_ascii_digit};
ghost use Rattle.std.specs.Str.Parse.{AllDigits, digits_value};
ghost use Rattle.org_base.specs.Words.{is_space};
ghost use Rattle.org_drawer.specs.Effort.{effort_of, hours, number_of, sixtieths, unit_minutes, units};
ghost use Rattle.org_drawer.specs.declared.effort.TheConstants.{LONGEST_EFFORT};

use org_cal::two_digits;

/// The minutes of the longest effort, 9,999 years.
pub const LONGEST_EFFORT: u64 = 5_259_074_040;

/// The minutes of an effort (Org manual 9.6, "Effort Estimates"): `H:MM`, H of up to six digits and MM 00 to 59; whole
/// minutes, up to six digits; or a number of up to four digits, white space or none, and `min`, `h`, `d`, `w`, `m` or
/// `y`, for 1, 60, 1440, 10,080, 43,200 or 525,960 minutes. None for any other text, also one with white space at its
/// ends.
pub fn effort_minutes(text: &[u8]) -> Option<u64>
    ensures value { result ≡ effort_of text.now }
    ensures most { IfSome result (λ minutes. minutes ≤ LONGEST_EFFORT) }
{
    let (digits, rest) = split_digits(text);
    if digits.is_empty() {
        return None;
    }
    match rest {
        [] => number_of(6, digits),
        [b':', rest @ ..] => hours(digits, rest),
        _ => units(digits, rest),
    }
}

// The digits at the front, and what follows them.
#[tactic(auto, using(crate::proofs::EffortLemmas::digits_before))]
fn split_digits(text: &[u8]) -> (&[u8], &[u8])
    ensures front { result.0.now ≡ take (prefix_len is_ascii_digit text.now) text.now }
    ensures rest { result.1.now ≡ drop (prefix_len is_ascii_digit text.now) text.now }
    ensures digits { AllDigits 10 result.0.now }
{
    text.split_at(leading_digits(text))
}

// How many digits stand at the front.
fn leading_digits(text: &[u8]) -> usize
    ensures value { result ≡ prefix_len is_ascii_digit text.now }
    ensures within { result ≤ length text.now }
{
    text.iter().take_while(|b| b.is_ascii_digit()).count()
}

// The number that digits write, where they are at most so many.
#[tactic(auto, using(crate::proofs::EffortLemmas::digits_below))]
fn number_of(most: usize, digits: &[u8]) -> Option<u64>
    requires at_most { most ≤ 6 }
    requires digits { AllDigits 10 digits.now }
    ensures value { result ≡ number_of most digits.now }
    ensures below { IfSome result (λ n. n < 10 ^ most) }
{
    if digits.len() <= most {
        Some(value_of(digits))
    } else {
        None
    }
}

// The number that up to six digits write.
fn value_of(digits: &[u8]) -> u64
    requires at_most { length digits.now ≤ 6 }
    requires digits { AllDigits 10 digits.now }
    ensures value { result ≡ digits_value 10 digits.now }
{
    let mut n = 0;
    for digit in digits {
        n = n * 10 + (*digit - b'0') as u64;
    }
    n
}

// `H:MM`, of the digits before the colon and what stands after it.
fn hours(digits: &[u8], rest: &[u8]) -> Option<u64>
    requires { AllDigits 10 digits.now }
    ensures value { result ≡ hours digits.now rest.now }
    ensures most { IfSome result (λ minutes. minutes ≤ LONGEST_EFFORT) }
{
    let hour = number_of(6, digits)?;
    Some(hour * 60 + sixtieths(rest)?)
}

// Two digits of 00 to 59.
fn sixtieths(text: &[u8]) -> Option<u64>
    ensures value { result ≡ sixtieths text.now }
    ensures below { IfSome result (λ n. n < 60) }
{
    let [tens, ones] = text else {
        return None;
    };
    let n = two_digits(*tens, *ones)?;
    if n < 60 { Some(n as u64) } else { None }
}

// A number and a unit, of the digits and what stands after them.
fn units(digits: &[u8], rest: &[u8]) -> Option<u64>
    requires { AllDigits 10 digits.now }
    ensures value { result ≡ units digits.now rest.now }
    ensures most { IfSome result (λ minutes. minutes ≤ LONGEST_EFFORT) }
{
    let n = number_of(4, digits)?;
    let gap = leading_spaces(rest);
    Some(product(n, unit_minutes(&rest[gap..])?))
}

fn is_space(byte: u8) -> bool
    ensures value { result ≡ is_space byte }
{
    matches!(byte, b' ' | b'\t' | b'\r')
}

// How much white space stands at the front.
fn leading_spaces(text: &[u8]) -> usize
    ensures value { result ≡ prefix_len is_space text.now }
    ensures within { result ≤ length text.now }
{
    text.iter().take_while(|b| is_space(**b)).count()
}

// The minutes of a unit.
fn unit_minutes(unit: &[u8]) -> Option<u64>
    ensures value { result ≡ unit_minutes unit.now }
    ensures most { IfSome result (λ minutes. minutes ≤ 525_960) }
{
    match unit {
        b"min" => Some(1),
        b"h" => Some(60),
        b"d" => Some(1440),
        b"w" => Some(10_080),
        b"m" => Some(43_200),
        b"y" => Some(525_960),
        _ => None,
    }
}

#[tactic(auto, using(crate::proofs::EffortLemmas::product_below))]
fn product(n: u64, minutes: u64) -> u64
    requires n { n ≤ 9_999 }
    requires minutes { minutes ≤ 525_960 }
    ensures value { result ≡ n * minutes }
    ensures most { result ≤ LONGEST_EFFORT }
{
    n * minutes
}

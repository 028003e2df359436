//! Repeaters and delays.
ghost use Rattle.std.specs.Prelude.{◌≡◌, ◌≤◌};
ghost use Rattle.org_stamp.specs.Mark.{amount, amount_from, mark_with, limit, mark_of, sign_at, top, unit_of};
ghost use Rattle.org_base.specs.Results.{found_before};

use org_cal::Unit;

/// Where a repeater shifts to when its task is done (Org manual 9.6, "Repeated tasks").
#[derive(Clone, Copy, Debug, PartialEq, Eq)]
pub enum RepeaterKind {
    /// `+`: one interval later.
    Plain,
    /// `++`: so many intervals later that it lies in the future.
    Future,
    /// `.+`: one interval after today.
    Today,
}

/// A repeater, as `++2w` (Org manual 9.6, "Repeated tasks"). One that is read has an `n` from 1 to 9999.
#[derive(Clone, Copy, Debug, PartialEq, Eq)]
pub struct Repeater {
    pub kind: RepeaterKind,
    pub n: u16,
    pub unit: Unit,
    /// What stands after a slash, as in `.+2d/3d`: it is kept and not used (profile).
    pub limit: Option<(u16, Unit)>,
}

/// A delay of a scheduled item or a deadline's warning time, as `-3d` (Org manual 9.6, "Deadlines and Scheduling"). One
/// that is read has an `n` from 0 to 9999.
#[derive(Clone, Copy, Debug, PartialEq, Eq)]
pub struct Delay {
    /// Written with two dashes: it delays no repetition.
    pub first_only: bool,
    pub n: u16,
    pub unit: Unit,
}

// A repeater or a delay, as they stand in a stamp.
#[derive(Clone, Copy, Debug, PartialEq, Eq)]
pub(crate) enum Mark {
    Repeat(Repeater),
    Wait(Delay),
}

// What a mark begins with.
#[derive(Clone, Copy, Debug, PartialEq, Eq)]
pub(crate) enum Sign {
    Repeats(RepeaterKind),
    Waits(bool),
}

// The unit of a letter.
pub(crate) fn unit_of(letter: u8) -> Option<Unit>
    ensures value { result ≡ unit_of letter }
{
    match letter {
        b'h' => Some(Unit::Hour),
        b'd' => Some(Unit::Day),
        b'w' => Some(Unit::Week),
        b'm' => Some(Unit::Month),
        b'y' => Some(Unit::Year),
        _ => None,
    }
}

// The number after its first digits, with at most so many more, its unit, and what follows.
fn amount_from(room: u8, n: u16, bytes: &[u8]) -> Option<((u16, Unit), &[u8])>
    requires at_most { room ≤ 3 }
    requires fits { n ≤ top room }
    ensures value { found_before result ≡ amount_from room n bytes.now }
{
    match bytes {
        [] => None,
        [b, rest @ ..] => {
            if !b.is_ascii_digit() {
                return Some(((n, unit_of(*b)?), rest));
            }
            if room == 0 {
                return None;
            }
            amount_from(room - 1, n * 10 + (*b - b'0') as u16, rest)
        }
    }
}

// One to four digits and a unit at the front, and what follows.
fn amount(bytes: &[u8]) -> Option<((u16, Unit), &[u8])>
    ensures value { found_before result ≡ amount bytes.now }
{
    match bytes {
        [b, rest @ ..] if b.is_ascii_digit() => amount_from(3, (*b - b'0') as u16, rest),
        _ => None,
    }
}

// What a mark begins with, and what follows.
fn sign_at(word: &[u8]) -> Option<(Sign, &[u8])>
    ensures value { found_before result ≡ sign_at word.now }
{
    match word {
        [b'+', b'+', rest @ ..] => Some((Sign::Repeats(RepeaterKind::Future), rest)),
        [b'+', _, ..] => Some((Sign::Repeats(RepeaterKind::Plain), &word[1..])),
        [b'-', b'-', rest @ ..] => Some((Sign::Waits(true), rest)),
        [b'-', _, ..] => Some((Sign::Waits(false), &word[1..])),
        [b'.', b'+', rest @ ..] => Some((Sign::Repeats(RepeaterKind::Today), rest)),
        _ => None,
    }
}

// Nothing, or a slash and an amount that ends the word.
fn limit(bytes: &[u8]) -> Option<Option<(u16, Unit)>>
    ensures value { result ≡ limit bytes.now }
{
    match bytes {
        [] => Some(None),
        [b'/', rest @ ..] => {
            let (found, after) = amount(rest)?;
            if after.is_empty() {
                Some(Some(found))
            } else {
                None
            }
        }
        _ => None,
    }
}

// The mark that a word is.
pub(crate) fn mark_of(word: &[u8]) -> Option<Mark>
    ensures value { result ≡ mark_of word.now }
{
    let (sign, rest) = sign_at(word)?;
    let (found, rest) = amount(rest)?;
    mark_with(sign, found.0, found.1, rest)
}

// The mark of a sign, a number with its unit and the rest of the word.
fn mark_with(sign: Sign, n: u16, unit: Unit, rest: &[u8]) -> Option<Mark>
    ensures value { result ≡ mark_with sign ((n, unit), rest.now) }
{
    match sign {
        Sign::Repeats(kind) => {
            let limit = limit(rest)?;
            Some(Mark::Repeat(Repeater {
                kind,
                n,
                unit,
                limit,
            }))
        }
        Sign::Waits(first_only) => {
            if !rest.is_empty() {
                return None;
            }
            Some(Mark::Wait(Delay {
                first_only,
                n,
                unit,
            }))
        }
    }
}

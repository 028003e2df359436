//! The letters that stand for a sum.
ghost use Rattle.std.specs.Prelude.{◌≡◌, ◌<◌};
ghost use Rattle.std.specs.List.{list_all};
ghost use Rattle.org_base.specs.Results.{Adds};
ghost use Rattle.org_ids.specs.Letters.{id_length, id_of, is_id, is_letter, letter_at, stands_for};

use std::alloc::AllocError;

// Small letters and digits but for l, o, 0 and 1, which look alike: five bits each.
const LETTERS: &[u8; 32] = b"abcdefghijkmnpqrstuvwxyz23456789";

/// The letters of a whole sum.
pub const MOST_LETTERS: usize = 12;

// The fewest letters of an id.
const FEWEST_LETTERS: usize = 4;

// A stranger is hit by one chance in so many.
const CHANCES: u64 = 1_000_000;

/// Appends the first letters of a sum, as many as there may be at most.
pub fn push_id(out: &mut Vec<u8>, sum: u64, count: usize) -> Result<(), AllocError>
    requires few { count < 13 }
    ensures value { Adds result out.old out.new (id_of count sum) }
{
    for place in 0..count {
        out.push(letter_at(sum, place))?;
    }
    Ok(())
}

/// Whether a word is the beginning of a sum.
pub fn stands_for(word: &[u8], sum: u64) -> bool
    ensures value { result ≡ stands_for word.now sum }
{
    for place in 0..word.len() {
        if word[place] != letter_at(sum, place) {
            return false;
        }
    }
    true
}

// The letter at a place of a sum.
fn letter_at(sum: u64, place: usize) -> u8
    ensures value { result ≡ letter_at sum place }
{
    let rest = 11usize.saturating_sub(place) as u32;
    let letter = sum / 32u64.pow(rest) % 32;
    LETTERS[letter as usize]
}

/// Whether a word could be an id.
pub fn is_id(word: &[u8]) -> bool
    ensures value { result ≡ is_id word.now }
{
    if word.len() < FEWEST_LETTERS || word.len() > MOST_LETTERS {
        return false;
    }
    are_letters(word)
}

fn are_letters(word: &[u8]) -> bool
    ensures value { result ≡ list_all is_letter word.now }
{
    word.iter().all(|byte| is_letter(*byte))
}

fn is_letter(byte: u8) -> bool
    ensures value { result ≡ is_letter byte }
{
    LETTERS.iter().any(|letter| byte == *letter)
}

/// How many letters an id has among so many headings: the fewest by which a stranger is hit by less than one chance in a
/// million, and no fewer than four.
pub fn id_length(count: u64) -> usize
    ensures value { result ≡ id_length count }
{
    let wanted = u128::from(count) * u128::from(CHANCES);
    let mut enough = 1u128 << 20;
    for length in FEWEST_LETTERS..MOST_LETTERS {
        if wanted <= enough {
            return length;
        }
        enough *= 32;
    }
    MOST_LETTERS
}

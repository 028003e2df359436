//! Why words aren't looked for.
ghost use Rattle.std.specs.Prelude.{◌≡◌, ◌==◌};
ghost use Rattle.std.specs.List.{list_any};
ghost use Rattle.org_base.specs.Results.{lent_in};
ghost use Rattle.org_search.specs.Refused.{first_refusal, is_empty_word, refusal_of, word_refusal};

/// The most words and patterns of one search.
pub const MOST_WORDS: usize = 32;

/// Why words aren't looked for.
#[derive(Clone, Copy, Debug, PartialEq, Eq)]
pub enum Refusal {
    /// There is none.
    NoWord,
    /// There are more than `MOST_WORDS`.
    ManyWords,
    /// One is empty, or nothing stands behind its minus.
    EmptyWord,
    /// One has a line feed, which no line has.
    LineFeed,
}

/// Why these words aren't looked for, if they aren't: their number first, and then the first word that is none.
pub fn refusal_of(words: &[&str]) -> Option<Refusal>
    ensures value { result ≡ refusal_of (lent_in words.now) }
{
    if words.is_empty() {
        return Some(Refusal::NoWord);
    }
    if words.len() > MOST_WORDS {
        return Some(Refusal::ManyWords);
    }
    first_refusal(words)
}

// The refusal of the first word that has one.
fn first_refusal(words: &[&str]) -> Option<Refusal>
    ensures value { result ≡ first_refusal (lent_in words.now) }
{
    for word in words {
        if let Some(refusal) = word_refusal(word.as_bytes()) {
            return Some(refusal);
        }
    }
    None
}

// Why a word isn't looked for, if it isn't.
fn word_refusal(word: &[u8]) -> Option<Refusal>
    ensures value { result ≡ word_refusal word.now }
{
    if is_empty_word(word) {
        return Some(Refusal::EmptyWord);
    }
    if has_line_feed(word) {
        return Some(Refusal::LineFeed);
    }
    None
}

fn is_empty_word(word: &[u8]) -> bool
    ensures value { result ≡ is_empty_word word.now }
{
    match word {
        [] => true,
        [byte] => *byte == b'-',
        _ => false,
    }
}

fn has_line_feed(word: &[u8]) -> bool
    ensures value { result ≡ list_any (λ b. b == 10) word.now }
{
    for byte in word {
        if *byte == b'\n' {
            return true;
        }
    }
    false
}

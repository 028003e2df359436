//! Words as they are typed.
ghost use Rattle.std.specs.Prelude.{◌≡◌, option_copied};
ghost use Rattle.org_search.specs.Typed.{inner, is_slashed, pattern_text, text_of};

use std::str;

// The pattern between slashes, if there is one.
pub(crate) fn pattern_text(word: &str) -> Option<&str>
    ensures value { option_copied result ≡ pattern_text word.now }
{
    let bytes = word.as_bytes();
    if is_slashed(bytes) {
        text_of(inner(bytes))
    } else {
        None
    }
}

// The text that bytes spell.
fn text_of(bytes: &[u8]) -> Option<&str>
    ensures value { option_copied result ≡ text_of bytes.now }
{
    match str::from_utf8(bytes) {
        Ok(text) => Some(text),
        Err(_) => None,
    }
}

// Whether slashes stand around something.
fn is_slashed(word: &[u8]) -> bool
    ensures value { result ≡ is_slashed word.now }
{
    let count = word.len();
    count > 2 && word[0] == b'/' && word[count - 1] == b'/'
}

// What stands between the first byte and the last; nothing of fewer than three.
fn inner(word: &[u8]) -> &[u8]
    ensures value { result.now ≡ inner word.now }
{
    let count = word.len();
    if count < 3 {
        return &[];
    }
    &word[1..count - 1]
}

//! Marks of keywords, as in `WAIT(w@/!)`.
ghost use Rattle.std.specs.Prelude.{◌≡◌, ◌≤◌, length};
ghost use Rattle.std.specs.List.{prefix_len};
ghost use Rattle.org_log.specs.Marks.{behind_key, both_marks, goes_on, mark, marks_behind, marks_of};

use crate::how::{How, Marks, NO_MARKS};

// The keyword of a word of a `#+TODO:` line or of `LOGGING`, and what stands between its parentheses; nothing where it has none.
pub(crate) fn keyword_parts(word: &str) -> (&str, &str) {
    let Some(front) = word.strip_suffix(')') else {
        return (word, "");
    };
    match front.split_once('(') {
        Some(parts) => parts,
        None => (word, ""),
    }
}

// What is asked for between parentheses: perhaps a key, perhaps a mark for entering, perhaps a slash and one for leaving. What
// isn't written so asks for nothing.
pub(crate) fn marks_of(inner: &[u8]) -> Marks
    ensures value { result ≡ marks_of inner.now }
{
    marks_behind(behind_key(inner))
}

// What stands behind the key, which is any one character but a mark and the slash.
fn behind_key(inner: &[u8]) -> &[u8]
    ensures value { result.now ≡ behind_key inner.now }
{
    let Some((first, rest)) = inner.split_first() else {
        return inner;
    };
    if mark(*first).is_some() || *first == b'/' {
        return inner;
    }
    &rest[continuation_len(rest)..]
}

// How many bytes at the front don't begin a character.
fn continuation_len(bytes: &[u8]) -> usize
    ensures within { result ≤ length bytes.now }
    ensures value { result ≡ prefix_len goes_on bytes.now }
{
    bytes.iter().take_while(|byte| goes_on(**byte)).count()
}

fn goes_on(byte: u8) -> bool
    ensures value { result ≡ goes_on byte }
{
    byte >= 128 && byte < 192
}

// What is asked for behind a key.
fn marks_behind(rest: &[u8]) -> Marks
    ensures value { result ≡ marks_behind rest.now }
{
    match rest {
        [one] => Marks {
            entering: mark(*one),
            leaving: None,
        },
        [b'/', two] => Marks {
            entering: None,
            leaving: mark(*two),
        },
        [one, b'/', two] => both_marks(*one, *two),
        _ => NO_MARKS,
    }
}

// A mark for entering and one for leaving, where both are marks.
fn both_marks(one: u8, two: u8) -> Marks
    ensures value { result ≡ both_marks one two }
{
    let (entering, leaving) = (mark(one), mark(two));
    if entering.is_some() && leaving.is_some() {
        Marks { entering, leaving }
    } else {
        NO_MARKS
    }
}

// What a mark asks for.
fn mark(byte: u8) -> Option<How>
    ensures value { result ≡ mark byte }
{
    if byte == b'!' {
        Some(How::Time)
    } else if byte == b'@' {
        Some(How::Note)
    } else {
        None
    }
}

//! The words that are parts of a heading line.
ghost use Rattle.std.specs.Prelude.{◌≡◌, ◌≤◌, ◌&&◌, ◌||◌, not, length};
ghost use Rattle.std.specs.List.{list_all, list_any, suffix_len};
ghost use Rattle.std.specs.Str.{is_utf8};
ghost use Rattle.org_base.specs.Characters.{is_tag_char};
ghost use Rattle.org_base.specs.Words.{is_letter};
ghost use Rattle.org_head.specs.Parts.{is_comment_word, is_colon, is_plain_tag_char, are_tag_chars, is_tag_word, last_word};

use org_base::is_tag_char;

// Whether the word hides its heading.
pub(crate) fn is_comment_word(word: &[u8]) -> bool
    ensures value { result ≡ is_comment_word word.now }
{
    word == b"COMMENT".as_slice()
}

// Whether the character may stand among tags.
fn is_tag_char_or_colon(c: char) -> bool
    ensures value { result ≡ (is_tag_char c || is_colon c) }
{
    c == ':' || is_tag_char(c)
}

fn are_tag_chars(text: &str) -> bool
    ensures value { result ≡ are_tag_chars text.now }
{
    text.chars().all(is_tag_char_or_colon)
}

fn has_other_than_colons(word: &[u8]) -> bool
    ensures value { result ≡ list_any (λ b. not (is_colon b)) word.now }
{
    word.iter().any(|b| *b != b':')
}

// Whether the byte is an ASCII character that may stand among tags.
fn is_plain_tag_char(byte: u8) -> bool
    ensures value { result ≡ is_plain_tag_char byte }
{
    byte.is_ascii()
        && (byte.is_ascii_alphanumeric()
            || matches!(byte, b'_' | b'@' | b'#' | b'%')
            || byte == b':')
}

fn are_plain_tag_chars(word: &[u8]) -> bool
    ensures value { result ≡ list_all is_plain_tag_char word.now }
{
    word.iter().all(|b| is_plain_tag_char(*b))
}

// Whether the bytes are UTF-8 and hold only what may stand among tags. ASCII is looked at byte by byte.
fn is_tag_text(word: &[u8]) -> bool
    ensures value { result ≡ (is_utf8 word.now && are_tag_chars word.now) }
{
    are_plain_tag_chars(word) || is_decoded_tag_text(word)
}

// The same of any bytes.
fn is_decoded_tag_text(word: &[u8]) -> bool
    ensures value { result ≡ (is_utf8 word.now && are_tag_chars word.now) }
{
    match std::str::from_utf8(word) {
        Ok(text) => are_tag_chars(text),
        Err(_) => false,
    }
}

// Whether the word is `:a:b:`.
pub(crate) fn is_tag_word(word: &[u8]) -> bool
    ensures value { result ≡ is_tag_word word.now }
{
    let len = word.len();
    len > 1
        && word[0] == b':'
        && word[len - 1] == b':'
        && has_other_than_colons(word)
        && is_tag_text(word)
}

fn trailing_letters(text: &[u8]) -> usize
    ensures within { result ≤ length text.now }
    ensures value { result ≡ suffix_len is_letter text.now }
{
    text.iter()
        .rev()
        .take_while(|b| !matches!(**b, b' ' | b'\t' | b'\r' | b'\n'))
        .count()
}

// The last word of a text at whose end no gap stands.
pub(crate) fn last_word(text: &[u8]) -> &[u8]
    ensures value { result.now ≡ last_word text.now }
{
    let letters = trailing_letters(text);
    &text[text.len() - letters..]
}

//! Words between white space.
ghost use Rattle.std.specs.Prelude.{◌≡◌, ◌<◌, ◌≤◌, length, IfSome};
ghost use Rattle.std.specs.List.{position_or_len, prefix_len};
ghost use Rattle.org_base.specs.Words.{is_space};
ghost use Rattle.org_stamp.specs.Word.{IsFirstWord};

// Whether the byte is a space, a tab or a CR.
pub(crate) fn is_space(byte: u8) -> bool
    ensures value { result ≡ is_space byte }
{
    matches!(byte, b' ' | b'\t' | b'\r')
}

/// How many bytes of white space stand at the front: spaces, tabs and CRs.
pub fn leading_spaces(bytes: &[u8]) -> usize
    ensures value { result ≡ prefix_len is_space bytes.now }
    ensures within { result ≤ length bytes.now }
{
    bytes.iter().take_while(|b| is_space(**b)).count()
}

// How many bytes stand before the first white space.
fn word_len(bytes: &[u8]) -> usize
    ensures value { result ≡ position_or_len is_space bytes.now }
    ensures within { result ≤ length bytes.now }
{
    bytes.iter().take_while(|b| !is_space(**b)).count()
}

// The first word of the bytes, and what follows it.
pub(crate) fn next_word(bytes: &[u8]) -> Option<(&[u8], &[u8])>
    ensures word { IsFirstWord bytes.now result }
    ensures shorter { IfSome result (λ found. length found.1.now < length bytes.now) }
{
    let gap = leading_spaces(bytes);
    let (_, rest) = bytes.split_at(gap);
    if rest.is_empty() {
        return None;
    }
    Some(rest.split_at(word_len(rest)))
}

//! Characters that look like a space, or like nothing, and are none.

// How many bytes the character at the front has, if it looks like a space or like nothing and no white space of Org is: the
// spaces of Unicode but that of the keyboard, and those without a width.
pub(crate) fn odd_space_len(bytes: &[u8]) -> usize {
    match bytes {
        // U+00A0.
        [0xC2, 0xA0, ..] => 2,
        // U+1680; U+2000 to U+200F; U+202F; U+205F and U+2060; U+3000; U+FEFF.
        [0xE1, 0x9A, 0x80, ..]
        | [0xE2, 0x80, 0x80..=0x8F, ..]
        | [0xE2, 0x80, 0xAF, ..]
        | [0xE2, 0x81, 0x9F..=0xA0, ..]
        | [0xE3, 0x80, 0x80, ..]
        | [0xEF, 0xBB, 0xBF, ..] => 3,
        _ => 0,
    }
}

// Whether such a character stands in a text.
pub(crate) fn has_odd_space(text: &[u8]) -> bool {
    for at in 0..text.len() {
        if text[at] >= 0xC2 && odd_space_len(&text[at..]) > 0 {
            return true;
        }
    }
    false
}

// Whether a text has such a character, and besides nothing but white space.
pub(crate) fn is_odd_gap(text: &[u8]) -> bool {
    let mut odd = false;
    let mut left: usize = 0;
    for at in 0..text.len() {
        if left > 0 {
            left -= 1;
            continue;
        }
        let len = odd_space_len(&text[at..]);
        if len > 0 {
            odd = true;
            left = len - 1;
        } else if !matches!(text[at], b' ' | b'\t') {
            return false;
        }
    }
    odd
}

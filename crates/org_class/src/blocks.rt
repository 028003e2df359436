//! The lines that begin and end blocks.
ghost use Rattle.std.specs.Prelude.{◌≡◌};
ghost use Rattle.org_class.specs.Blocks.{begins_with, block_name, ends_block};

use org_base::words::{first_word, same_word, trim};

/// Whether the text begins with the word, but for the case of ASCII letters.
pub fn begins_with(text: &[u8], word: &[u8]) -> bool
    ensures value { result ≡ begins_with text.now word.now }
{
    same_word(&text[..text.len().min(word.len())], word)
}

/// The name of the block that the line would open: X of `#+BEGIN_X`, in letters of any case. Empty where there is none.
pub fn block_name(line: &[u8]) -> &[u8]
    ensures value { result.now ≡ block_name line.now }
{
    let word = first_word(line);
    if begins_with(word, b"#+BEGIN_") && word.len() >= 8 {
        &word[8..]
    } else {
        &[]
    }
}

// Whether the line ends a block of this name.
pub(crate) fn ends_block(name: &[u8], line: &[u8]) -> bool
    ensures value { result ≡ ends_block name.now line.now }
{
    let text = trim(line);
    begins_with(text, b"#+END_") && text.len() >= 6 && same_word(&text[6..], name)
}

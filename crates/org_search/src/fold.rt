//! Case folding of texts.
ghost use Rattle.std.specs.Prelude.{◌≡◌, encode_utf8_all, string_bytes, OnOk};
ghost use Rattle.org_base.specs.Results.{Writes};
ghost use Rattle.ucd_case.specs.CaseFolding.{full_fold};
ghost use Rattle.org_search.specs.Folded.{folded};

use std::alloc::AllocError;
use ucd_case::full_folding;

// Puts a text with its case folded in place of what stands there. Texts of ASCII, which most lines are, need no look at each
// character.
pub(crate) fn put_folded(out: &mut String, text: &str) -> Result<(), AllocError>
    ensures value { OnOk result (string_bytes out.new ≡ folded text.now) }
{
    out.clear();
    if text.is_ascii() {
        out.push_str(text)?;
        out.make_ascii_lowercase();
        return Ok(());
    }
    push_chars(out, text)
}

// Appends a text with its case folded, character by character.
fn push_chars(out: &mut String, text: &str) -> Result<(), AllocError>
    ensures value { Writes result out.old out.new (folded text.now) }
{
    for c in text.chars() {
        push_char(out, c)?;
    }
    Ok(())
}

// Appends what a character folds to.
fn push_char(out: &mut String, c: char) -> Result<(), AllocError>
    ensures value { Writes result out.old out.new (encode_utf8_all (full_fold c)) }
{
    let several = full_folding(c);
    if several.is_empty() {
        return out.push(c);
    }
    push_all(out, several)
}

// Appends characters.
fn push_all(out: &mut String, several: &[char]) -> Result<(), AllocError>
    ensures value { Writes result out.old out.new (encode_utf8_all several.now) }
{
    for c in several {
        out.push(*c)?;
    }
    Ok(())
}

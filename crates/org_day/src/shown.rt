//! Texts as a terminal may show them.
ghost use Rattle.std.specs.Prelude.{◌≡◌, chars, encode_utf8_all, map};
ghost use Rattle.org_day.specs.Results.{Writes};
ghost use Rattle.org_day.specs.Shown.{is_hidden, shown};

use org_visible::is_mark;
use std::alloc::AllocError;

/// Appends a text; each control character, and each mark that turns or hides text, stands as U+FFFD.
pub fn push_shown(out: &mut String, text: &str) -> Result<(), AllocError>
    ensures value { Writes result out.old out.new (encode_utf8_all (map shown (chars text.now))) }
{
    for c in text.chars() {
        out.push(shown_char(c))?;
    }
    Ok(())
}

fn shown_char(c: char) -> char
    ensures value { result ≡ shown c }
{
    if is_hidden(c) { '\u{fffd}' } else { c }
}

fn is_hidden(c: char) -> bool
    ensures value { result ≡ is_hidden c }
{
    let number = u32::from(c);
    number < 32 || (127 <= number && number < 160) || is_mark(c)
}

//! Characters as they stand in a page.
ghost use Rattle.std.specs.Prelude.{◌≡◌, chars, encode_utf8_all};
ghost use Rattle.org_page.specs.Characters.{char_text, is_control, is_left_out, is_name_char, is_set_aside, part_text, words_char};
ghost use Rattle.org_page.specs.Results.{Writes};

use org_visible::is_mark;
use std::alloc::AllocError;

/// What a text is in a page: the name of a tag or an attribute, or words and values.
#[derive(Clone, Copy, Debug, PartialEq, Eq)]
pub enum Part {
    Name,
    Words,
}

/// Appends a text as it stands in a page.
pub fn push_part(out: &mut String, text: &str, part: Part) -> Result<(), AllocError>
    ensures { Writes result out.old out.new (encode_utf8_all (part_text part (chars text.now))) }
{
    for c in text.chars() {
        push_char(out, c, part)?;
    }
    Ok(())
}

fn push_char(out: &mut String, c: char, part: Part) -> Result<(), AllocError>
    ensures { Writes result out.old out.new (encode_utf8_all (char_text part c)) }
{
    match part {
        Part::Name => push_name_char(out, c),
        Part::Words => push_words_char(out, c),
    }
}

fn push_name_char(out: &mut String, c: char) -> Result<(), AllocError>
    ensures { Writes result out.old out.new (encode_utf8_all (char_text Part.Name c)) }
{
    if is_name_char(c) {
        out.push(c)?;
    }
    Ok(())
}

fn is_name_char(c: char) -> bool
    ensures { result ≡ is_name_char c }
{
    let code = u32::from(c);
    (97 <= code && code < 123)
        || (65 <= code && code < 91)
        || (48 <= code && code < 58)
        || code == 45
        || code == 47
        || code == 33
        || code == 32
}

fn push_words_char(out: &mut String, c: char) -> Result<(), AllocError>
    ensures { Writes result out.old out.new (encode_utf8_all (words_char c)) }
{
    if c == '&' {
        return out.push_str("&amp;");
    }
    if c == '<' {
        return out.push_str("&lt;");
    }
    if c == '>' {
        return out.push_str("&gt;");
    }
    if c == '"' {
        return out.push_str("&quot;");
    }
    if c == '\'' {
        return out.push_str("&#x27;");
    }
    let shown = if is_left_out(c) { '\u{fffd}' } else { c };
    out.push(shown)
}

// Whether a character stands as U+FFFD.
fn is_left_out(c: char) -> bool
    ensures { result ≡ is_left_out c }
{
    is_control(c) || is_set_aside(c) || is_mark(c)
}

// Whether a character is a control character other than a tab and a line feed.
fn is_control(c: char) -> bool
    ensures { result ≡ is_control c }
{
    let code = u32::from(c);
    code < 9 || (11 <= code && code < 32) || (127 <= code && code < 160)
}

// Whether a number is set aside and no character.
fn is_set_aside(c: char) -> bool
    ensures { result ≡ is_set_aside c }
{
    let code = u32::from(c);
    (64976 <= code && code < 65008) || 65534 <= code % 65536
}

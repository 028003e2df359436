//! Where links lead.
ghost use Rattle.std.specs.Prelude.{◌≡◌, ◌<◌, encode_utf8_all};
ghost use Rattle.org_page.specs.Links.{encoded, encoded_byte, hex_digit, is_plain_byte};
ghost use Rattle.org_page.specs.Results.{Writes};

use std::alloc::{AllocError, Global};

/// Where a link leads if no template is given: the line of a text, by its number and by that of the line before.
pub const PLAIN_LINK: &str = "file://{file}#line={before},{line}";

/// The members of a template: the path of a file, its name without its folder, a line, and the number of lines before that.
pub const LINK_MEMBERS: [&str; 4] = ["file", "name", "line", "before"];

/// An address in which names of members in braces stand for a place; `{{` and `}}` stand for braces.
#[derive(Clone, Copy, Debug, PartialEq, Eq)]
pub struct LinkTemplate<'a> {
    text: &'a str,
}

/// A place that a link leads to: a file by its path, and a line from 1.
#[derive(Clone, Copy, Debug)]
pub struct LinkPlace<'a> {
    pub path: &'a str,
    pub line: u32,
}

// A part of a template.
#[derive(Clone, Copy)]
enum LinkPart<'a> {
    Text(&'a str),
    Name(&'a str),
    // A brace that is alone.
    Brace,
}

impl<'a> LinkTemplate<'a> {
    /// The template that a text spells; none where it has a brace alone, or a name that no member has.
    pub fn read(text: &'a str) -> Option<LinkTemplate<'a>> {
        let mut rest = text;
        for _part in 0..text.len() {
            if rest.is_empty() {
                break;
            }
            let (part, behind) = first_part(rest);
            if !is_known(part) {
                return None;
            }
            rest = behind;
        }
        Some(LinkTemplate { text })
    }

    /// The address of a place.
    pub fn address(&self, alloc: Global, place: &LinkPlace<'_>) -> Result<String, AllocError> {
        let mut address = String::new(alloc);
        let mut rest = self.text;
        for _part in 0..self.text.len() {
            if rest.is_empty() {
                break;
            }
            let (part, behind) = first_part(rest);
            push_link_part(&mut address, part, place)?;
            rest = behind;
        }
        Ok(address)
    }
}

fn is_known(part: LinkPart<'_>) -> bool {
    match part {
        LinkPart::Text(_) => true,
        LinkPart::Name(name) => LINK_MEMBERS.iter().any(|member| *member == name),
        LinkPart::Brace => false,
    }
}

// The first part of a text, and what stands behind it; of an empty text it is empty.
fn first_part(text: &str) -> (LinkPart<'_>, &str) {
    if let Some(behind) = text.strip_prefix("{{") {
        return (LinkPart::Text("{"), behind);
    }
    if let Some(behind) = text.strip_prefix("}}") {
        return (LinkPart::Text("}"), behind);
    }
    if let Some(named) = text.strip_prefix('{') {
        return match named.split_once('}') {
            Some((name, behind)) => (LinkPart::Name(name), behind),
            None => (LinkPart::Brace, ""),
        };
    }
    if text.starts_with('}') {
        return (LinkPart::Brace, "");
    }
    let end = text
        .find(|c: char| c == '{' || c == '}')
        .unwrap_or(text.len());
    let (words, behind) = text.split_at(end);
    (LinkPart::Text(words), behind)
}

fn push_link_part(
    out: &mut String,
    part: LinkPart<'_>,
    place: &LinkPlace<'_>,
) -> Result<(), AllocError> {
    match part {
        LinkPart::Text(words) => out.push_str(words),
        LinkPart::Name("file") => push_encoded(out, place.path),
        LinkPart::Name("name") => push_encoded(out, own_name(place.path)),
        LinkPart::Name("line") => write!(out, "{}", place.line),
        LinkPart::Name("before") => write!(out, "{}", place.line.saturating_sub(1)),
        LinkPart::Name(_) | LinkPart::Brace => Ok(()),
    }
}

// A file's name in its folder.
fn own_name(path: &str) -> &str {
    match path.rsplit_once('/') {
        Some((_, name)) => name,
        None => path,
    }
}

// Appends a path for an address: what an address may not have stands as a percent sign with the number of its byte.
fn push_encoded(out: &mut String, path: &str) -> Result<(), AllocError>
    ensures { Writes result out.old out.new (encode_utf8_all (encoded path.now)) }
{
    for byte in path.as_bytes() {
        push_byte(out, *byte)?;
    }
    Ok(())
}

fn push_byte(out: &mut String, byte: u8) -> Result<(), AllocError>
    ensures { Writes result out.old out.new (encode_utf8_all (encoded_byte byte)) }
{
    if is_plain_byte(byte) {
        out.push(char::from(byte))?;
        return Ok(());
    }
    out.push('%')?;
    out.push(hex_digit(byte / 16))?;
    out.push(hex_digit(byte % 16))?;
    Ok(())
}

fn is_plain_byte(byte: u8) -> bool
    ensures { result ≡ is_plain_byte byte }
{
    (97 <= byte && byte < 123)
        || (65 <= byte && byte < 91)
        || (45 <= byte && byte < 58)
        || byte == 95
        || byte == 126
}

fn hex_digit(digit: u8) -> char
    requires below { digit < 16 }
    ensures value { result ≡ hex_digit digit }
{
    if digit < 10 {
        char::from(digit + b'0')
    } else {
        char::from(digit - 10 + b'A')
    }
}

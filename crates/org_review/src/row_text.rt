//! The text of a row.

use org_base::Fault;
use org_inherit::Heading;
use org_layout::pad;
use std::alloc::{AllocError, Global};
use std::str;

/// The category of a heading, in its column.
pub(crate) fn category_text(alloc: Global, heading: &Heading<'_, '_>) -> Result<String, Fault> {
    let category = text_of(heading.category());
    let name = format!(in alloc; "{category}:")?;
    let mut text = String::from_str(alloc, "  ")?;
    pad(&mut text, name.as_str(), 12)?;
    Ok(text)
}

/// The keyword of a heading, its priority, its title and its tags, with a space between each two.
pub(crate) fn heading_text(alloc: Global, heading: &Heading<'_, '_>) -> Result<String, Fault> {
    let line = heading_line(alloc, heading)?;
    Ok(String::from_str(alloc, text_of(line.as_slice()))?)
}

// A part of a file's text, which is UTF-8.
fn text_of(bytes: &[u8]) -> &str {
    str::from_utf8(bytes).unwrap_or("")
}

fn heading_line(alloc: Global, heading: &Heading<'_, '_>) -> Result<Vec<u8>, Fault> {
    let mut line = Vec::new(alloc);
    if let Some(keyword) = heading.keyword() {
        push_word(&mut line, keyword)?;
    }
    if let Some(priority) = heading.priority() {
        push_word(&mut line, b"[#")?;
        line.extend_from_slice(priority)?;
        line.push(b']')?;
    }
    push_word(&mut line, heading.title())?;
    push_tags(alloc, &mut line, heading)?;
    Ok(line)
}

fn push_tags(alloc: Global, line: &mut Vec<u8>, heading: &Heading<'_, '_>) -> Result<(), Fault> {
    let mut tags = Vec::new(alloc);
    heading.inherit.push_tags(&mut tags, heading.place)?;
    Ok(push_word(line, tags.as_slice())?)
}

// Appends a word, behind a space where something stands before it; nothing of an empty one.
fn push_word(line: &mut Vec<u8>, word: &[u8]) -> Result<(), AllocError> {
    if word.is_empty() {
        return Ok(());
    }
    if !line.is_empty() {
        line.push(b' ')?;
    }
    line.extend_from_slice(word)?;
    Ok(())
}

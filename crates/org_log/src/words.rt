//! Lines and words.

use std::alloc::{AllocError, Global};

// The lines of a text, each with its end.
pub(crate) fn lines_of(alloc: Global, text: &str) -> Result<Vec<&str>, AllocError> {
    let mut lines = Vec::new(alloc);
    for line in text.split_inclusive('\n') {
        lines.push(line)?;
    }
    Ok(lines)
}

// The line at a place; empty where there is none.
pub(crate) fn line_at<'a>(lines: &[&'a str], place: usize) -> &'a str {
    match lines.get(place) {
        Some(line) => line,
        None => "",
    }
}

// Whether a line holds no more than white space.
pub(crate) fn is_blank(line: &str) -> bool {
    line.trim().is_empty()
}

// The white space at the front of a line.
pub(crate) fn indent_of(line: &str) -> &str {
    let body = line.trim_start_matches(|c| c == ' ' || c == '\t');
    line.get(..line.len().saturating_sub(body.len()))
        .unwrap_or("")
}

// The key of a line `#+KEY: VALUE`, and its value; none where it is no such line.
pub(crate) fn setting_of(line: &str) -> Option<(&str, &str)> {
    let body = line.trim().strip_prefix("#+")?;
    let (key, value) = body.split_once(':')?;
    Some((key, value.trim()))
}

// What a line `:NAME: VALUE` gives to a name; none where it gives nothing to it.
pub(crate) fn property_of<'a>(line: &'a str, name: &str) -> Option<&'a str> {
    let body = line.trim().strip_prefix(':')?;
    let (own, value) = body.split_once(':')?;
    let is_apart = value.is_empty() || value.starts_with(' ') || value.starts_with('\t');
    if is_apart && own.eq_ignore_ascii_case(name) {
        Some(value.trim())
    } else {
        None
    }
}

// Whether a line is `:NAME:` alone.
pub(crate) fn is_drawer_line(line: &str, name: &str) -> bool {
    match line.trim().strip_prefix(':') {
        Some(body) => match body.strip_suffix(':') {
            Some(own) => own.eq_ignore_ascii_case(name),
            None => false,
        },
        None => false,
    }
}

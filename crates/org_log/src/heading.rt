//! A heading of a text, and the sections from the text's first on.

use org_class::{begins_heading, leading_stars};
use org_settings::Settings;

// Where the heading of a line begins in a text; none where no heading stands on it. Lines count from 1.
pub(crate) fn heading_start(text: &str, number: u64) -> Option<usize> {
    let mut at = 0usize;
    let mut place = 0u64;
    for line in text.split_inclusive('\n') {
        place = place.saturating_add(1);
        if place == number {
            return if begins_heading(line.as_bytes()) {
                Some(at)
            } else {
                None
            };
        }
        at = at.saturating_add(line.len());
    }
    None
}

// The first line of a text.
pub(crate) fn first_line(text: &str) -> &str {
    text.split_inclusive('\n').next().unwrap_or("")
}

// The line behind that.
pub(crate) fn second_line(text: &str) -> &str {
    text.split_inclusive('\n').nth(1).unwrap_or("")
}

// How many stars a heading line has.
pub(crate) fn level_of(line: &str) -> usize {
    leading_stars(line.as_bytes())
}

// The keyword of a heading line, if it has one.
pub(crate) fn keyword_of<'a>(settings: &Settings, line: &'a str) -> Option<&'a str> {
    let behind = line.get(level_of(line)..).unwrap_or("");
    let word = behind.split_whitespace().next().unwrap_or("");
    match settings.keyword_place(word.as_bytes()) {
        Some(_) => Some(word),
        None => None,
    }
}

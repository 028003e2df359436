//! What may be written as a note, and as the name of a drawer.

use org_stamp::is_clock;

/// Whether a text can be a note: it has no control characters but ends of lines and tabs, and none of its lines would be read as
/// an end of a drawer or a block, as a setting, a comment or a clock.
pub fn is_note(text: &str) -> bool {
    let has_control = text
        .chars()
        .any(|c| c.is_control() && c != '\n' && c != '\t');
    !has_control && text.lines().all(is_note_line)
}

fn is_note_line(line: &str) -> bool {
    let body = line.trim();
    let is_drawer = body.len() > 2 && body.starts_with(':') && body.ends_with(':');
    !(is_drawer || body.starts_with('#') || is_clock(body.as_bytes()))
}

/// Whether a word can be the name of a drawer: it has no white space, no colon and no control character.
pub fn is_drawer_name(word: &str) -> bool {
    !word.is_empty()
        && word
            .chars()
            .all(|c| !c.is_whitespace() && !c.is_control() && c != ':')
}

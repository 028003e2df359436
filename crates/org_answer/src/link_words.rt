//! Titles without the targets of links.

use std::alloc::AllocError;

/// Appends a text in which each link `[[TARGET][WORDS]]` stands as its words, and `[[TARGET]]` as its target (Org manual 9.6,
/// "Link Format").
pub(crate) fn push_link_words(out: &mut String, text: &str) -> Result<(), AllocError> {
    let mut rest = text;
    for _link in 0..text.len() {
        let Some((before, behind)) = rest.split_once("[[") else {
            break;
        };
        let Some((link, after)) = behind.split_once("]]") else {
            break;
        };
        out.push_str(before)?;
        out.push_str(words_of_link(link))?;
        rest = after;
    }
    out.push_str(rest)
}

// The words of a link between its brackets.
fn words_of_link(link: &str) -> &str {
    match link.split_once("][") {
        Some((_, words)) => words,
        None => link,
    }
}

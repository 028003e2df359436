//! Values of options that are spelled as commands are.

use crate::arguments::{is_letter_of_all, takes_value};
use orgq_messages::is_command;
use std::alloc::{AllocError, Global};

/// The words, with the value of an option joined to it where it has the name of a command: the parser would take it for one. Behind
/// `tag` a word `-TAG` is written as the option that takes a tag away.
pub fn joined_values(alloc: Global, words: &[String]) -> Result<Vec<String>, AllocError> {
    let mut joined: Vec<String> = Vec::new(alloc);
    let mut sign = None;
    let mut has_options = true;
    let mut is_named = false;
    let mut is_tag = false;
    for word in words {
        let text = word.as_str();
        let glue = if is_command(text) { sign } else { None };
        match removed_tag(text) {
            Some(tag) if is_tag && has_options => push_removed(alloc, &mut joined, tag)?,
            _ => push_joined(alloc, &mut joined, glue, text)?,
        }
        if !is_named && glue.is_none() && is_command(text) {
            is_named = true;
            is_tag = text == "tag";
        }
        has_options = has_options && text != "--";
        sign = if has_options { sign_of(text) } else { None };
    }
    Ok(joined)
}

// The tag of a word `-TAG`; a letter alone may be an option of all commands.
fn removed_tag(word: &str) -> Option<&str> {
    let tag = word.strip_prefix('-')?;
    if tag.is_empty() || tag.starts_with('-') || is_letter_of_all(tag) {
        return None;
    }
    Some(tag)
}

fn push_removed(alloc: Global, joined: &mut Vec<String>, tag: &str) -> Result<(), AllocError> {
    let option = format!(in alloc; "--without={tag}")?;
    joined.push(option)?;
    Ok(())
}

// Puts a word after others, or with a sign to the last of them.
fn push_joined(
    alloc: Global,
    joined: &mut Vec<String>,
    glue: Option<&str>,
    text: &str,
) -> Result<(), AllocError> {
    if let Some(sign) = glue {
        if let Some(mut option) = joined.pop() {
            option.push_str(sign)?;
            option.push_str(text)?;
            joined.push(option)?;
            return Ok(());
        }
    }
    joined.push(String::from_str(alloc, text)?)?;
    Ok(())
}

// What stands between an option and its value, if a word is an option that takes one.
fn sign_of(word: &str) -> Option<&'static str> {
    if let Some(name) = word.strip_prefix("--") {
        return if takes_value(name) { Some("=") } else { None };
    }
    let letters = word.strip_prefix('-')?;
    let last = letters.len().checked_sub(1)?;
    if letters.is_char_boundary(last) && takes_value(&letters[last..]) {
        return Some("");
    }
    None
}

//! Expressions with more terms.

use std::alloc::{AllocError, Global};

/// An expression that holds where another one holds and these terms do: they stand behind those of each of its alternatives, before
/// the slash behind which keywords stand.
pub(crate) fn with_terms(
    alloc: Global,
    expression: &str,
    terms: &str,
) -> Result<String, AllocError> {
    let mut text = String::new(alloc);
    let mut closing = None;
    let mut is_behind = false;
    for character in expression.chars() {
        match closing {
            Some(last) => {
                if character == last {
                    closing = None;
                }
            }
            None if !is_behind && matches!(character, '/' | '|') => {
                text.push_str(terms)?;
                is_behind = character == '/';
            }
            None => closing = closing_of(character),
        }
        text.push(character)?;
    }
    if !is_behind {
        text.push_str(terms)?;
    }
    Ok(text)
}

// What ends a text or a pattern that a character begins.
fn closing_of(character: char) -> Option<char> {
    match character {
        '"' => Some('"'),
        '{' => Some('}'),
        _ => None,
    }
}

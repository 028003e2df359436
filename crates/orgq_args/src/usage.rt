//! What the argument parser says of arguments that it refuses.

use crate::arguments::command;
use clap::Error;
use clap::error::ErrorKind;
use orgq_messages::{BAD_ARGUMENTS, STOPPED, out_of_memory, say, say_lines, visible_text};
use std::alloc::Global;

/// Prints what the parser answers in place of matches, and gives the status: help is printed, and of refused arguments
/// standard error says why.
pub fn parser_said<R: AllocGlobal + Print + Eprint>(rt: &R, words: &[String], error: &Error) -> u8 {
    if error.kind() == ErrorKind::OutOfMemory {
        return out_of_memory(rt);
    }
    if !error.use_stderr() {
        return match print!(rt; "{error}") {
            Ok(()) => 0,
            Err(_) => STOPPED,
        };
    }
    match said_of(rt.alloc(), words) {
        Some(text) => report_refusal(rt, words, text.as_str()),
        None => out_of_memory(rt),
    }
}

// Says why words are refused; a word with a minus in front may be meant as an expression, or as a word that mustn't be there.
fn report_refusal<R: AllocGlobal + Eprint>(rt: &R, words: &[String], text: &str) -> u8 {
    say_lines(rt, text);
    if words.iter().any(|word| word.as_str() == "match") {
        say(rt, MINUS);
    }
    if words.iter().any(|word| word.as_str() == "search") {
        say(rt, ABSENT);
    }
    BAD_ARGUMENTS
}

const MINUS: &str =
    "an expression that begins with a minus stands behind --, as in: orgq match -- -work";

const ABSENT: &str =
    "a word that mustn't stand there goes behind --, as in: orgq search budget -- -draft";

// What the parser says of the words where their control characters are written so that they can be seen.
fn said_of(alloc: Global, words: &[String]) -> Option<String> {
    let seen = all_seen(alloc, words)?;
    let command = command(alloc).ok()?;
    match command.try_get_matches_from(seen.as_slice()) {
        Err(error) => format!(in alloc; "{error}").ok(),
        Ok(_) => String::from_str(alloc, "error: an argument with a control character").ok(),
    }
}

fn all_seen(alloc: Global, words: &[String]) -> Option<Vec<String>> {
    let mut all = Vec::new(alloc);
    for word in words {
        all.push(visible_text(alloc, word.as_str())?).ok()?;
    }
    Some(all)
}

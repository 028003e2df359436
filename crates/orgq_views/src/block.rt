//! The questions of a view.

use crate::refusal::BadLine;
use crate::words::words_of;
use std::alloc::{AllocError, Global};

/// A question of a view.
#[derive(Debug, Drop)]
pub struct Block {
    /// The words of its command.
    pub words: Vec<String>,
    /// What stands above its rows; none where the line doesn't say.
    pub title: Option<String>,
    /// The number of its line.
    pub line: usize,
}

const NO_COMMAND: &str =
    "a view shows agenda, calendar, clock, clocks, habits, log, match, next, projects, search or todo, and no other command";

const OF_CALL: &str =
    "this option belongs to the call, for all that the view shows alike: orgq view NAME";

const NO_TITLE: &str = "--title wants a text behind it";

/// The question of a line of these words.
pub(crate) fn block_of(alloc: Global, line: &str, number: usize) -> Result<Block, BadLine> {
    let words = words_of(alloc, line)?;
    let mut block = Block::new(alloc, number);
    let mut is_title = false;
    for word in words.as_slice() {
        is_title = block.take(alloc, word.as_str(), is_title)?;
    }
    if is_title {
        return Err(BadLine::Because(NO_TITLE));
    }
    if !is_shown(block.words.as_slice()) {
        return Err(BadLine::Because(NO_COMMAND));
    }
    Ok(block)
}

impl Block {
    fn new(alloc: Global, line: usize) -> Block {
        Block {
            words: Vec::new(alloc),
            title: None,
            line,
        }
    }

    // Takes one more word, which is the title where the one before it said so, and gives whether the next one is.
    fn take(&mut self, alloc: Global, word: &str, is_title: bool) -> Result<bool, BadLine> {
        if is_title {
            self.title = Some(String::from_str(alloc, word)?);
            return Ok(false);
        }
        if let Some(title) = word.strip_prefix("--title=") {
            self.title = Some(String::from_str(alloc, title)?);
            return Ok(false);
        }
        if word == "--title" {
            return Ok(true);
        }
        if is_of_call(word) {
            return Err(BadLine::Because(OF_CALL));
        }
        self.put(alloc, word)?;
        Ok(false)
    }

    fn put(&mut self, alloc: Global, word: &str) -> Result<(), AllocError> {
        let word = String::from_str(alloc, word)?;
        self.words.push(word)?;
        Ok(())
    }
}

// Whether the words are those of a command that shows rows, and changes nothing.
fn is_shown(words: &[String]) -> bool {
    let Some((first, others)) = words.split_first() else {
        return false;
    };
    match first.as_str() {
        "agenda"
        | "calendar"
        | "clocks"
        | "habits"
        | "log"
        | "match"
        | "next"
        | "projects"
        | "search"
        | "todo" => true,
        "clock" => others.first().is_none_or(|word| !is_act(word.as_str())),
        _ => false,
    }
}

// Whether a word behind `clock` is a command of its own.
fn is_act(word: &str) -> bool {
    matches!(word, "in" | "out" | "cancel" | "status")
}

// Whether a word names an option that all commands have.
fn is_of_call(word: &str) -> bool {
    let name = match word.split_once('=') {
        Some((name, _)) => name,
        None => word,
    };
    OF_ALL.iter().any(|other| *other == name)
}

// The options that all commands have.
const OF_ALL: [&str; 25] = [
    "-f",
    "--file",
    "--name",
    "--at",
    "--keywords",
    "--inherit",
    "--profile",
    "-n",
    "--places",
    "-i",
    "--ids",
    "--json",
    "--days-too",
    "--properties",
    "--csv",
    "--format",
    "--color",
    "--background",
    "--log-done",
    "--log-repeat",
    "--log-into-drawer",
    "-q",
    "--quiet",
    "--no-config",
    "--help",
];

//! The names of commands, and which one is meant.

use std::alloc::{AllocError, Global};
use strsim::osa_distance;

// The commands.
const COMMANDS: [&str; 31] = [
    "agenda", "calendar", "todo", "match", "search", "projects", "habits", "clock", "clocks",
    "log", "next", "ical", "page", "view", "views", "keywords", "tags", "check", "follow", "done",
    "set", "schedule", "deadline", "tag", "priority", "property", "note", "add", "undo", "config",
    "shell",
];

// How many bytes a word has at most that may be meant as a command.
const LONGEST: usize = 32;

/// Whether a word is the name of a command.
pub fn is_command(word: &str) -> bool {
    COMMANDS.iter().any(|name| *name == word)
}

/// A command, by its place among all of them.
#[derive(Clone, Copy, Debug, PartialEq, Eq)]
pub struct CommandName {
    place: usize,
}

impl CommandName {
    /// The name, as it is typed.
    pub fn as_str(self) -> &'static str {
        match COMMANDS.get(self.place) {
            Some(name) => *name,
            None => "",
        }
    }
}

/// The command that a word which is none is taken for: the only one that begins so, else the first one of those that are nearest to
/// it, by one letter or two that are wrong, missing, too many or exchanged, but not by half of them.
pub fn nearest_command(alloc: Global, word: &str) -> Result<Option<CommandName>, AllocError> {
    if word.len() > LONGEST {
        return Ok(None);
    }
    if let Some(name) = begun_command(word) {
        return Ok(Some(name));
    }
    let mut nearest = None;
    let mut least = 3;
    for (place, name) in COMMANDS.iter().enumerate() {
        let distance = osa_distance(alloc, word, name)?;
        if distance < least.min(name.len().div_ceil(2)) {
            least = distance;
            nearest = Some(CommandName { place });
        }
    }
    Ok(nearest)
}

// The command that begins with a word, if there is one and no other.
fn begun_command(word: &str) -> Option<CommandName> {
    let mut begun = None;
    for (place, name) in COMMANDS.iter().enumerate() {
        if name.starts_with(word) {
            if begun.is_some() {
                return None;
            }
            begun = Some(CommandName { place });
        }
    }
    begun
}

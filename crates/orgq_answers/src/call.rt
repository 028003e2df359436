//! What the answers of one call share: files, which are read once, and what stands in front of each answer.

use crate::head::Head;
use clap::ArgMatches;
use orgq_files::{Asked, asked_files};
use orgq_messages::{NO_MATCH, Problem, out_of_memory, print_all, status_of};
use std::alloc::{AllocError, Global};

/// One call of the program, and what its answers share.
#[derive(Drop)]
pub struct Call {
    /// Whether standard output is a terminal.
    pub on_terminal: bool,
    /// Whether the program ends behind the answer: memory isn't given back then.
    pub is_last: bool,
    // How many lines an answer has room for, if that counts.
    room: Option<usize>,
    files: Option<Asked>,
    head: Option<Head>,
    // Whether an answer below a head was printed.
    has_printed: bool,
}

impl Call {
    /// A call of which nothing is known but where it prints, and whether the program ends behind its answer.
    pub fn new(on_terminal: bool, is_last: bool) -> Call {
        Call {
            on_terminal,
            is_last,
            room: None,
            files: None,
            head: None,
            has_printed: false,
        }
    }

    /// Leaves out the last lines of an answer that there is no room for, and counts them.
    pub fn fit(&mut self, room: usize) {
        self.room = Some(room);
    }

    /// The files that the arguments name: in each call they are read once, and which can't be read is said then.
    pub fn files(&mut self, rt: &HostRuntime, matches: &ArgMatches<'_>) -> Result<&Asked, Problem> {
        let asked = match self.files.take() {
            Some(asked) => asked,
            None => asked_files(rt, matches)?,
        };
        Ok(self.files.insert(asked))
    }

    /// Puts the next answer below a head.
    pub fn begin(&mut self, head: Head) {
        self.head = Some(head);
    }

    /// Prints the lines of rows, unless the words want none printed, and gives the status.
    pub fn print_lines(
        &mut self,
        rt: &HostRuntime,
        matches: &ArgMatches<'_>,
        lines: &[u8],
        left_out: bool,
    ) -> u8 {
        let status = status_of(!lines.is_empty(), left_out);
        if matches.get_flag("quiet") {
            return status;
        }
        self.print(rt, lines, status)
    }

    /// Prints an answer, below its head if it has one, and gives the status.
    pub fn print(&mut self, rt: &HostRuntime, text: &[u8], status: u8) -> u8 {
        if let Some(room) = self.room {
            return print_within(rt, text, room, status);
        }
        let Some(head) = &self.head else {
            return print_all(rt, text, status);
        };
        if head.hides_empty() && status == NO_MATCH {
            return status;
        }
        let Ok(text) = head.above(rt.alloc(), text, self.has_printed) else {
            return out_of_memory(rt);
        };
        self.has_printed = true;
        print_all(rt, text.as_slice(), status)
    }
}

// Prints the lines that there is room for, and gives the status.
fn print_within(rt: &HostRuntime, text: &[u8], room: usize, status: u8) -> u8 {
    match lines_within(rt.alloc(), text, room) {
        Ok(text) => print_all(rt, text.as_slice(), status),
        Err(_) => out_of_memory(rt),
    }
}

// The first lines of a text, the last of which counts the others where there are more than have room.
fn lines_within(alloc: Global, text: &[u8], room: usize) -> Result<Vec<u8>, AllocError> {
    let count = text.split_inclusive(|byte| *byte == b'\n').count();
    if count <= room {
        return Vec::from_slice(alloc, text);
    }
    let shown = room.saturating_sub(1);
    let mut out = Vec::new(alloc);
    for line in text.split_inclusive(|byte| *byte == b'\n').take(shown) {
        out.extend_from_slice(line)?;
    }
    let more = format!(in alloc; "+{} more\n", count.saturating_sub(shown))?;
    out.extend_from_slice(more.as_bytes())?;
    Ok(out)
}

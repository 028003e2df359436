//! What a line says, before anything of it is copied.

use crate::command::{Command, Request};
use crate::words::BaseVersionWords;

// What a line says.
#[derive(Drop)]
pub(crate) enum ParsedLine<'a> {
    // No command.
    Bad,
    // A command that keeps nothing of the line.
    Ready(Command),
    // A command that keeps words of the line.
    BorrowedCommand(BorrowedCommand<'a>),
    // A file to add, and how long its text is.
    Add(&'a str, u64),
    // A place, how many bytes are replaced there, and how many come in their stead.
    Edit(BaseVersionWords<'a>, u64, u64, u64),
}

// A command by the words of its line.
#[derive(Drop)]
pub(crate) enum BorrowedCommand<'a> {
    // The keywords of a TODO list, with one bar between them; None without one.
    Todo(Request, Option<&'a str>, Option<&'a [u8]>),
    // The text of an expression.
    Match(Request, Option<&'a str>, &'a str),
    // The text of a clock table's options.
    Clock(Request, &'a str),
    // A date and a number of days.
    Agenda(Request, &'a str, u64),
    Drop(&'a str),
    // A line and a keyword.
    Complete(BaseVersionWords<'a>, u64, &'a str),
    // The names to inherit, with one space between them; None without a name.
    Inherit(Option<&'a [u8]>),
    Text(&'a str),
    Keywords(&'a str),
}

//! What `undo` asks for.

use crate::wish::{Look, has_place};
use clap::ArgMatches;
use orgq_messages::Problem;

/// What `undo` asks for.
#[derive(Clone, Copy, Debug)]
pub struct UndoWish {
    /// Whether only what would be taken back is to be printed.
    pub is_list: bool,
    /// Whether nothing is to be written.
    pub is_dry: bool,
    pub look: Look,
}

/// What the arguments ask for, by the words of the command.
pub fn read_undo(
    matches: &ArgMatches<'_>,
    own: &ArgMatches<'_>,
    is_seen: bool,
) -> Result<UndoWish, Problem> {
    if matches.get_str("format").is_some() {
        return Err(Problem::LineForm);
    }
    Ok(UndoWish {
        is_list: own.get_flag("list"),
        is_dry: own.get_flag("dry-run"),
        look: Look {
            has_place: has_place(matches, false)?,
            is_quiet: matches.get_flag("quiet"),
            is_seen,
        },
    })
}

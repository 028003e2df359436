//! The history of a file.
ghost use Rattle.std.specs.Prelude.{◌≡◌, IfOk};
ghost use Rattle.std.specs.Option.{option_map};
ghost use Rattle.org_history.specs.Bytes.{bytes_with, history_at, history_bytes, past_at};
ghost use Rattle.org_history.specs.Changes.{LiesIn, kept, past};

use crate::change::{KeptChange, change_bytes, text_after};
use crate::piece::{piece_at, push_piece};
use std::alloc::{AllocError, Global};

/// What acts changed in a file. The pieces are lent from where they lie.
#[derive(Clone, Copy, Debug)]
pub struct History<'a> {
    /// The file's path.
    pub path: &'a [u8],
    /// The text that the newest change left.
    pub left: &'a [u8],
    /// The bytes of the changes, the newest first.
    pub changes: &'a [u8],
}

/// The history of a file once a change was made in a text, by its bytes: before it come the older changes.
pub fn history_with(
    alloc: Global,
    path: &[u8],
    text: &[u8],
    change: &KeptChange<'_>,
    older: &[u8],
) -> Result<Vec<u8>, AllocError>
    requires within { LiesIn text.now (kept change.now) }
    ensures ok { IfOk result (λ b. b.items ≡ bytes_with path.now text.now (kept change.now) older.now) }
{
    let changes = change_bytes(alloc, change, older)?;
    let left = text_after(alloc, text, change)?;
    let history = History {
        path,
        left: left.as_slice(),
        changes: changes.as_slice(),
    };
    history_bytes(alloc, &history)
}

// The first line of a history, by which a later form is told from this one.
const MARK: &[u8] = b"orgq undo 1\n";

/// The bytes of a history.
pub fn history_bytes(alloc: Global, history: &History<'_>) -> Result<Vec<u8>, AllocError>
    ensures ok { IfOk result (λ bytes. bytes.items ≡ history_bytes (past history.now)) }
{
    let mut bytes = Vec::from_slice(alloc, MARK)?;
    push_piece(&mut bytes, history.path)?;
    push_piece(&mut bytes, history.left)?;
    bytes.extend_from_slice(history.changes)?;
    Ok(bytes)
}

/// The history that some bytes are; none where they are no history's.
#[tactic(auto, unfolding(crate::specs::Bytes::history_at))]
pub fn history_at(bytes: &[u8]) -> Option<History<'_>>
    ensures value { option_map past result ≡ history_at bytes.now }
{
    match bytes.strip_prefix(MARK) {
        Some(rest) => past_at(rest),
        None => None,
    }
}

// The history that stands behind the mark.
#[tactic(auto, unfolding(crate::specs::Bytes::past_at))]
fn past_at(bytes: &[u8]) -> Option<History<'_>>
    ensures value { option_map past result ≡ past_at bytes.now }
{
    let (path, rest) = piece_at(bytes)?;
    let (left, changes) = piece_at(rest)?;
    Some(History {
        path,
        left,
        changes,
    })
}

//! What a history says of the text that a file has.
ghost use Rattle.std.specs.Prelude.{◌≡◌, IfOk};
ghost use Rattle.std.specs.Option.{option_map};
ghost use Rattle.org_history.specs.Changes.{past};
ghost use Rattle.org_history.specs.Settled.{GivesPiece, older_of, settled};

use crate::change::{change_at, text_before};
use crate::history::History;
use std::alloc::{AllocError, Global};

/// The changes by which a text came to be, as bytes, the newest first; none where the text was edited since. Where it is the one in
/// which the newest change was to be made, that wasn't made, or was taken back already: it is passed over.
pub fn settled_changes<'a>(
    alloc: Global,
    history: &History<'a>,
    text: &[u8],
) -> Result<Option<&'a [u8]>, AllocError>
    ensures value { GivesPiece result (settled (past history.now) text.now) }
{
    if history.left == text {
        return Ok(Some(history.changes));
    }
    let Some((newest, older)) = change_at(history.changes) else {
        return Ok(None);
    };
    match text_before(alloc, history.left, &newest)? {
        Some(before) => Ok(older_of(before.as_slice(), text, older)),
        None => Ok(None),
    }
}

// What is older, where the text is the one before the newest change.
fn older_of<'a>(before: &[u8], text: &[u8], older: &'a [u8]) -> Option<&'a [u8]>
    ensures value { option_map (λ b. b.now) result ≡ older_of (Some before.now) text.now older.now }
{
    if before == text { Some(older) } else { None }
}

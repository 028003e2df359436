//! A change that an act made.
ghost use Rattle.std.specs.Prelude.{◌≡◌, ◌++◌, ◌≤◌, IfOk, IfSome, length, take};
ghost use Rattle.std.specs.Option.{option_map};
ghost use Rattle.org_history.specs.Bytes.{change_at, change_bytes};
ghost use Rattle.org_history.specs.Changes.{GivesText, LiesIn, kept, text_after, text_before};

use crate::number::{number_at, push_number};
use crate::piece::{piece_at, push_piece};
use std::alloc::{AllocError, Global};

/// A change that an act made in a file. The pieces are lent from where they lie.
#[derive(Clone, Copy, Debug)]
pub struct KeptChange<'a> {
    /// The minute since 0001-01-01 00:00 for which the act was asked.
    pub minute: u64,
    /// Which of several changes is newer: the nanoseconds of the system's clock when it was made.
    pub order: u64,
    /// Where it was made in the text, in bytes.
    pub at: u64,
    /// What stood there before.
    pub deleted: &'a [u8],
    /// What stands there since.
    pub inserted: &'a [u8],
}

/// The bytes of a change in front of those of older ones.
pub fn change_bytes(
    alloc: Global,
    change: &KeptChange<'_>,
    older: &[u8],
) -> Result<Vec<u8>, AllocError>
    ensures ok { IfOk result (λ bytes. bytes.items ≡ change_bytes (kept change.now) ++ older.now) }
{
    let mut bytes = Vec::new(alloc);
    push_number(&mut bytes, change.minute)?;
    push_number(&mut bytes, change.order)?;
    push_number(&mut bytes, change.at)?;
    push_piece(&mut bytes, change.deleted)?;
    push_piece(&mut bytes, change.inserted)?;
    bytes.extend_from_slice(older)?;
    Ok(bytes)
}

/// The newest change at the front of some bytes, and the older ones behind it; none where the bytes are no change's.
#[tactic(auto, unfolding(crate::specs::Bytes::change_at))]
pub fn change_at(bytes: &[u8]) -> Option<(KeptChange<'_>, &[u8])>
    ensures value { option_map (λ x. (kept x.0, x.1.now)) result ≡ change_at bytes.now }
{
    let (minute, rest) = number_at(bytes)?;
    let (order, rest) = number_at(rest)?;
    let (at, rest) = number_at(rest)?;
    let (deleted, rest) = piece_at(rest)?;
    let (inserted, rest) = piece_at(rest)?;
    let change = KeptChange {
        minute,
        order,
        at,
        deleted,
        inserted,
    };
    Some((change, rest))
}

/// The front of the bytes of changes that has at most so many, and no more bytes than these.
pub fn newest_changes(changes: &[u8], count: u32, most_bytes: usize) -> &[u8]
    ensures front { result.now ≡ take (length result.now) changes.now }
    ensures within { length result.now ≤ most_bytes }
{
    let mut rest = changes;
    let mut len = 0;
    for _ in 0..count {
        let Some((_, older)) = change_at(rest) else {
            break;
        };
        let end = changes.len().saturating_sub(older.len());
        if end > most_bytes {
            break;
        }
        len = end;
        rest = older;
    }
    &changes[..len]
}

/// The text that a change makes of another.
pub fn text_after(
    alloc: Global,
    text: &[u8],
    change: &KeptChange<'_>,
) -> Result<Vec<u8>, AllocError>
    requires within { LiesIn text.now (kept change.now) }
    ensures ok { IfOk result (λ after. after.items ≡ text_after text.now (kept change.now)) }
{
    let at = change.at as usize;
    let mut after = Vec::from_slice(alloc, &text[..at])?;
    after.extend_from_slice(change.inserted)?;
    after.extend_from_slice(&text[at + change.deleted.len()..])?;
    Ok(after)
}

/// The text in which a change was made that left this one; none where what it put in doesn't stand there.
pub fn text_before(
    alloc: Global,
    left: &[u8],
    change: &KeptChange<'_>,
) -> Result<Option<Vec<u8>>, AllocError>
    ensures value { GivesText result (text_before left.now (kept change.now)) }
{
    let at = change.at as usize;
    if left.len() < at {
        return Ok(None);
    }
    let (front, behind) = left.split_at(at);
    let Some(behind) = behind.strip_prefix(change.inserted) else {
        return Ok(None);
    };
    let mut text = Vec::from_slice(alloc, front)?;
    text.extend_from_slice(change.deleted)?;
    text.extend_from_slice(behind)?;
    Ok(Some(text))
}

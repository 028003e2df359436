//! Pieces of text behind their length.
ghost use Rattle.std.specs.Prelude.{◌≡◌, ◌++◌, OnOk};
ghost use Rattle.std.specs.Option.{option_map};
ghost use Rattle.org_history.specs.Bytes.{piece_at, piece_bytes};

use crate::number::{number_at, push_number};
use std::alloc::AllocError;

// Appends a piece behind its length.
pub(crate) fn push_piece(bytes: &mut Vec<u8>, piece: &[u8]) -> Result<(), AllocError>
    ensures ok { OnOk result (bytes.new.items ≡ bytes.old.items ++ piece_bytes piece.now) }
{
    push_number(bytes, piece.len() as u64)?;
    bytes.extend_from_slice(piece)?;
    Ok(())
}

// The piece at the front of some bytes, and those behind it.
#[tactic(auto, unfolding(crate::specs::Bytes::piece_at))]
pub(crate) fn piece_at(bytes: &[u8]) -> Option<(&[u8], &[u8])>
    ensures value { option_map (λ x. (x.0.now, x.1.now)) result ≡ piece_at bytes.now }
{
    let (len, rest) = number_at(bytes)?;
    let len = len as usize;
    if rest.len() < len {
        return None;
    }
    Some(rest.split_at(len))
}

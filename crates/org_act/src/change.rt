//! A text with a change made.
ghost use Rattle.org_act.specs.Changes.{LiesIn, with_change};
ghost use Rattle.org_base.specs.Results.{GivesItems};

use org_store::OwnedChange;
use std::alloc::{AllocError, Global};

/// A text with a change made.
pub fn with_change(alloc: Global, text: &[u8], change: &OwnedChange) -> Result<Vec<u8>, AllocError>
    requires within { LiesIn text.now change.now }
    ensures value { GivesItems result (with_change text.now change.now) }
{
    let start = change.at as usize;
    let end = start + change.del as usize;
    let mut new = Vec::from_slice(alloc, &text[..start])?;
    new.extend_from_slice(change.ins.as_bytes())?;
    new.extend_from_slice(&text[end..])?;
    Ok(new)
}

//! Lines without control characters.
ghost use Rattle.std.specs.Prelude.{◌≡◌, IfOk};
ghost use Rattle.org_base.specs.Results.{GivesItems};
ghost use Rattle.org_visible.specs.Clean.{IsClean};
ghost use Rattle.org_visible.specs.Visible.{visible};

use org_visible::{Escape, push_visible};
use std::alloc::{AllocError, Global};
use std::marker::Model;

/// A line of output, seen as its bytes. None of its characters is a control character, so it holds no line feed either; and none
/// is a mark that turns or hides text.
#[derive(Debug, Drop)]
pub struct CleanLine {
    bytes: Vec<u8>,
}

impl Model for CleanLine {
    ghost use Rattle.std.specs.Prelude.{ℕ, List};
    ghost use Rattle.org_visible.specs.Clean.{IsClean};

    ghost Value = { List ℕ };

    ghost view = { λ l. l.bytes.items };

    ghost invariant = { λ l. IsClean l.bytes.items };
}

impl CleanLine {
    /// The bytes, with `?` for each byte of such a character.
    #[tactic(auto, using(org_visible::proofs::CleanLemmas::visible_is_clean))]
    pub fn of(alloc: Global, bytes: &[u8]) -> Result<CleanLine, AllocError>
        ensures value { IfOk result (λ line. line ≡ visible Escape.Question bytes.now) }
    {
        Ok(CleanLine {
            bytes: clean_bytes(alloc, bytes)?,
        })
    }

    /// The bytes, lent.
    pub fn as_slice(&self) -> &[u8]
        ensures value { result.now ≡ self.now }
        ensures clean { IsClean result.now }
    {
        self.bytes.as_slice()
    }
}

// The bytes as they are shown.
fn clean_bytes(alloc: Global, bytes: &[u8]) -> Result<Vec<u8>, AllocError>
    ensures value { GivesItems result (visible Escape.Question bytes.now) }
{
    let mut out = Vec::with_capacity(alloc, bytes.len())?;
    push_visible(&mut out, bytes, Escape::Question)?;
    Ok(out)
}

//! Taking an act back.
ghost use Rattle.std.specs.Prelude.{◌≡◌};
ghost use Rattle.org_act.specs.TakingBack.{goes_back, made, stands_at};

use crate::act::{Act, Refusal};
use org_store::OwnedChange;
use std::alloc::Global;

/// The change that an act made is taken back: what it put in goes, and what it took away stands there again.
///
/// It is refused with `Edited` where the text isn't the one that the act left.
#[derive(Clone, Copy, Debug)]
pub struct TakingBack<'a> {
    /// Where the change was made, in bytes.
    pub at: u64,
    /// What it took away.
    pub deleted: &'a str,
    /// What it put in.
    pub inserted: &'a str,
    /// The text that it left.
    pub left: &'a str,
}

impl<'a> Act for TakingBack<'a> {
    ghost use Rattle.org_act.specs.TakingBack.{taken_back};

    ghost amended = { taken_back };

    fn plan(&self, alloc: Global, text: &str) -> Result<OwnedChange, Refusal> {
        if !goes_back(self, text) {
            return Err(Refusal::Edited);
        }
        Ok(OwnedChange {
            at: self.at,
            del: self.inserted.len() as u64,
            ins: String::from_str(alloc, self.deleted)?,
        })
    }
}

// Whether a text is the one that was left.
fn goes_back(act: &TakingBack<'_>, text: &str) -> bool
    ensures value { result ≡ goes_back (made act.now) text.now }
{
    text == act.left && stands_at(text.as_bytes(), act.at, act.inserted.as_bytes())
}

// Whether a piece stands at a place of a text.
fn stands_at(text: &[u8], at: u64, piece: &[u8]) -> bool
    ensures value { result ≡ stands_at text.now at piece.now }
{
    let at = at as usize;
    at <= text.len() && text[at..].starts_with(piece)
}

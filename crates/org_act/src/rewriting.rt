//! Writing a text anew.

use crate::act::{Act, Refusal};
use crate::between::change_between;
use org_store::OwnedChange;
use std::alloc::Global;

/// A text gets the place of another one, which was worked out of that.
///
/// It is refused with `Edited` where another text than that stands there.
#[derive(Clone, Copy, Debug)]
pub struct Rewriting<'a> {
    /// The text that stands there.
    pub old: &'a str,
    /// The one that gets its place.
    pub new: &'a str,
}

impl<'a> Act for Rewriting<'a> {
    ghost use Rattle.org_act.specs.Rewriting.{rewritten};

    ghost amended = { rewritten };

    fn plan(&self, alloc: Global, text: &str) -> Result<OwnedChange, Refusal> {
        if text != self.old {
            return Err(Refusal::Edited);
        }
        Ok(change_between(alloc, text, self.new)?)
    }
}

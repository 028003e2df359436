//! What the outlines of several files say.
ghost use Rattle.std.specs.Prelude.{◌≡◌, ◌<◌, [], ◌++◌, ◌∷◌, length, slice_get, Some, IfErr, OnOk, OnErr};

use crate::inherit::Inherit;
use std::alloc::{AllocFailed, Global};
use std::marker::Model;

/// What the outlines of several files say, in order.
#[derive(Debug, Drop)]
pub struct Inherits<'a> {
    list: Vec<Inherit<'a>>,
}

impl<'a> Model for Inherits<'a> {
    ghost use Rattle.std.specs.Prelude.{List};
    ghost use Rattle.org_inherit.specs.Scope.{Scope};

    ghost Value = { List Scope };

    ghost view = { λ i. i.list.items };
}

impl<'a> Inherits<'a> {
    /// No files.
    pub fn new(alloc: Global) -> Inherits<'a>
        ensures value { result ≡ [] }
    {
        Inherits {
            list: Vec::new(alloc),
        }
    }

    /// Puts one more at the end. Where memory is refused it is handed back, and the others are as before.
    pub fn push(&mut self, inherit: Inherit<'a>) -> Result<(), AllocFailed<Inherit<'a>>>
        ensures ok { OnOk result (self.new ≡ self.old ++ inherit.entry ∷ []) }
        ensures err { OnErr result (self.new ≡ self.old) }
        ensures returned { IfErr result (λ refused. refused.value ≡ inherit.entry) }
    {
        self.list.push(inherit)
    }

    /// How many there are.
    pub fn count(&self) -> usize
        ensures value { result ≡ length self.now }
    {
        self.list.len()
    }

    /// The one at a place, from 0.
    pub fn get(&self, place: usize) -> &Inherit<'a>
        requires { place < length self.now }
        ensures value { slice_get self.now place ≡ Some result.now }
    {
        &self.list[place]
    }
}

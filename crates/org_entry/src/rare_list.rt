//! Lists that are mostly empty.
ghost use Rattle.std.specs.Prelude.{◌≡◌, ◌++◌, ◌∷◌, [], true, OnOk};

use std::alloc::{AllocError, Global};
use std::marker::Model;

// What few sections have, in order, seen as its list. It begins with room for one, since most sections that have any have
// one.
#[derive(Debug, Drop)]
pub(crate) struct RareList<T> {
    list: Vec<T>,
}

impl<T> Model for RareList<T> {
    ghost use Rattle.std.specs.Prelude.{List};

    ghost Value = { List T };

    ghost view = { λ s. s.list.items };
}

impl<T: Drop> RareList<T> {
    // None.
    pub(crate) fn new(alloc: Global) -> RareList<T>
        ensures value { result ≡ [] }
    {
        RareList {
            list: Vec::new(alloc),
        }
    }

    // Puts one more at the end.
    pub(crate) fn push(&mut self, item: T) -> Result<(), AllocError>
        ensures ok { OnOk result (self.new ≡ self.old ++ item ∷ []) }
    {
        if self.list.is_empty() {
            self.list.reserve_exact(1)?;
        }
        self.list.push(item)?;
        Ok(())
    }

    // Whether there is none.
    #[tactic(auto, using(crate::proofs::DetailLemmas::none_counted))]
    pub(crate) fn is_empty(&self) -> bool
        ensures none { result ≡ true → self.now ≡ [] }
    {
        self.list.is_empty()
    }

    // All of them, to go over.
    pub(crate) fn as_slice(&self) -> &[T]
        ensures value { result.now ≡ self.now }
    {
        self.list.as_slice()
    }
}

//! What an expression asks of a heading.
ghost use Rattle.std.specs.Prelude.{◌≡◌, ℕ, Bool, List, Option, IsOkUnless, option_copied};
ghost use Rattle.org_base.specs.Codes.{memory_fault};
ghost use Rattle.org_base.specs.Results.{Gives};

use org_base::{Bytes, Fault, Texts};
use std::alloc::Global;

/// What an expression asks of one heading: its tags, the values of names, its keyword.
pub trait Facts {
    // all tags, inherited ones too, in any order
    ghost tags: { Self → List (List ℕ) };

    // the value of a name, special names included, if it isn't missing
    ghost value: { Self → List ℕ → Option (List ℕ) };

    // the keyword, if there is one
    ghost keyword: { Self → Option (List ℕ) };

    // whether the keyword is a done one
    ghost finished: { Self → Bool };

    /// All tags of the heading, inherited ones too.
    fn tags(&self, alloc: Global) -> Result<Texts, Fault>
        ensures value { Gives result (tags self.now) }
        ensures memory { IsOkUnless result memory_fault };

    /// The value of a name, if it isn't missing. Special names (Org manual 9.6, "Special Properties") win over a
    /// drawer's; names ignore ASCII case.
    fn value(&self, alloc: Global, name: &[u8]) -> Result<Option<Bytes>, Fault>
        ensures value { Gives result (value self.now name.now) }
        ensures memory { IsOkUnless result memory_fault };

    /// The keyword, if there is one.
    fn keyword(&self) -> Option<&[u8]>
        ensures value { option_copied result ≡ keyword self.now };

    /// Whether the keyword is a done one.
    fn is_finished(&self) -> bool
        ensures value { result ≡ finished self.now };
}

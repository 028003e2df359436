//! The lines of property drawers.
ghost use Rattle.std.specs.Prelude.{◌≡◌};
ghost use Rattle.org_class.specs.Drawers.{is_drawer_open, is_drawer_end};

use crate::line_class::first_byte;
use org_base::words::{same_word, trim};

/// Whether the line is `:PROPERTIES:` alone, in letters of any case.
#[tactic(auto, using(crate::proofs::FirstLemmas::drawer_by_first))]
pub fn is_drawer_open(line: &[u8]) -> bool
    ensures value { result ≡ is_drawer_open line.now }
{
    first_byte(line) == b':' && same_word(trim(line), b":PROPERTIES:")
}

/// Whether the line is `:END:` alone, in letters of any case.
pub fn is_drawer_end(line: &[u8]) -> bool
    ensures value { result ≡ is_drawer_end line.now }
{
    same_word(trim(line), b":END:")
}

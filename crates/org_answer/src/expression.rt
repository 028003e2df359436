//! Expressions that are typed.
ghost use Rattle.std.specs.Prelude.{chars, IfOk};
ghost use Rattle.org_expression.specs.Grammar.{Reads};

use org_base::{Code, Fault};
use org_match::Match;
use std::alloc::Global;

/// The most bytes of an expression or of the options of a clock table.
pub const LONGEST: usize = 65_536;

/// The expression that a text spells.
pub fn read_expression(alloc: Global, expression: &str) -> Result<Match, Fault>
    ensures value { IfOk result (λ found. Reads (chars expression.now) found) }
{
    if expression.len() > LONGEST {
        return Err(Fault::Plain(Code::Long));
    }
    Match::read(alloc, expression)
}

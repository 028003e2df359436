//! How far a text is an expression.
ghost use Rattle.std.specs.Prelude.{◌≡◌, ◌≤◌, ◌↔◌, length, Some, chars, IsTrue};
ghost use Rattle.org_expression.specs.Grammar.{Expr, Reads, IsLongestFront};
ghost use Rattle.org_expression.specs.Automaton.{reach, run, is_final_at};

use crate::state::State;
use crate::step::{is_final, step};

// How far a text is an expression: the bytes of its longest front of whole characters that begins some expression,
// and whether it is one itself.
#[derive(Clone, Copy)]
pub(crate) struct Extent {
    pub at: usize,
    pub is_whole: bool,
}

// How far a text is an expression of the grammar.
pub(crate) fn measure(text: &str) -> Extent
    // The longest front that begins some expression.
    ensures longest { IsLongestFront (chars text.now) result.at }
    ensures within { result.at ≤ length text.now }
    ensures whole { IsTrue result.is_whole ↔ ((e : Expr) × Reads (chars text.now) e) }
{
    scan(text)
}

// How many bytes can be read as the front of an expression, and whether the text is an expression.
fn scan(text: &str) -> Extent
    ensures within { result.at ≤ length text.now }
    ensures at { result.at ≡ reach (Some State.Start) (chars text.now) }
    ensures whole { result.is_whole ≡ is_final_at (run (Some State.Start) (chars text.now)) }
{
    let mut at = 0;
    let mut state = State::Start;
    for c in text.chars() {
        match step(state, c) {
            Some(next) => state = next,
            None => return Extent {
                at,
                is_whole: false,
            },
        }
        at += c.len_utf8();
    }
    Extent {
        at,
        is_whole: is_final(state),
    }
}

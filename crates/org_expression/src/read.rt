//! Reads an expression.
ghost use Rattle.std.specs.Prelude.{◌<◌, ◌^◌, length, chars, IfErr, IfOk};
ghost use Rattle.org_base.specs.Results.{Gives};
ghost use Rattle.org_expression.specs.Draft.{read_all};
ghost use Rattle.org_expression.specs.Grammar.{Reads};
ghost use Rattle.org_expression.specs.Refusal.{IsUnread};

use crate::draft::Draft;
use crate::scan::measure;
use crate::state::State;
use crate::step::step;
use crate::tree::Expression;
use org_base::Fault;
use std::alloc::{AllocError, Global};

impl Expression {
    /// Reads an expression (Org manual 9.6, "Matching tags and properties"). `MatchAt` exactly where the text is none,
    /// with the bytes of its longest front of whole characters that begins some expression, and then no memory is
    /// taken.
    pub fn read(alloc: Global, text: &str) -> Result<Expression, Fault>
        requires { length text.now < 2 ^ 32 }
        ensures value { IfOk result (λ found. Reads (chars text.now) found) }
        ensures refused { IfErr result (IsUnread (chars text.now)) }
    {
        let extent = measure(text);
        if !extent.is_whole {
            return Err(Fault::MatchAt(extent.at as u32));
        }
        match parse(alloc, text)? {
            Some(written) => Ok(written),
            // `measure` and `parse` agree, so this is never reached.
            None => Err(Fault::MatchAt(extent.at as u32)),
        }
    }
}

// The expression that the text is, with its patterns as they are written.
fn parse(alloc: Global, text: &str) -> Result<Option<Expression>, AllocError>
    ensures value { Gives result (read_all (chars text.now)) }
{
    let mut draft = Draft::new(alloc);
    let mut state = State::Start;
    for c in text.chars() {
        draft.absorb(state, c)?;
        match step(state, c) {
            Some(next) => state = next,
            None => return Ok(None),
        }
    }
    draft.finish(state)
}

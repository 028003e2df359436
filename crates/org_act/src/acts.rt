//! An act on several headings of one text.
ghost use Rattle.std.specs.Prelude.{ℕ, List, Result};
ghost use Rattle.org_act.specs.Changes.{ChoosesText, Makes};
ghost use Rattle.org_act.specs.Several.{amended_in_turn, if_text};
ghost use Rattle.org_act.specs.declared.act.Refusal.{Refusal};

use crate::act::{Act, Refusal};
use crate::between::change_between;
use crate::change::with_change;
use org_store::OwnedChange;
use std::alloc::Global;

/// An act on a heading that can be done on the heading of any line.
pub trait HeadingAct {
    /// The text that it makes of another by the heading on a line, or why it is refused.
    ghost amended_on: { Self → ℕ → List ℕ → Result (List ℕ) Refusal };

    /// The change that it makes of a text by the heading on a line, or why it is refused. Want of memory may come at any time.
    fn plan_on(&self, alloc: Global, text: &str, line: u64) -> Result<OwnedChange, Refusal>
        ensures value { Makes result text.now (amended_on self.now line text.now) };
}

/// An act on the headings of several lines, done on one after the other, each time to the text that the time before left. Where
/// it is refused for one of them, it is for all.
///
/// Who puts the lowest line first is sure that no heading leaves its line before it is reached.
#[derive(Clone, Copy, Debug)]
pub struct Acts<'a, A: HeadingAct> {
    /// What is done on each.
    pub act: A,
    /// The lines, the first one first. Lines count from 1.
    pub lines: &'a [u64],
}

impl<'a, A: HeadingAct> Act for Acts<'a, A> {
    ghost use Rattle.org_act.specs.Several.{amended_in_turn};

    ghost amended = { λ acts text. amended_in_turn (A.amended_on acts.act) acts.lines.now text };

    fn plan(&self, alloc: Global, text: &str) -> Result<OwnedChange, Refusal> {
        match text_in_turn(alloc, text, &self.act, self.lines) {
            Ok(new) => Ok(change_between(alloc, text, new.as_str())?),
            Err(why) => Err(why),
        }
    }
}

/// The text that an act on the headings of some lines makes of another, on one after the other. Where it is refused for one of
/// them, it is for all.
pub fn text_in_turn<A: HeadingAct>(
    alloc: Global,
    text: &str,
    act: &A,
    lines: &[u64],
) -> Result<String, Refusal>
    ensures value { ChoosesText result (amended_in_turn (A.amended_on act.now) lines.now text.now) }
{
    let mut new = String::from_str(alloc, text)?;
    for line in lines {
        match text_after(alloc, new.as_str(), act, *line) {
            Ok(next) => new = next,
            Err(why) => return Err(why),
        }
    }
    Ok(new)
}

// The text that an act on the heading of a line makes of another.
pub(crate) fn text_after<A: HeadingAct>(
    alloc: Global,
    text: &str,
    act: &A,
    line: u64,
) -> Result<String, Refusal>
    ensures value { ChoosesText result (if_text (A.amended_on act.now line text.now)) }
{
    let change = act.plan_on(alloc, text, line)?;
    let new = with_change(alloc, text.as_bytes(), &change)?;
    match String::from_utf8(new) {
        Ok(new) => Ok(new),
        Err(_) => Err(Refusal::Misread),
    }
}

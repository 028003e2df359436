//! What stands after a line of a section.
ghost use Rattle.std.specs.Prelude.{◌≡◌, ◌+◌, ◌≤◌, length, IsOkUnless};
ghost use Rattle.org_base.specs.Codes.{memory_fault};
ghost use Rattle.org_base.specs.Results.{Gives};
ghost use Rattle.org_lines.specs.Cuts.{lines};
ghost use Rattle.org_class.specs.Blocks.{opens_block};
ghost use Rattle.org_class.specs.Drawers.{closes_drawer};
ghost use Rattle.org_class.specs.Ends.{KnowsEnds};
ghost use Rattle.org_base.specs.Spans.{bytes_in};

use crate::blocks::block_name;
use crate::drawers::is_drawer_end;
use crate::ends::EndPlaces;
use crate::line_class::has_hash;
use org_base::{Fault, Span};
use org_drawer::is_node;
use org_lines::Lines;
use org_text::Text;
use std::alloc::{AllocError, Global};
use std::marker::Model;

// The lines after a line of a section, seen as their list.
#[derive(Drop)]
pub(crate) struct Ahead<'a, T: Text> {
    text: &'a T,
    // The part of the text that they are.
    rest: Span,
    // How many lines of the section stand before them.
    number: usize,
    // The number of the last end line of each block's name.
    ends: &'a EndPlaces,
}

impl<'a, T: Text> Model for Ahead<'a, T> {
    ghost use Rattle.std.specs.Prelude.{ℕ, List, ◌+◌, ◌≤◌, length};
    ghost use Rattle.org_lines.specs.Cuts.{lines};
    ghost use Rattle.org_class.specs.Ends.{KnowsEnds};
    ghost use Rattle.org_base.specs.Spans.{bytes_in};

    ghost Value = { List (List ℕ) };

    ghost view = { λ a. lines (bytes_in (T.content a.text.now) a.rest) };

    ghost invariant = { λ a. (a.rest.at + a.rest.len ≤ length (T.content a.text.now)) × KnowsEnds a.ends.now a.number (lines (bytes_in (T.content a.text.now) a.rest)) };
}

impl<'a, T: Text> Ahead<'a, T> {
    // The lines of a part of the text that are after so many lines of a section, whose end lines are known.
    pub(crate) fn new(text: &'a T, rest: Span, number: usize, ends: &'a EndPlaces) -> Ahead<'a, T>
        requires within { rest.at + rest.len ≤ length (T.content text.now) }
        requires known { KnowsEnds ends.now number (lines (bytes_in (T.content text.now) rest)) }
        ensures value { result ≡ lines (bytes_in (T.content text.now) rest) }
    {
        Ahead {
            text,
            rest,
            number,
            ends,
        }
    }

    // Whether the line before them opens a block.
    #[tactic(auto, using(crate::proofs::MarkLemmas::block_has_hash))]
    pub(crate) fn opens_block(&self, alloc: Global, line: &[u8]) -> Result<bool, AllocError>
        ensures value { Gives result (opens_block line.now self.now) }
    {
        if !has_hash(line) {
            return Ok(false);
        }
        let name = block_name(line);
        if name.is_empty() {
            return Ok(false);
        }
        let last = self.ends.place(alloc, name)?;
        Ok(self.number < last)
    }

    // Whether node lines, none or more, and then the end of the drawer stand at their front.
    pub(crate) fn closes_drawer(&self, alloc: Global) -> Result<bool, Fault>
        ensures value { Gives result (closes_drawer self.now) }
        ensures memory { IsOkUnless result memory_fault }
    {
        for line in Lines::new(alloc, self.text, self.rest) {
            let line = line?;
            let line = line.bytes.as_slice();
            if is_drawer_end(line) {
                return Ok(true);
            }
            if !is_node(line) {
                return Ok(false);
            }
        }
        Ok(false)
    }
}

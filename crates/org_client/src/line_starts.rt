//! The lines of a file's bytes.
ghost use Rattle.std.specs.Prelude.{◌≡◌, ◌-◌, ◌≤◌, None, get_or, IfSome, IsOkUnless};
ghost use Rattle.org_base.specs.Codes.{memory_fault};
ghost use Rattle.org_base.specs.Results.{Gives};
ghost use Rattle.org_client.specs.LinePlaces.{AreInOrder, AreUpTo, IsBeforeAll, StandsAt, line_place, lines_to};
ghost use Rattle.org_lines.specs.Cuts.{lines, starts};

use org_base::{Fault, Span};
use org_lines::line_starts;
use org_text::Text;
use std::alloc::Global;
use std::marker::Model;

/// A byte by its line and by the byte of that line, both from 1.
#[derive(Clone, Copy, Debug, PartialEq, Eq)]
pub struct LinePlace {
    pub line: usize,
    pub column: u64,
}

/// Where the lines of a text begin, in order.
#[derive(Debug, Drop)]
pub struct LineStarts {
    starts: Vec<u32>,
}

impl Model for LineStarts {
    ghost use Rattle.std.specs.Prelude.{ℕ, List};
    ghost use Rattle.org_client.specs.LinePlaces.{AreInOrder};

    ghost Value = { List ℕ };

    ghost view = { λ s. s.starts.items };

    ghost invariant = { λ s. AreInOrder 0 s.starts.items };
}

impl LineStarts {
    /// Those of a text.
    #[tactic(auto, using(crate::proofs::LinePlaceLemmas::are_in_order, crate::proofs::LinePlaceLemmas::whole_lines))]
    pub fn of<T: Text>(alloc: Global, text: &T) -> Result<LineStarts, Fault>
        ensures value { Gives result (starts 0 (lines (T.content text.now))) }
        ensures memory { IsOkUnless result memory_fault }
    {
        let whole = Span {
            at: 0,
            len: text.len() as u32,
        };
        let starts = line_starts(alloc, text, whole)?;
        Ok(LineStarts { starts })
    }

    /// The line in which a byte of the text stands, and the byte of that line; none before the first line.
    pub fn place(&self, at: u32) -> Option<LinePlace>
        ensures some { IfSome result (StandsAt self.now at) }
        ensures none { result ≡ None → IsBeforeAll self.now at }
        ensures value { result ≡ line_place self.now at }
    {
        place_in(self.starts.as_slice(), at)
    }
}

#[tactic(auto, using(crate::proofs::LinePlaceLemmas::stands, crate::proofs::LinePlaceLemmas::before_all))]
fn place_in(starts: &[u32], at: u32) -> Option<LinePlace>
    requires order { AreInOrder 0 starts.now }
    ensures some { IfSome result (StandsAt starts.now at) }
    ensures none { result ≡ None → IsBeforeAll starts.now at }
    ensures value { result ≡ line_place starts.now at }
{
    let line = count_up_to(starts, at);
    if line == 0 {
        return None;
    }
    let start = start_of(starts, line, at);
    Some(LinePlace {
        line,
        column: u64::from(at - start) + 1,
    })
}

// Where the last of so many lines begins, all of which begin at a byte or before it.
#[tactic(auto, using(crate::proofs::LinePlaceLemmas::last_past))]
fn start_of(starts: &[u32], count: usize, at: u32) -> u32
    requires up_to { AreUpTo starts.now at count }
    requires some { 1 ≤ count }
    ensures past { result ≤ at }
    ensures value { result ≡ get_or starts.now (count - 1) result }
{
    starts[count - 1]
}

// How many lines begin at a byte or before it.
fn count_up_to(starts: &[u32], at: u32) -> usize
    requires order { AreInOrder 0 starts.now }
    ensures up_to { AreUpTo starts.now at result }
    ensures value { result ≡ lines_to at starts.now }
{
    starts.partition_point(|start| *start <= at)
}

//! What a section says.
ghost use Rattle.std.specs.Prelude.{◌≡◌, ◌==◌};
ghost use Rattle.std.specs.List.{position};
ghost use Rattle.org_entry.specs.Entry.{heading_line};
ghost use Rattle.org_entry.specs.Planning.{entry_planning};
ghost use Rattle.org_base.specs.Spans.{bytes_in};

use crate::details::Details;
use crate::planning::planning_at;
use crate::text::EntryText;
use memchr::memchr;
use org_base::Span;
use org_drawer::Planning;
use org_head::Head;

/// What a section says (Org Syntax, "Sections"). All places count from the section's start, so that they stay true where
/// the section moves.
#[derive(Debug, Drop)]
pub struct Entry {
    /// The heading line and the planning line, line feeds included. A section's heading and planning lines are its first
    /// two lines, so places in them are places in this text too.
    pub text: EntryText,
    /// The parts of the heading line; None where the section has no heading.
    pub head: Option<Head>,
    /// Its drawer, stamps and clocks.
    pub details: Details,
}

impl Entry {
    /// The heading line, with its line feed if it has one; empty where the section has no heading.
    pub fn line(&self) -> &[u8]
        ensures value { result.now ≡ heading_line self.now }
    {
        let text = self.text.as_slice();
        match line_feed(text) {
            Some(place) => &text[..place + 1],
            None => text,
        }
    }

    /// What the planning line says, read of the entry's text; None where the section has no planning line. It takes a pass
    /// over that text, and no memory.
    #[tactic(auto, using(crate::proofs::LineLemmas::first_within, crate::proofs::PlanningLemmas::none_behind))]
    pub fn planning(&self) -> Option<Planning>
        ensures value { result ≡ entry_planning self.now }
    {
        let at = self.line().len();
        let text = self.text.as_slice();
        if at == text.len() {
            return None;
        }
        planning_at(at, &text[at..])
    }

    /// The bytes of a part of the entry's text. What reaches beyond the text isn't there.
    pub fn part(&self, span: Span) -> &[u8]
        ensures value { result.now ≡ bytes_in self.now.text span }
    {
        let text = self.text.as_slice();
        let start = text.len().min(span.at as usize);
        let rest = &text[start..];
        &rest[..rest.len().min(span.len as usize)]
    }
}

// Where the first line feed stands.
fn line_feed(text: &[u8]) -> Option<usize>
    ensures value { result ≡ position (λ b. b == 10) text.now }
{
    memchr(b'\n', text)
}

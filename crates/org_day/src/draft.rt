//! Lines while they are made.

ghost use Rattle.std.specs.Prelude.{IfOk};
ghost use Rattle.org_day.specs.Lines.{AreShown, GivesLine};

use crate::cut::cut_short;
use crate::line::{Line, Span};
use crate::role::Role;
use crate::shown::push_shown;
use std::alloc::{AllocError, Global};
use unicode_width::UnicodeWidthStr;

/// A line while it is made: its parts, and the columns that they take one by one.
#[derive(Drop)]
pub(crate) struct Draft {
    alloc: Global,
    spans: Vec<Span>,
    columns: usize,
    ghost shown: { AreShown spans.items },
}

impl Draft {
    /// An empty line.
    pub(crate) fn new(alloc: Global) -> Draft {
        Draft {
            alloc,
            spans: Vec::new(alloc),
            columns: 0,
        }
    }

    /// The columns that its parts take.
    pub(crate) fn columns(&self) -> usize {
        self.columns
    }

    /// Appends a part, as a terminal may show it.
    pub(crate) fn push(&mut self, role: Role, text: &str) -> Result<(), AllocError> {
        if text.is_empty() {
            return Ok(());
        }
        let mut shown = String::new(self.alloc);
        push_shown(&mut shown, text)?;
        let columns = self.columns.saturating_add(shown.as_str().width());
        self.spans.push(Span { role, text: shown })?;
        self.columns = columns;
        Ok(())
    }

    /// Appends spaces up to a column.
    pub(crate) fn fill(&mut self, column: usize) -> Result<(), AllocError> {
        let mut spaces = String::new(self.alloc);
        for _space in self.columns..column {
            spaces.push(' ')?;
        }
        self.push(Role::Plain, spaces.as_str())
    }

    /// Appends a part, and spaces up to so many columns behind where it begins.
    pub(crate) fn push_cell(
        &mut self,
        role: Role,
        text: &str,
        columns: usize,
    ) -> Result<(), AllocError> {
        let end = self.columns.saturating_add(columns);
        self.push(role, text)?;
        self.fill(end)
    }

    /// Appends a part whose last column is the one before a column, if there is room.
    pub(crate) fn push_right(
        &mut self,
        role: Role,
        text: &str,
        column: usize,
    ) -> Result<(), AllocError> {
        if text.is_empty() {
            return Ok(());
        }
        self.fill(column.saturating_sub(text.width()))?;
        self.push(role, text)
    }

    /// The line in at most so many columns, without spaces at its end: as it is where it fits, else its front without roles.
    #[tactic(auto, using(crate::proofs::LineLemmas::fitting, crate::proofs::LineLemmas::empty_line))]
    pub(crate) fn finish(self, columns: usize) -> Result<Line, AllocError>
        ensures line { GivesLine columns result }
    {
        let alloc = self.alloc;
        let line = Line {
            spans: without_end(self.spans),
        };
        if line.fits(alloc, columns)? {
            return Ok(line);
        }
        let whole = line.whole(alloc)?;
        let line = front_of(alloc, whole.as_str(), columns)?;
        if line.fits(alloc, columns)? {
            return Ok(line);
        }
        Ok(Line {
            spans: Vec::new(alloc),
        })
    }
}

// A line of one part, the front of a text.
fn front_of(alloc: Global, text: &str, columns: usize) -> Result<Line, AllocError>
    ensures visible { IfOk result (λ line. AreShown line.spans.items) }
{
    let front = cut_short(alloc, text, columns)?;
    let mut draft = Draft::new(alloc);
    draft.push(Role::Plain, front.as_str())?;
    Ok(Line { spans: draft.spans })
}

// Parts without those at the end that are blank.
#[tactic(auto, using(crate::proofs::DraftLemmas::still_shown))]
fn without_end(spans: Vec<Span>) -> Vec<Span>
    requires visible { AreShown spans.items }
    ensures visible { AreShown result.items }
{
    let mut spans = spans;
    for _span in 0..spans.len() {
        if !ends_blank(spans.as_slice()) {
            break;
        }
        let _ = spans.pop();
    }
    spans
}

// Whether the last of some parts is blank.
fn ends_blank(spans: &[Span]) -> bool {
    match spans.last() {
        Some(span) => {
            span.role == Role::Plain && span.text.as_str().trim_end_matches(' ').is_empty()
        }
        None => false,
    }
}

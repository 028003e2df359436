//! Lines of a day.

ghost use Rattle.std.specs.Prelude.{◌≡◌, ◌≤◌, true, IfOk};
ghost use Rattle.org_day.specs.Lines.{line_text};
ghost use Rattle.org_day.specs.Results.{GivesText};
ghost use Rattle.org_day.specs.Widths.{columns_of};

use crate::role::Role;
use std::alloc::{AllocError, Global};
use unicode_width::UnicodeWidthStr;

/// A part of a line, and what it is.
#[derive(Debug, Drop)]
pub struct Span {
    pub role: Role,
    pub text: String,
}

/// A line, part by part.
#[derive(Debug, Drop)]
pub struct Line {
    pub spans: Vec<Span>,
}

impl Line {
    /// Its whole text.
    pub(crate) fn whole(&self, alloc: Global) -> Result<String, AllocError>
        ensures value { GivesText result (line_text self.now) }
    {
        let mut whole = String::new(alloc);
        for span in &self.spans {
            whole.push_str(span.text.as_str())?;
        }
        Ok(whole)
    }

    /// Whether it takes so many columns at most.
    pub(crate) fn fits(&self, alloc: Global, columns: usize) -> Result<bool, AllocError>
        ensures within { IfOk result (λ fits. fits ≡ true → columns_of (line_text self.now) ≤ columns) }
    {
        let whole = self.whole(alloc)?;
        Ok(whole.as_str().width() <= columns)
    }
}

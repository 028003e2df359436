//! What was found.
ghost use Rattle.std.specs.Prelude.{◌≡◌};
ghost use Rattle.org_check.specs.Said.{mark_of};
ghost use Rattle.org_check.specs.Sentences.{at_of, column_of, other_line_of};

use crate::kind::Kind;
use crate::look::Mark;

/// What stands in the way, where the kind doesn't say it: the line that a remedy names, from 1.
#[derive(Clone, Copy, Debug, PartialEq, Eq, PartialOrd, Ord)]
pub enum Cause {
    /// A blank line.
    Blank(u32),
    /// A drawer.
    Drawer(u32),
    /// Another planning line.
    Planning(u32),
    /// A line of text.
    Text(u32),
    /// The drawer in which the line stands that is found.
    InDrawer(u32),
    /// Another line that the finding speaks of.
    Other(u32),
    /// No heading stands above.
    NoHeading,
}

/// A part of a line.
#[derive(Clone, Copy, Debug, PartialEq, Eq, PartialOrd, Ord)]
pub struct LinePart {
    /// Where the line begins in the text, in bytes.
    pub line_at: u32,
    /// Where the part begins in the line, in bytes.
    pub place: usize,
    /// How long it is, in bytes.
    pub len: usize,
    /// The line, from 1.
    pub line: u32,
}

/// Something that looks planned and will not show, or shows otherwise than it is written.
#[derive(Clone, Copy, Debug, PartialEq, Eq, PartialOrd, Ord)]
pub struct Finding {
    /// What is to be mended.
    pub shown: LinePart,
    /// Where the line that looks planned begins in the text, in bytes. It is mostly the one that is to be mended.
    pub line_at: u32,
    /// Where in that line it looks planned, in bytes.
    pub place: usize,
    /// What it is.
    pub kind: Kind,
    /// What stands in its way.
    pub cause: Option<Cause>,
}

impl Finding {
    /// Where it begins in the text, in bytes.
    pub fn at(&self) -> usize
        ensures value { result ≡ at_of self.now }
    {
        self.shown.place.saturating_add(self.shown.line_at as usize)
    }

    /// The byte of the line with which it begins, from 1.
    pub fn column(&self) -> usize
        ensures value { result ≡ column_of self.now }
    {
        self.shown.place.saturating_add(1)
    }

    /// The line that the remedy names, from 1.
    pub fn other_line(&self) -> Option<u32>
        ensures value { result ≡ other_line_of self.now.cause }
    {
        match self.cause? {
            Cause::Blank(line)
            | Cause::Drawer(line)
            | Cause::Planning(line)
            | Cause::Text(line)
            | Cause::InDrawer(line)
            | Cause::Other(line) => Some(line),
            Cause::NoHeading => None,
        }
    }

    /// What the place looked like, where the finding says that it isn't read so.
    pub fn mark(&self) -> Option<Mark>
        ensures value { result ≡ mark_of self.now }
    {
        let look = self.kind.look()?;
        Some(Mark {
            line_at: self.line_at,
            place: self.place,
            look,
        })
    }
}

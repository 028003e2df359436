//! The parts of a heading line.

use crate::cookie::cookie_number;
use crate::spans::{Spans, part};
use org_base::Span;
use org_settings::Settings;

/// The parts of a heading line, as spans of the line's bytes (Org Syntax, "Headings").
#[derive(Debug, Drop)]
pub struct Head {
    /// The number of stars.
    pub level: u32,
    /// The keyword, if there is one.
    pub keyword: Option<Span>,
    /// The whole cookie `[#X]`, if there is one.
    pub priority: Option<Span>,
    /// Whether the word `COMMENT` stands after them, which hides the heading.
    pub comment: bool,
    /// What is left before the tags, without white space at its ends. Where nothing is, it has no bytes.
    pub title: Span,
    /// The tags in order, without their colons.
    pub tags: Spans,
}

impl Head {
    ghost use Rattle.std.specs.Prelude.{◌≡◌, ◌≤◌};
    ghost use Rattle.org_head.specs.Head.{head_of, priority_of};
    ghost use Rattle.org_settings.specs.Priority.{greatest_priority};

    /// The priority of the heading: the number of its cookie's X, or X's ASCII code where X is a letter; without a
    /// cookie the file's default (Org manual 9.6, "Priorities"). A smaller one is more urgent. The head is to be that
    /// of the line in a file with these settings.
    pub fn priority_number(&self, line: &[u8], settings: &Settings) -> u8
        requires { self.now ≡ head_of settings.now line.now }
        ensures value { result ≡ priority_of settings.now line.now self.now }
        ensures most { result ≤ greatest_priority }
    {
        match self.priority {
            Some(cookie) => cookie_number(part(line, cookie)),
            None => settings.default_priority(),
        }
    }
}

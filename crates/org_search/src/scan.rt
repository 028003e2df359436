//! Sections and lines that are looked at.
ghost use Rattle.std.specs.Prelude.{◌≡◌, ◌+◌, ◌≤◌, length, map};
ghost use Rattle.org_base.specs.Results.{Gives, GivesItems};
ghost use Rattle.org_lines.specs.Cuts.{lines_in};
ghost use Rattle.org_search.specs.Built.{asked_of};
ghost use Rattle.org_search.specs.Holds.{are_met, line_holds, lines_hold, matches, meets};

use crate::fold::put_folded;
use crate::line::bare_line;
use crate::search::{Search, Sought, Term};
use org_base::{Fault, Span};
use org_lines::Lines;
use org_match::Searcher;
use org_text::Text;
use std::alloc::{AllocError, Global};
use std::marker::Model;

// What is asked, with what searches for its pattern where it has one. Contracts see what is asked.
#[derive(Drop)]
struct TermScan<'a> {
    term: &'a Term,
    searcher: Option<Searcher<'a>>,
}

impl<'a> Model for TermScan<'a> {
    ghost use Rattle.std.specs.Prelude.{◌≡◌};
    ghost use Rattle.org_search.specs.Built.{asked_of};
    ghost use Rattle.org_search.specs.Typed.{Asked, sought_pattern};

    ghost Value = { Asked };

    ghost view = { λ t. asked_of t.term.now };

    ghost invariant = { λ t. t.searcher ≡ sought_pattern (asked_of t.term.now).sought };
}

/// What is asked, with what searches for its patterns and room for a line with its case folded, made once to look at many
/// sections. Contracts see what is asked.
#[derive(Drop)]
pub struct Scan<'a> {
    terms: Vec<TermScan<'a>>,
    room: String,
}

impl<'a> Model for Scan<'a> {
    ghost use Rattle.std.specs.Prelude.{List};
    ghost use Rattle.org_search.specs.Typed.{Asked};

    ghost Value = { List Asked };

    ghost view = { λ s. s.terms.items };
}

impl<'a> Scan<'a> {
    /// What looks for what is asked.
    pub fn new(alloc: Global, search: &'a Search) -> Result<Scan<'a>, AllocError>
        ensures value { Gives result search.now }
    {
        Ok(Scan {
            terms: scans_of(alloc, search.terms.as_slice())?,
            room: String::new(alloc),
        })
    }

    /// Whether the lines of a section hold all that has to be there, and nothing that mustn't.
    pub fn section_meets<T: Text>(
        &mut self,
        alloc: Global,
        text: &T,
        section: Span,
    ) -> Result<bool, Fault>
        requires within { section.at + section.len ≤ length (T.content text.now) }
        ensures value { Gives result (are_met self.old (lines_in (T.content text.now) section)) }
        ensures unchanged { self.new ≡ self.old }
    {
        all_met(
            alloc,
            self.terms.as_mut_slice(),
            &mut self.room,
            text,
            section,
        )
    }

    /// Whether a line holds something that has to be there.
    pub fn line_matches(&mut self, line: &str) -> Result<bool, AllocError>
        ensures value { Gives result (matches self.old line.now) }
        ensures unchanged { self.new ≡ self.old }
    {
        some_match(self.terms.as_mut_slice(), &mut self.room, line)
    }
}

fn scans_of<'a>(alloc: Global, terms: &'a [Term]) -> Result<Vec<TermScan<'a>>, AllocError>
    ensures value { GivesItems result (map asked_of terms.now) }
{
    let mut scans = Vec::new(alloc);
    for term in terms {
        scans.push(TermScan::new(alloc, term)?)?;
    }
    Ok(scans)
}

impl<'a> TermScan<'a> {
    fn new(alloc: Global, term: &'a Term) -> Result<TermScan<'a>, AllocError>
        ensures value { Gives result (asked_of term.now) }
    {
        let searcher = match &term.sought {
            Sought::Pattern(pattern) => Some(pattern.searcher(alloc)?),
            Sought::Word(_) => None,
        };
        Ok(TermScan { term, searcher })
    }

    fn is_wanted(&self) -> bool
        ensures value { result ≡ self.now.is_wanted }
    {
        self.term.is_wanted
    }

    // Whether a line holds what is looked for.
    fn is_in_line(&mut self, room: &mut String, line: &str) -> Result<bool, AllocError>
        ensures value { Gives result (line_holds self.old.sought line.now) }
        ensures unchanged { self.new ≡ self.old }
    {
        match &self.term.sought {
            Sought::Word(finder) => {
                put_folded(room, line)?;
                Ok(finder.find(room.as_bytes()).is_some())
            }
            Sought::Pattern(_) => match &mut self.searcher {
                Some(searcher) => Ok(searcher.is_found_in(line)),
                // A pattern has a searcher, so this is never reached.
                None => Ok(false),
            },
        }
    }

    // Whether a line of a section does.
    fn is_in_section<T: Text>(
        &mut self,
        alloc: Global,
        room: &mut String,
        text: &T,
        section: Span,
    ) -> Result<bool, Fault>
        requires within { section.at + section.len ≤ length (T.content text.now) }
        ensures value { Gives result (lines_hold (lines_in (T.content text.now) section) self.old.sought) }
        ensures unchanged { self.new ≡ self.old }
    {
        for line in Lines::new(alloc, text, section) {
            let line = line?;
            if self.is_in_line(room, bare_line(line.bytes.as_slice()))? {
                return Ok(true);
            }
        }
        Ok(false)
    }
}

// Whether the lines of a section hold all that has to be there, and nothing that mustn't.
fn all_met<T: Text>(
    alloc: Global,
    terms: &mut [TermScan<'_>],
    room: &mut String,
    text: &T,
    section: Span,
) -> Result<bool, Fault>
    requires within { section.at + section.len ≤ length (T.content text.now) }
    ensures value { Gives result (are_met terms.old (lines_in (T.content text.now) section)) }
    ensures unchanged { terms.new ≡ terms.old }
{
    for term in terms.iter_mut() {
        let is_held = term.is_in_section(alloc, room, text, section)?;
        if !is_met(term.is_wanted(), is_held) {
            return Ok(false);
        }
    }
    Ok(true)
}

// Whether it is as it has to be that lines hold something, or don't.
fn is_met(is_wanted: bool, is_held: bool) -> bool
    ensures value { result ≡ meets is_wanted is_held }
{
    if is_wanted { is_held } else { !is_held }
}

// Whether a line holds something that has to be there.
fn some_match(terms: &mut [TermScan<'_>], room: &mut String, line: &str) -> Result<bool, AllocError>
    ensures value { Gives result (matches terms.old line.now) }
    ensures unchanged { terms.new ≡ terms.old }
{
    for term in terms.iter_mut() {
        if term.is_wanted() && term.is_in_line(room, line)? {
            return Ok(true);
        }
    }
    Ok(false)
}

//! What is asked of sections.
ghost use Rattle.std.specs.Prelude.{◌≡◌, map, IfErr, IfOk};
ghost use Rattle.org_base.specs.Results.{Gives, lent_in};
ghost use Rattle.org_search.specs.Built.{asked_of, sought_of};
ghost use Rattle.org_search.specs.Folded.{folded};
ghost use Rattle.org_search.specs.Refused.{IsNotRead};
ghost use Rattle.org_search.specs.Typed as typed;

use crate::fold::put_folded;
use crate::typed::pattern_text;
use memchr::memmem::Finder;
use org_base::Fault;
use org_match::Pattern;
use std::alloc::{AllocError, Global};
use std::marker::Model;

// What is looked for in a line: a word with its case folded, and what finds it; or a pattern.
#[derive(Debug, Drop)]
pub(crate) enum Sought {
    Word(Finder<'static>),
    Pattern(Pattern),
}

// What has to be there, or mustn't.
#[derive(Debug, Drop)]
pub(crate) struct Term {
    pub is_wanted: bool,
    pub sought: Sought,
}

/// What is asked of sections: words and patterns that they have to hold, and those that they mustn't.
#[derive(Debug, Drop)]
pub struct Search {
    pub(crate) terms: Vec<Term>,
}

impl Model for Search {
    ghost use Rattle.std.specs.Prelude.{List, map};
    ghost use Rattle.org_search.specs.Built.{asked_of};
    ghost use Rattle.org_search.specs.Typed.{Asked};

    ghost Value = { List Asked };

    ghost view = { λ s. map asked_of s.terms.items };
}

impl Search {
    /// What typed words ask. `Regexp` for a pattern that is none.
    pub fn read(alloc: Global, words: &[&str]) -> Result<Search, Fault>
        ensures value { Gives result (map typed.typed_of (lent_in words.now)) }
        ensures refused { IfErr result IsNotRead }
    {
        let mut terms = Vec::new(alloc);
        for word in words {
            terms.push(term_of(alloc, word)?)?;
        }
        Ok(Search { terms })
    }
}

// What a typed word asks: a minus in front says that it mustn't be there.
fn term_of(alloc: Global, word: &str) -> Result<Term, Fault>
    ensures value { IfOk result (λ term. asked_of term ≡ typed.typed_of word.now) }
    ensures refused { IfErr result IsNotRead }
{
    match word.strip_prefix('-') {
        Some(behind) => Ok(Term {
            is_wanted: false,
            sought: sought_of(alloc, behind)?,
        }),
        None => Ok(Term {
            is_wanted: true,
            sought: sought_of(alloc, word)?,
        }),
    }
}

// A word, or a pattern between slashes.
fn sought_of(alloc: Global, word: &str) -> Result<Sought, Fault>
    ensures value { IfOk result (λ sought. sought_of sought ≡ typed.sought_of word.now) }
    ensures refused { IfErr result IsNotRead }
{
    match pattern_text(word) {
        Some(text) => Ok(Sought::Pattern(Pattern::new(alloc, text)?)),
        None => Ok(Sought::Word(finder_of(alloc, word)?)),
    }
}

// What finds a word in lines with their case folded.
fn finder_of(alloc: Global, word: &str) -> Result<Finder<'static>, AllocError>
    ensures value { Gives result (folded word.now) }
{
    let mut room = String::new(alloc);
    put_folded(&mut room, word)?;
    Finder::new(room.as_bytes()).into_owned(alloc)
}

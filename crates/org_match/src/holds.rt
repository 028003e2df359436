//! Whether an expression holds of a heading.
ghost use Rattle.std.specs.Prelude.{◌≡◌, true, IfOk, IsOkUnless, map};
ghost use Rattle.org_base.specs.Codes.{memory_fault};
ghost use Rattle.org_base.specs.Results.{Gives, GivesItems};
ghost use Rattle.org_match.specs.Facts.{holds_by, is_open_by, tag_items_hold_by, todo_items_hold_by};
ghost use Rattle.org_match.specs.TagMatches.{ask_tags, tag_matches, matches_with};
ghost use Rattle.org_match.specs.Holds.{tag_items, todo_term_holds};
ghost use Rattle.org_match.specs.Built.{built_item_of, built_term_of};

use crate::built::{BuiltItem, BuiltTerm, Match};
use crate::facts::Facts;
use crate::item_matcher::{ItemMatcher, apply_sign};
use crate::tag_list::TagList;
use crate::tag_matches::TermMatches;
use org_base::{Fault, Texts};
use org_cal::Moment;
use org_expression::{Kind, Link};
use std::alloc::{AllocError, Global};
use std::fmt::{self, Debug, Formatter};
use std::marker::Model;

/// An expression with what searches for its patterns, made once to be asked of many headings.
#[derive(Drop)]
pub struct Matcher<'a> {
    expression: &'a Match,
    asked: Vec<ItemMatcher<'a>>,
    asks_tags: bool,
}

impl<'a> Model for Matcher<'a> {
    ghost use Rattle.std.specs.Prelude.{◌≡◌};
    ghost use Rattle.org_expression.specs.Grammar.{Expr};
    ghost use Rattle.org_match.specs.Holds.{tag_items};
    ghost use Rattle.org_match.specs.TagMatches.{ask_tags};

    ghost Value = { Expr };

    ghost view = { λ t. t.expression.now };

    ghost invariant = { λ t. record {
      items : t.asked.items ≡ tag_items t.expression.now;
      tags : t.asks_tags ≡ ask_tags (tag_items t.expression.now);
    } };
}

impl Debug for Matcher<'_> {
    // What searches for patterns has none.
    fn fmt<W: fmt::Write>(&self, f: &mut Formatter<W>) -> fmt::Result {
        f.debug_struct("Matcher")
            .field("expression", self.expression)
            .finish_non_exhaustive()
    }
}

impl<'a> Matcher<'a> {
    /// The expression, with what searches for its patterns.
    pub fn new(alloc: Global, expression: &'a Match) -> Result<Matcher<'a>, Fault>
        ensures value { Gives result expression.now }
        ensures memory { IsOkUnless result memory_fault }
    {
        let asked = asked_of(alloc, expression.tags.as_slice())?;
        let asks_tags = ask_tags(expression.tags.as_slice());
        Ok(Matcher {
            expression,
            asked,
            asks_tags,
        })
    }

    /// Whether the expression asks of a heading's tags.
    pub fn asks_tags(&self) -> bool
        ensures value { result ≡ ask_tags (tag_items self.now) }
    {
        self.asks_tags
    }

    /// For each term before the slash whether one of the tags is what it asks for, or the match before says so; there may
    /// be no matches before. So the matches of a heading are those of its own tags and those of its parent.
    pub fn tags_found<T: TagList>(
        &mut self,
        alloc: Global,
        before: &[bool],
        tags: &T,
    ) -> Result<TermMatches, AllocError>
        ensures value { Gives result (matches_with before.now (T.list tags.now) (tag_items self.old)) }
        ensures unchanged { self.new ≡ self.old }
    {
        matches_of(alloc, before, tags, self.asked.as_mut_slice())
    }

    /// Whether the expression holds of a heading at a moment, as [`Match::test`]. Out of memory is its only refusal, and
    /// leaves the expression as it was.
    pub fn test<F: Facts>(
        &mut self,
        alloc: Global,
        facts: &F,
        moment: &Moment,
    ) -> Result<bool, Fault>
        ensures value { Gives result (holds_by F.Facts facts.now moment.now self.old) }
        ensures memory { IsOkUnless result memory_fault }
        ensures unchanged { self.new ≡ self.old }
    {
        let tags = tags_if(alloc, facts, self.asks_tags)?;
        let tags_found = self.tags_found(alloc, &[], &tags)?;
        self.test_with(alloc, facts, moment, tags_found.as_slice())
    }

    /// The same, where the matches of all tags of the heading are known. The heading's tags aren't asked for.
    pub fn test_with<F: Facts>(
        &mut self,
        alloc: Global,
        facts: &F,
        moment: &Moment,
        tags_found: &[bool],
    ) -> Result<bool, Fault>
        requires known { tags_found.now ≡ tag_matches (F.tags facts.now) (tag_items self.old) }
        ensures value { Gives result (holds_by F.Facts facts.now moment.now self.old) }
        ensures memory { IsOkUnless result memory_fault }
        ensures unchanged { self.new ≡ self.old }
    {
        let expression = self.expression;
        if expression.kind == Kind::Open && !is_open(facts) {
            return Ok(false);
        }
        if expression.kind != Kind::Tags && !todo_holds(facts, expression.todo.as_slice()) {
            return Ok(false);
        }
        tags_hold(alloc, facts, moment, tags_found, self.asked.as_mut_slice())
    }
}

impl Match {
    /// Whether the expression holds of a heading at a moment (Org manual 9.6, "Matching tags and properties"). To ask
    /// of many headings, make a [`Matcher`] of it.
    pub fn test<F: Facts>(&self, alloc: Global, facts: &F, moment: Moment) -> Result<bool, Fault>
        ensures value { Gives result (holds_by F.Facts facts.now moment self.now) }
        ensures memory { IsOkUnless result memory_fault }
    {
        let mut matcher = Matcher::new(alloc, self)?;
        matcher.test(alloc, facts, &moment)
    }
}

// The items, each with what searches for its pattern.
fn asked_of<'a>(alloc: Global, items: &'a [BuiltItem]) -> Result<Vec<ItemMatcher<'a>>, AllocError>
    ensures value { GivesItems result (map built_item_of items.now) }
{
    let mut asked = Vec::new(alloc);
    for item in items {
        asked.push(ItemMatcher::new(alloc, item)?)?;
    }
    Ok(asked)
}

// Whether one of the items asks of tags.
fn ask_tags(items: &[BuiltItem]) -> bool
    ensures value { result ≡ ask_tags (map built_item_of items.now) }
{
    for item in items {
        if item.term.asks_tags() {
            return true;
        }
    }
    false
}

// The matches of items on tags, each together with the one before it where there is one.
fn matches_of<T: TagList>(
    alloc: Global,
    before: &[bool],
    tags: &T,
    items: &mut [ItemMatcher<'_>],
) -> Result<TermMatches, AllocError>
    ensures value { Gives result (matches_with before.now (T.list tags.now) items.old) }
    ensures unchanged { items.new ≡ items.old }
{
    let mut tags_found = TermMatches::new(alloc);
    for (place, item) in items.iter_mut().enumerate() {
        let is_met = (place < before.len() && before[place]) || item.meets_one(tags);
        tags_found.push(is_met)?;
    }
    Ok(tags_found)
}

// The tags of a heading, if they are asked for.
fn tags_if<F: Facts>(alloc: Global, facts: &F, asked: bool) -> Result<Texts, Fault>
    ensures value { IfOk result (λ tags. asked ≡ true → tags ≡ F.tags facts.now) }
    ensures memory { IsOkUnless result memory_fault }
{
    if asked {
        facts.tags(alloc)
    } else {
        Ok(Texts::new(alloc))
    }
}

// Whether all terms of some part between bars hold.
fn tags_hold<F: Facts>(
    alloc: Global,
    facts: &F,
    moment: &Moment,
    tags_found: &[bool],
    items: &mut [ItemMatcher<'_>],
) -> Result<bool, Fault>
    requires known { tags_found.now ≡ tag_matches (F.tags facts.now) items.old }
    ensures value { Gives result (tag_items_hold_by F.Facts facts.now moment.now items.old) }
    ensures memory { IsOkUnless result memory_fault }
    ensures unchanged { items.new ≡ items.old }
{
    let mut all = true;
    for (place, item) in items.iter_mut().enumerate() {
        if item.begins_part() {
            if all {
                return Ok(true);
            }
            all = true;
        }
        all = all && item.holds(alloc, facts, tags_found[place], *moment)?;
    }
    Ok(all)
}

// Whether a heading has a keyword that isn't done.
fn is_open<F: Facts>(facts: &F) -> bool
    ensures value { result ≡ is_open_by F.Facts facts.now }
{
    facts.keyword().is_some() && !facts.is_finished()
}

// Whether all keywords of some part between bars are the heading's, or aren't after a minus.
fn todo_holds<F: Facts>(facts: &F, items: &[BuiltItem]) -> bool
    ensures value { result ≡ todo_items_hold_by F.Facts facts.now (map built_item_of items.now) }
{
    let mut all = true;
    for item in items {
        if item.link == Link::Or {
            if all {
                return true;
            }
            all = true;
        }
        if all {
            all = apply_sign(item.sign, todo_term_holds(facts, &item.term));
        }
    }
    all
}

// Whether a term after the slash holds.
fn todo_term_holds<F: Facts>(facts: &F, term: &BuiltTerm) -> bool
    ensures value { result ≡ todo_term_holds (F.keyword facts.now) (built_term_of term.now) }
{
    match term {
        BuiltTerm::Tag(name) => match facts.keyword() {
            Some(keyword) => keyword == name.as_str().as_bytes(),
            None => false,
        },
        BuiltTerm::Found(_) => false,
        BuiltTerm::Compare(_, _, _) => false,
    }
}

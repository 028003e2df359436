//! Terms before the slash, with what searches for their patterns.
ghost use Rattle.std.specs.Prelude.{◌≡◌, IsOkUnless, bytes_eq};
ghost use Rattle.std.specs.List.{list_any};
ghost use Rattle.org_base.specs.Codes.{memory_fault};
ghost use Rattle.org_base.specs.Results.{Gives};
ghost use Rattle.org_match.specs.TagMatches.{meets};
ghost use Rattle.org_match.specs.Built.{built_item_of};
ghost use Rattle.org_match.specs.Facts.{tag_item_holds_by};
ghost use Rattle.org_match.specs.Holds.{is_or, link_of, apply_sign};
ghost use Rattle.org_match.specs.Patterns.{found};
ghost use Rattle.org_expression.specs.Tree.{sign_of};

use crate::built::{BuiltItem, BuiltTerm};
use crate::compare::compares;
use crate::facts::Facts;
use crate::pattern::Searcher;
use crate::tag_list::TagList;
use org_base::Fault;
use org_cal::Moment;
use org_expression::{Link, Sign};
use std::alloc::{AllocError, Global};
use std::marker::Model;

// A term with what stands before it, and what searches for its pattern where it has one. Contracts see the grammar's
// item.
#[derive(Drop)]
pub(crate) struct ItemMatcher<'a> {
    item: &'a BuiltItem,
    searcher: Option<Searcher<'a>>,
}

impl<'a> Model for ItemMatcher<'a> {
    ghost use Rattle.std.specs.Prelude.{◌≡◌};
    ghost use Rattle.org_expression.specs.Grammar.{Item};
    ghost use Rattle.org_match.specs.Refusal.{item_pattern};
    ghost use Rattle.org_match.specs.Built.{built_item_of};

    ghost Value = { Item };

    ghost view = { λ a. built_item_of a.item.now };

    ghost invariant = { λ a. a.searcher ≡ item_pattern (built_item_of a.item.now) };
}

impl<'a> ItemMatcher<'a> {
    // The item, with what searches for its pattern.
    pub(crate) fn new(alloc: Global, item: &'a BuiltItem) -> Result<ItemMatcher<'a>, AllocError>
        ensures value { Gives result (built_item_of item.now) }
    {
        let searcher = match item.term.pattern() {
            Some(pattern) => Some(pattern.searcher(alloc)?),
            None => None,
        };
        Ok(ItemMatcher { item, searcher })
    }

    // Whether a bar stands before the term.
    pub(crate) fn begins_part(&self) -> bool
        ensures value { result ≡ is_or (link_of self.now) }
    {
        self.item.link == Link::Or
    }

    // Whether one of the tags is what the term asks for. A comparison asks for none.
    pub(crate) fn meets_one<T: TagList>(&mut self, tags: &T) -> bool
        ensures value { result ≡ list_any (meets self.old) (T.list tags.now) }
        ensures unchanged { self.new ≡ self.old }
    {
        match &self.item.term {
            BuiltTerm::Tag(name) => has_tag(tags, name.as_str().as_bytes()),
            BuiltTerm::Found(_) => match &mut self.searcher {
                Some(searcher) => finds_tag(tags, searcher),
                // A pattern has a searcher, so this is never reached.
                None => false,
            },
            BuiltTerm::Compare(_, _, _) => false,
        }
    }

    // Whether the term holds of a heading, or doesn't after a minus, where it is known whether one of its tags is what
    // the term asks for. A missing property counts as an empty text.
    pub(crate) fn holds<F: Facts>(
        &mut self,
        alloc: Global,
        facts: &F,
        is_met: bool,
        moment: Moment,
    ) -> Result<bool, Fault>
        requires met { is_met ≡ list_any (meets self.old) (F.tags facts.now) }
        ensures value { Gives result (tag_item_holds_by F.Facts facts.now moment self.old) }
        ensures unchanged { self.new ≡ self.old }
        ensures memory { IsOkUnless result memory_fault }
    {
        let item = self.item;
        let holds = match &item.term {
            BuiltTerm::Tag(_) | BuiltTerm::Found(_) => is_met,
            BuiltTerm::Compare(name, op, value) => match facts.value(
                alloc,
                name.as_str().as_bytes(),
            )? {
                Some(text) => compares(moment, *op, text.as_slice(), value, &mut self.searcher),
                None => compares(moment, *op, &[], value, &mut self.searcher),
            },
        };
        Ok(apply_sign(item.sign, holds))
    }
}

// A minus negates its term.
pub(crate) fn apply_sign(sign: Sign, holds: bool) -> bool
    ensures value { result ≡ apply_sign (sign_of sign) holds }
{
    match sign {
        Sign::Minus => !holds,
        _ => holds,
    }
}

// Whether the name is one of the tags.
fn has_tag<T: TagList>(tags: &T, name: &[u8]) -> bool
    ensures value { result ≡ list_any (bytes_eq name.now) (T.list tags.now) }
{
    for place in 0..tags.tag_count() {
        if name == tags.tag(place) {
            return true;
        }
    }
    false
}

// Whether the pattern is found in one of the tags.
fn finds_tag<T: TagList>(tags: &T, searcher: &mut Searcher<'_>) -> bool
    ensures value { result ≡ list_any (found searcher.old) (T.list tags.now) }
    ensures unchanged { searcher.new ≡ searcher.old }
{
    for place in 0..tags.tag_count() {
        if searcher.is_found(tags.tag(place)) {
            return true;
        }
    }
    false
}

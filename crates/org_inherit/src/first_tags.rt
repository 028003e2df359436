//! Tags, of equal ones the first.
ghost use Rattle.std.specs.Prelude.{◌≡◌, ℕ, List, [], Some, not, bytes_eq, IfOk, OnOk, IsOkUnless};
ghost use Rattle.std.specs.List.{list_any};
ghost use Rattle.org_base.specs.Codes.{memory_fault};
ghost use Rattle.org_base.specs.Results.{Gives};
ghost use Rattle.org_inherit.specs.Seen.{is_seen, AreSeen, IsSeenToo};
ghost use Rattle.org_inherit.specs.Tags.{with_tag, with_tags, tags_in};

use crate::lent_tags::{FEW, LentTags};
use org_base::{Fault, Span, Texts};
use org_entry::Entry;
use std::alloc::{AllocError, Global};
use std::collections::BTreeSet;
use std::marker::Model;

// Tags where they stand, of equal ones the first; seen as their list. A few are compared one by one. Once they are more a set
// holds the same tags; it is ordered, since what tags hash to is the writer's to choose.
#[derive(Drop)]
pub(crate) struct FirstTags<'a> {
    alloc: Global,
    seen: Option<BTreeSet<Vec<u8>>>,
    tags: LentTags<'a>,
}

impl<'a> Model for FirstTags<'a> {
    ghost use Rattle.std.specs.Prelude.{ℕ, List};
    ghost use Rattle.std.specs.Option.{option_map};
    ghost use Rattle.org_inherit.specs.Seen.{AreSeen};

    ghost Value = { List (List ℕ) };

    ghost view = { λ t. t.tags };

    ghost invariant = { λ t. AreSeen (option_map (λ set. set.keys) t.seen) t.tags };
}

impl<'a> FirstTags<'a> {
    // No tags.
    pub(crate) fn new(alloc: Global) -> FirstTags<'a>
        ensures value { result ≡ [] }
    {
        FirstTags {
            alloc,
            seen: None,
            tags: LentTags::new(alloc),
        }
    }

    // The tags.
    pub(crate) fn tags(&self) -> &LentTags<'a>
        ensures value { result.now ≡ self.now }
    {
        &self.tags
    }

    // Adds a tag, if it isn't there. Where memory is refused the set is gone, and tags are compared one by one from then on.
    fn add(&mut self, tag: &'a [u8]) -> Result<(), Fault>
        ensures ok { OnOk result (self.new ≡ with_tag self.old tag.now) }
        ensures memory { IsOkUnless result memory_fault }
    {
        match self.seen.take() {
            Some(mut seen) => {
                add_seen(self.alloc, &mut seen, &mut self.tags, tag)?;
                self.seen = Some(seen);
            }
            None => {
                if !contains(&self.tags, tag) {
                    self.tags.push(tag)?;
                }
                if self.tags.count() > FEW {
                    self.seen = Some(set_of(self.alloc, &self.tags)?);
                }
            }
        }
        Ok(())
    }

    // Adds those tags that aren't there.
    pub(crate) fn add_all(&mut self, tags: &'a Texts) -> Result<(), Fault>
        ensures ok { OnOk result (self.new ≡ with_tags self.old tags.now) }
        ensures memory { IsOkUnless result memory_fault }
    {
        for place in 0..tags.count() {
            self.add(tags.get(place))?;
        }
        Ok(())
    }

    // Adds those tags that aren't there, each a part of an entry's text.
    pub(crate) fn add_parts(&mut self, entry: &'a Entry, parts: &[Span]) -> Result<(), Fault>
        ensures ok { OnOk result (self.new ≡ with_tags self.old (tags_in entry.now.text parts.now)) }
        ensures memory { IsOkUnless result memory_fault }
    {
        for span in parts {
            self.add(entry.part(*span))?;
        }
        Ok(())
    }
}

// Adds a tag to tags and to the set of them, if it isn't there.
fn add_seen<'a>(
    alloc: Global,
    seen: &mut BTreeSet<Vec<u8>>,
    tags: &mut LentTags<'a>,
    tag: &'a [u8],
) -> Result<(), AllocError>
    requires known { AreSeen (Some seen.old.keys) tags.old }
    ensures tags { OnOk result (tags.new ≡ with_tag tags.old tag.now) }
    ensures seen { OnOk result (AreSeen (Some seen.new.keys) tags.new) }
{
    if is_new(alloc, seen, tag)? {
        tags.push(tag)?;
    }
    Ok(())
}

// Whether the tag comes for the first time. From then on it was seen.
fn is_new(alloc: Global, seen: &mut BTreeSet<Vec<u8>>, tag: &[u8]) -> Result<bool, AllocError>
    ensures value { Gives result (not (is_seen seen.old.keys tag.now)) }
    ensures seen { OnOk result (IsSeenToo seen.old.keys seen.new.keys tag.now) }
{
    let tag = Vec::from_slice(alloc, tag)?;
    let is_new = seen.insert(tag)?;
    Ok(is_new)
}

// Whether the tag is among these, by comparing it with each.
fn contains(tags: &LentTags<'_>, tag: &[u8]) -> bool
    ensures value { result ≡ list_any (bytes_eq tag.now) tags.now }
{
    for place in 0..tags.count() {
        if tag == tags.get(place) {
            return true;
        }
    }
    false
}

// These tags as a set.
fn set_of(alloc: Global, tags: &LentTags<'_>) -> Result<BTreeSet<Vec<u8>>, AllocError>
    ensures seen { IfOk result (λ set. AreSeen (Some set.keys) tags.now) }
{
    let mut set = BTreeSet::new(alloc);
    for place in 0..tags.count() {
        is_new(alloc, &mut set, tags.get(place))?;
    }
    Ok(set)
}

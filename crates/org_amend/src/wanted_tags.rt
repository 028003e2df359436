//! The tags of a heading that loses some and gets others.
ghost use Rattle.std.specs.Prelude.{◌≡◌, ◌++◌, IsOkUnless, OnOk};
ghost use Rattle.org_amend.specs.WantedTags.{AddsTags, has_tag, is_new, kept_tags, parts_in, tag_if, tags_by, wanted_by};
ghost use Rattle.org_base.specs.Codes.{memory_fault};
ghost use Rattle.org_base.specs.Results.{Gives, lent_in};
ghost use Rattle.org_base.specs.Spans.{bytes_in};

use crate::head_change::HeadChange;
use org_base::{Fault, Span, Texts};
use org_head::Head;
use std::alloc::Global;

/// Tags that go, and tags that come behind those that stay. One that stands there already, and doesn't go, stays where it is.
#[derive(Clone, Copy, Debug)]
pub struct TagChange<'a> {
    /// Those that go, each as often as it stands there.
    pub removed: &'a [&'a str],
    /// Those that come, in this order.
    pub added: &'a [&'a str],
}

// The tags that a line of that head is to have with a change.
pub(crate) fn all_tags(
    alloc: Global,
    line: &[u8],
    head: &Head,
    change: &HeadChange<'_>,
) -> Result<Texts, Fault>
    ensures value { Gives result (tags_by change.now (parts_in line.now head.now.tags)) }
    ensures memory { IsOkUnless result memory_fault }
{
    let old = own_tags(alloc, line, head.tags.as_slice())?;
    match change {
        HeadChange::Tags(tags) => wanted_tags(alloc, &old, tags),
        HeadChange::Priority(_) | HeadChange::NoKeyword => old.copy(),
    }
}

// The parts of a line.
pub(crate) fn own_tags(alloc: Global, line: &[u8], spans: &[Span]) -> Result<Texts, Fault>
    ensures value { Gives result (parts_in line.now spans.now) }
    ensures memory { IsOkUnless result memory_fault }
{
    let mut tags = Texts::new(alloc);
    for span in spans {
        tags.push(part_of(line, *span))?;
    }
    Ok(tags)
}

// The bytes of a part of a line.
fn part_of(line: &[u8], span: Span) -> &[u8]
    ensures value { result.now ≡ bytes_in line.now span }
{
    let start = line.len().min(span.at as usize);
    let rest = &line[start..];
    &rest[..rest.len().min(span.len as usize)]
}

// Those tags that don't go, and behind them those that come.
fn wanted_tags(alloc: Global, old: &Texts, change: &TagChange<'_>) -> Result<Texts, Fault>
    ensures value { Gives result (wanted_by change.now old.now) }
    ensures memory { IsOkUnless result memory_fault }
{
    let mut tags = Texts::new(alloc);
    push_kept(&mut tags, old, change.removed)?;
    push_added(&mut tags, old, change.removed, change.added)?;
    Ok(tags)
}

// Puts the tags that are none of some words at the end.
fn push_kept(tags: &mut Texts, old: &Texts, removed: &[&str]) -> Result<(), Fault>
    ensures ok { OnOk result (tags.new ≡ tags.old ++ kept_tags (lent_in removed.now) old.now) }
    ensures memory { IsOkUnless result memory_fault }
{
    for place in 0..old.count() {
        let tag = old.get(place);
        push_if(tags, !is_among(removed, tag), tag)?;
    }
    Ok(())
}

// Puts the tags that come at the end.
fn push_added(tags: &mut Texts, old: &Texts, removed: &[&str], added: &[&str]) -> Result<(), Fault>
    ensures ok { AddsTags result tags.old tags.new old.now removed.now added.now }
    ensures memory { IsOkUnless result memory_fault }
{
    for word in added {
        let tag = word.as_bytes();
        push_if(tags, is_new(old, removed, tag), tag)?;
    }
    Ok(())
}

// Whether a tag comes: it doesn't stand there, or goes.
fn is_new(old: &Texts, removed: &[&str], tag: &[u8]) -> bool
    ensures value { result ≡ is_new old.now (lent_in removed.now) tag.now }
{
    !stands_there(old, tag) || is_among(removed, tag)
}

// Puts a tag at the end, if it is wanted.
fn push_if(tags: &mut Texts, is_wanted: bool, tag: &[u8]) -> Result<(), Fault>
    ensures ok { OnOk result (tags.new ≡ tags.old ++ tag_if is_wanted tag.now) }
    ensures memory { IsOkUnless result memory_fault }
{
    if is_wanted {
        tags.push(tag)?;
    }
    Ok(())
}

// Whether a tag is among words.
fn is_among(words: &[&str], tag: &[u8]) -> bool
    ensures value { result ≡ has_tag (lent_in words.now) tag.now }
{
    for word in words {
        if word.as_bytes() == tag {
            return true;
        }
    }
    false
}

// Whether a tag is among tags.
fn stands_there(tags: &Texts, tag: &[u8]) -> bool
    ensures value { result ≡ has_tag tags.now tag.now }
{
    for place in 0..tags.count() {
        if tags.get(place) == tag {
            return true;
        }
    }
    false
}

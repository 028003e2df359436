//! Tags of a heading.
ghost use Rattle.std.specs.Prelude.{◌≡◌, ◌<◌, length, fold, map, OnOk, IsOkUnless, IfOk};
ghost use Rattle.org_base.specs.Codes.{memory_fault};
ghost use Rattle.org_base.specs.Results.{Adds, Gives};
ghost use Rattle.org_base.specs.Spans.{bytes_in};
ghost use Rattle.org_inherit.specs.Tables.{has_tags, one_passes};
ghost use Rattle.org_inherit.specs.Tags.{own_tags, lineage, with_tag, closed_tags, tags_text, tags_value, with_shown, tags_at};

use crate::first_tags::FirstTags;
use crate::lent_tags::LentTags;
use org_base::{Bytes, Fault, Span, Texts};
use org_entry::Entry;
use org_outline::Outline;
use smallvec::SmallVec;
use std::alloc::{AllocError, Global};

// Adds those of an entry's own tags that aren't there.
fn add_own<'a>(tags: &mut FirstTags<'a>, entry: &'a Entry) -> Result<(), Fault>
    ensures ok { OnOk result (tags.new ≡ fold with_tag tags.old (own_tags entry.now)) }
    ensures memory { IsOkUnless result memory_fault }
{
    match &entry.head {
        Some(head) => tags.add_parts(entry, head.tags.as_slice()),
        None => Ok(()),
    }
}

// The places of the entry's ancestors from the outermost, and its own. A heading has more stars than ancestors, so the way
// up from all of them takes no more steps than the text has bytes.
fn lineage(alloc: Global, outline: &Outline, place: usize) -> Result<SmallVec<usize, 8>, AllocError>
    requires within { place < length outline.now }
    ensures value { IfOk result (λ line. line.items ≡ lineage outline.now place) }
{
    let mut line = SmallVec::new(alloc);
    let mut next = Some(place);
    while let Some(source) = next {
        line.push(source)?;
        next = outline.parent(source);
    }
    line.reverse();
    Ok(line)
}

// A file's tags, the tags of the entry's ancestors from the outermost and its own; of equal ones the first. It is known
// whether the entry and its ancestors have any.
pub(crate) fn all_tags<'a>(
    alloc: Global,
    file_tags: &'a Texts,
    outline: &'a Outline,
    place: usize,
    tagged: bool,
) -> Result<FirstTags<'a>, Fault>
    requires within { place < length outline.now }
    requires tagged { tagged ≡ one_passes has_tags outline.now place }
    ensures value { Gives result (tags_at file_tags.now outline.now place) }
    ensures memory { IsOkUnless result memory_fault }
{
    let mut tags = FirstTags::new(alloc);
    tags.add_all(file_tags)?;
    if !tagged {
        return Ok(tags);
    }
    let line = lineage(alloc, outline, place)?;
    for source in line.as_slice() {
        add_own(&mut tags, outline.entry(*source))?;
    }
    Ok(tags)
}

// Copies of tags.
pub(crate) fn copy_tags(alloc: Global, tags: &LentTags<'_>) -> Result<Texts, Fault>
    ensures value { Gives result tags.now }
    ensures memory { IsOkUnless result memory_fault }
{
    let mut copies = Texts::new(alloc);
    for place in 0..tags.count() {
        copies.push(tags.get(place))?;
    }
    Ok(copies)
}

// Appends tags as they are written, `:a:b:`; of no tags nothing.
pub(crate) fn push_tags(text: &mut Vec<u8>, tags: &LentTags<'_>) -> Result<(), AllocError>
    ensures ok { Adds result text.old text.new (tags_text tags.now) }
{
    if tags.count() == 0 {
        return Ok(());
    }
    text.push(b':')?;
    push_closed(text, tags)
}

// Appends tags, each with a colon after it.
fn push_closed(text: &mut Vec<u8>, tags: &LentTags<'_>) -> Result<(), AllocError>
    ensures ok { Adds result text.old text.new (closed_tags tags.now) }
{
    for place in 0..tags.count() {
        text.extend_from_slice(tags.get(place))?;
        text.push(b':')?;
    }
    Ok(())
}

// Parts of an entry's text, copied.
pub(crate) fn parts(alloc: Global, entry: &Entry, spans: &[Span]) -> Result<Texts, Fault>
    ensures value { Gives result (map (bytes_in entry.now.text) spans.now) }
    ensures memory { IsOkUnless result memory_fault }
{
    let mut parts = Texts::new(alloc);
    for span in spans {
        parts.push(entry.part(*span))?;
    }
    Ok(parts)
}

/// Tags as they are written, `:a:b:`; no tags have no text.
pub fn tags_text(alloc: Global, tags: &Texts) -> Result<Bytes, AllocError>
    ensures value { Gives result (tags_text tags.now) }
{
    let mut text = Vec::new(alloc);
    for place in 0..tags.count() {
        push_tag(&mut text, tags.get(place))?;
    }
    Ok(Bytes::new(text))
}

// Appends a tag and a colon after it, and before the first tag one more.
fn push_tag(text: &mut Vec<u8>, tag: &[u8]) -> Result<(), AllocError>
    ensures ok { OnOk result (text.new.items ≡ with_shown text.old.items tag.now) }
{
    if text.is_empty() {
        text.push(b':')?;
    }
    text.extend_from_slice(tag)?;
    text.push(b':')?;
    Ok(())
}

// The text of tags; None where there are none.
pub(crate) fn tags_value(alloc: Global, tags: &Texts) -> Result<Option<Bytes>, AllocError>
    ensures value { Gives result (tags_value tags.now) }
{
    if tags.count() == 0 {
        return Ok(None);
    }
    let text = tags_text(alloc, tags)?;
    Ok(Some(text))
}

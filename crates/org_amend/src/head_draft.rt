//! A heading line with a change, before its tags are aligned and it is read back.
ghost use Rattle.std.specs.Prelude.{◌≡◌, ◌++◌, ◌<◌, ◌^◌, IsOkUnless, codes, length};
ghost use Rattle.org_amend.specs.HeadChanges.{drafted, head_draft, retagged_line, tagged_line, with_space};
ghost use Rattle.org_amend.specs.Heads.{all_tags_text, tags_text};
ghost use Rattle.org_base.specs.Codes.{memory_fault};
ghost use Rattle.org_base.specs.Results.{Adds, GivesItems};
ghost use Rattle.org_head.specs.Head.{AreInside};

use crate::aligned_tags::title_front;
use crate::head_change::HeadChange;
use crate::head_parts::{with_cookie, without_cookie, without_keyword};
use crate::head_said::has_tags;
use crate::line_tail::line_tail;
use crate::wanted_tags::all_tags;
use org_base::words::trim_end;
use org_base::{Fault, Texts};
use org_class::leading_stars;
use org_head::{Head, read_head};
use org_settings::Settings;
use std::alloc::{AllocError, Global};

// The line with a change, before its tags are aligned and it is read back.
pub(crate) fn head_draft(
    alloc: Global,
    settings: &Settings,
    line: &[u8],
    change: &HeadChange<'_>,
) -> Result<Vec<u8>, Fault>
    requires size { length line.now < 2 ^ 32 }
    ensures value { GivesItems result (head_draft settings.now change.now line.now) }
    ensures memory { IsOkUnless result memory_fault }
{
    let head = read_head(alloc, line, settings)?;
    draft_of(alloc, line, &head, change)
}

// The same of a line of that head.
fn draft_of(
    alloc: Global,
    line: &[u8],
    head: &Head,
    change: &HeadChange<'_>,
) -> Result<Vec<u8>, Fault>
    requires size { length line.now < 2 ^ 32 }
    requires within { AreInside line.now head.now }
    ensures value { GivesItems result (drafted change.now line.now head.now) }
    ensures memory { IsOkUnless result memory_fault }
{
    match change {
        HeadChange::Tags(_) => tagged_by(alloc, line, head, change),
        HeadChange::Priority(Some(word)) => {
            Ok(with_cookie(alloc, line, head.priority, head.keyword, word)?)
        }
        HeadChange::Priority(None) => Ok(without_cookie(alloc, line, head.priority)?),
        HeadChange::NoKeyword => Ok(without_keyword(alloc, line, head.keyword)?),
    }
}

// The line with the tags that a change wants; one that has them stays as it is.
fn tagged_by(
    alloc: Global,
    line: &[u8],
    head: &Head,
    change: &HeadChange<'_>,
) -> Result<Vec<u8>, Fault>
    requires within { AreInside line.now head.now }
    ensures value { GivesItems result (retagged_line change.now line.now head.now) }
    ensures memory { IsOkUnless result memory_fault }
{
    let tags = all_tags(alloc, line, head, change)?;
    if has_tags(alloc, line, head, &tags)? {
        return Ok(Vec::from_slice(alloc, line)?);
    }
    Ok(tagged_line(alloc, line, head, &tags)?)
}

// The line with these tags one space behind its title.
fn tagged_line(alloc: Global, line: &[u8], head: &Head, tags: &Texts) -> Result<Vec<u8>, AllocError>
    requires within { AreInside line.now head.now }
    ensures value { GivesItems result (tagged_line line.now head.now tags.now) }
{
    let mut new = with_space(alloc, trim_end(title_front(line, head)))?;
    push_all_tags(&mut new, tags)?;
    new.extend_from_slice(line_tail(line))?;
    Ok(new)
}

// A space behind stars alone.
fn with_space(alloc: Global, front: &[u8]) -> Result<Vec<u8>, AllocError>
    ensures value { GivesItems result (with_space front.now) }
{
    let mut new = Vec::from_slice(alloc, front)?;
    if leading_stars(front) == front.len() {
        new.extend_from_slice(b" ")?;
    }
    Ok(new)
}

// Puts tags behind a space and a colon at the end, if there is one.
fn push_all_tags(line: &mut Vec<u8>, tags: &Texts) -> Result<(), AllocError>
    ensures ok { Adds result line.old line.new (all_tags_text tags.now) }
{
    if tags.count() == 0 {
        return Ok(());
    }
    line.extend_from_slice(b" :")?;
    push_tags(line, tags)
}

// Puts tags at the end, each with a colon behind it.
fn push_tags(line: &mut Vec<u8>, tags: &Texts) -> Result<(), AllocError>
    ensures ok { Adds result line.old line.new (tags_text tags.now) }
{
    for place in 0..tags.count() {
        push_tag(line, tags.get(place))?;
    }
    Ok(())
}

fn push_tag(line: &mut Vec<u8>, tag: &[u8]) -> Result<(), AllocError>
    ensures ok { Adds result line.old line.new (tag.now ++ codes ":") }
{
    line.extend_from_slice(tag)?;
    line.extend_from_slice(b":")
}

//! A heading line whose tags end in the column for them.
ghost use Rattle.std.specs.Prelude.{◌≡◌, ◌<◌, ◌≤◌, ◌^◌, IfOk, IsOkUnless, length, replicate};
ghost use Rattle.org_amend.specs.HeadChanges.{aligned_draft, aligned_line, aligns, title_front, title_rest};
ghost use Rattle.org_base.specs.Codes.{memory_fault};
ghost use Rattle.org_base.specs.Results.{Adds, GivesItems};
ghost use Rattle.org_base.specs.Spans.{IsInside};
ghost use Rattle.org_head.specs.Head.{head_of};

use crate::head_change::HeadChange;
use crate::tags_column::spaces_before;
use org_base::Fault;
use org_base::words::{trim_end, trim_start};
use org_head::{Head, read_head};
use org_settings::Settings;
use std::alloc::{AllocError, Global};

// What stands up to the end of the title.
pub(crate) fn title_front<'a>(line: &'a [u8], head: &Head) -> &'a [u8]
    requires within { IsInside line.now head.now.title }
    ensures value { result.now ≡ title_front line.now head.now }
{
    &line[..head.title.at as usize + head.title.len as usize]
}

// What stands behind the title.
pub(crate) fn title_rest<'a>(line: &'a [u8], head: &Head) -> &'a [u8]
    requires within { IsInside line.now head.now.title }
    ensures value { result.now ≡ title_rest line.now head.now }
{
    &line[head.title.at as usize + head.title.len as usize..]
}

// A draft of a line with its tags aligned, unless its keyword is what changes, or nothing has changed.
pub(crate) fn aligned_draft(
    alloc: Global,
    settings: &Settings,
    change: &HeadChange<'_>,
    line: &[u8],
    draft: &[u8],
) -> Result<Vec<u8>, Fault>
    requires size { length draft.now ≤ 67108864 }
    ensures value { GivesItems result (aligned_draft settings.now change.now line.now draft.now) }
    ensures size { IfOk result (λ new. length new.items < 2 ^ 32) }
    ensures memory { IsOkUnless result memory_fault }
{
    if aligns(change) && draft != line {
        with_aligned_tags(alloc, settings, draft)
    } else {
        Ok(Vec::from_slice(alloc, draft)?)
    }
}

// Whether a change aligns tags.
fn aligns(change: &HeadChange<'_>) -> bool
    ensures value { result ≡ aligns change.now }
{
    match change {
        HeadChange::Tags(_) | HeadChange::Priority(_) => true,
        HeadChange::NoKeyword => false,
    }
}

// A line with its tags aligned.
fn with_aligned_tags(alloc: Global, settings: &Settings, line: &[u8]) -> Result<Vec<u8>, Fault>
    requires size { length line.now ≤ 67108864 }
    ensures value { GivesItems result (aligned_line line.now (head_of settings.now line.now)) }
    ensures size { IfOk result (λ new. length new.items < 2 ^ 32) }
    ensures memory { IsOkUnless result memory_fault }
{
    let head = read_head(alloc, line, settings)?;
    Ok(aligned_line(alloc, line, &head)?)
}

// A line of that head whose tags, if it has any, end in the column for them, but stand at least one space behind what is before
// them.
fn aligned_line(alloc: Global, line: &[u8], head: &Head) -> Result<Vec<u8>, AllocError>
    requires size { length line.now ≤ 67108864 }
    requires within { IsInside line.now head.now.title }
    ensures value { GivesItems result (aligned_line line.now head.now) }
    ensures size { IfOk result (λ new. length new.items < 2 ^ 32) }
{
    if head.tags.count() == 0 {
        return Vec::from_slice(alloc, line);
    }
    let front = trim_end(title_front(line, head));
    let rest = trim_start(title_rest(line, head));
    let mut new = Vec::from_slice(alloc, front)?;
    push_spaces(&mut new, spaces_before(front, trim_end(rest)))?;
    new.extend_from_slice(rest)?;
    Ok(new)
}

pub(crate) fn push_spaces(line: &mut Vec<u8>, count: usize) -> Result<(), AllocError>
    ensures ok { Adds result line.old line.new (replicate count 32) }
{
    for _space in 0..count {
        line.push(b' ')?;
    }
    Ok(())
}

//! The heading line of a heading that gets other tags or another priority, or loses its keyword.
ghost use Rattle.std.specs.Prelude.{◌≡◌, ◌<◌, ◌^◌, IsOkUnless, length};
ghost use Rattle.org_amend.specs.HeadChanges.{blamed_of, changed_head, finished};
ghost use Rattle.org_amend.specs.Heads.{GivesHead};
ghost use Rattle.org_base.specs.Codes.{memory_fault};

use crate::aligned_tags::aligned_draft;
use crate::head::{Unreadable, blame};
use crate::head_draft::head_draft;
use crate::head_said::is_changed;
use crate::planning::text_if;
use crate::wanted_tags::TagChange;
use org_base::Fault;
use org_settings::Settings;
use org_text::MAX_BYTES;
use std::alloc::Global;

/// What is changed of a heading line.
#[derive(Clone, Copy, Debug)]
pub enum HeadChange<'a> {
    /// Some tags go, and others come.
    Tags(TagChange<'a>),
    /// Its priority becomes this one, or none.
    Priority(Option<&'a str>),
    /// Its keyword goes.
    NoKeyword,
}

/// A heading line with a change, in a file with these settings. It is read as what it said, but for the change, and ends as it did.
/// Where it has tags and they or the priority are what changes, they end in column 77, or stand one space behind the title where
/// that is too long. Where the line would be read as something else, or would be longer than a text may be, the answer is what is to
/// blame. Out of memory is the only refusal.
#[tactic(auto, unfolding(crate::specs::HeadChanges::changed_head))]
pub fn changed_head(
    alloc: Global,
    settings: &Settings,
    line: &[u8],
    change: &HeadChange<'_>,
) -> Result<Result<String, Unreadable>, Fault>
    ensures value { GivesHead result (changed_head settings.now change.now line.now) }
    ensures memory { IsOkUnless result memory_fault }
{
    if line.len() > MAX_BYTES {
        return Ok(Err(blame_for(change)));
    }
    let draft = head_draft(alloc, settings, line, change)?;
    finish_draft(alloc, settings, line, change, &draft)
}

// The line of a draft, if it is read as what is asked for.
fn finish_draft(
    alloc: Global,
    settings: &Settings,
    line: &[u8],
    change: &HeadChange<'_>,
    draft: &[u8],
) -> Result<Result<String, Unreadable>, Fault>
    requires size { length line.now < 2 ^ 32 }
    ensures value { GivesHead result (finished settings.now change.now line.now draft.now) }
    ensures memory { IsOkUnless result memory_fault }
{
    if draft.len() > MAX_BYTES {
        return Ok(Err(blame_for(change)));
    }
    let new = aligned_draft(alloc, settings, change, line, draft)?;
    let is_changed = is_changed(alloc, settings, line, change, &new)?;
    match text_if(alloc, is_changed, &new)? {
        Some(line) => Ok(Ok(line)),
        None => Ok(Err(blame_for(change))),
    }
}

// What is to blame where a line isn't read as what is asked for: that, or else the title.
fn blame_for(change: &HeadChange<'_>) -> Unreadable
    ensures value { result ≡ blamed_of change.now }
{
    match change {
        HeadChange::Tags(tags) => blame(!tags.added.is_empty(), Unreadable::Tags),
        HeadChange::Priority(priority) => blame(priority.is_some(), Unreadable::Priority),
        HeadChange::NoKeyword => Unreadable::Title,
    }
}

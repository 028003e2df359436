//! Adding a heading to a file.
ghost use Rattle.std.specs.Prelude.{◌≡◌, ◌≤◌, IfSome, Ok, drop, length};
ghost use Rattle.org_act.specs.Adding.{added_whole, at_level, break_of, gap_behind, spot_below, spot_of, with_entry};
ghost use Rattle.org_act.specs.Changes.{Makes};
ghost use Rattle.org_act.specs.Lines.{first_line};

use crate::act::{Act, Refusal};
use crate::completion::file_of;
use crate::lines::{first_line, has_feed, heading_at, line_end, subtree_end};
use org_amend::{NewEntry, NewHead, entry_text};
use org_base::{Code, Fault};
use org_class::leading_stars;
use org_store::{File, OwnedChange};
use org_text::{MAX_BYTES, Whole};
use std::alloc::{AllocError, Global};

/// A heading goes into a file: behind all others, or as the last one below another.
///
/// What stands there stays. Where the text before it doesn't end with a line feed, one comes first. It is refused with
/// `Unreadable` where the new lines would be read as something else.
#[derive(Clone, Copy, Debug)]
pub struct Addition<'a> {
    /// The line of the heading below which it goes; without one it goes behind all others. Lines count from 1.
    pub under: Option<u64>,
    /// The lines; their level is that of the place.
    pub entry: NewEntry<'a>,
    /// What is read after the text, as a setting line that names keywords, and never written. It may be empty.
    pub behind: &'a str,
}

impl<'a> Act for Addition<'a> {
    ghost use Rattle.org_act.specs.Adding.{added_text};

    ghost amended = { added_text };

    fn plan(&self, alloc: Global, text: &str) -> Result<OwnedChange, Refusal> {
        match file_of(alloc, text, self.behind) {
            Ok(file) => plan_in(alloc, &file, text, self),
            Err(fault) => Err(Refusal::Fault(fault)),
        }
    }
}

// Where a heading goes, and its level.
#[derive(Clone, Copy)]
struct Spot {
    at: usize,
    level: usize,
}

// What adding a heading changes of a text that is read as the first part of a file's.
fn plan_in(
    alloc: Global,
    file: &File<Whole>,
    text: &str,
    act: &Addition<'_>,
) -> Result<OwnedChange, Refusal>
    ensures value { Makes result text.now (added_whole act.now text.now file.now.text) }
{
    let bytes = text.as_bytes();
    let Some(spot) = spot_of(bytes, act.under) else {
        return Err(Refusal::Fault(Fault::Plain(Code::Heading)));
    };
    let entry = at_level(&act.entry, spot.level);
    match entry_text(alloc, file.settings(), &entry, break_of(bytes))? {
        Ok(lines) => change_at(alloc, bytes, spot.at, lines.as_str()),
        Err(why) => Err(Refusal::Unreadable(why)),
    }
}

// The change that puts the lines of an entry at a place.
fn change_at(alloc: Global, text: &[u8], at: usize, entry: &str) -> Result<OwnedChange, Refusal>
    requires within { at ≤ length text.now }
    ensures value { Makes result text.now (with_entry text.now at (Ok entry.now)) }
{
    let mut inserted = String::from_str(alloc, gap_behind(&text[..at]))?;
    inserted.push_str(entry)?;
    if text.len() + inserted.len() > MAX_BYTES {
        return Err(Refusal::Fault(Fault::Plain(Code::Size)));
    }
    Ok(OwnedChange {
        at: at as u64,
        del: 0,
        ins: inserted,
    })
}

// An entry at a level.
fn at_level<'a>(entry: &NewEntry<'a>, level: usize) -> NewEntry<'a>
    ensures value { result ≡ at_level entry.now level }
{
    NewEntry {
        head: NewHead {
            level,
            ..entry.head
        },
        ..*entry
    }
}

// Where a heading goes, below the one on a line, if there is one, or behind all others.
#[tactic(auto, unfolding(crate::specs::Adding::spot_of))]
fn spot_of(text: &[u8], under: Option<u64>) -> Option<Spot>
    ensures value { result ≡ spot_of text.now under }
    ensures within { IfSome result (λ spot. spot.at ≤ length text.now) }
{
    let Some(line) = under else {
        return Some(Spot {
            at: text.len(),
            level: 1,
        });
    };
    let at = heading_at(text, line)?;
    Some(spot_below(text, at))
}

// The place of the last heading below the one that begins at a place.
fn spot_below(text: &[u8], at: usize) -> Spot
    requires within { at ≤ length text.now }
    ensures value { result ≡ spot_below text.now (first_line (drop at text.now)) at }
    ensures within { result.at ≤ length text.now }
{
    let heading = first_line(&text[at..]);
    let level = leading_stars(heading);
    Spot {
        at: subtree_end(text, at + heading.len(), level),
        level: level + 1,
    }
}

// What stands between a text and a line behind it.
#[tactic(auto, unfolding(crate::specs::Adding::gap_behind))]
fn gap_behind(front: &[u8]) -> &'static str
    ensures value { result.now ≡ gap_behind front.now }
{
    if front.is_empty() || has_feed(front) {
        ""
    } else {
        "\n"
    }
}

// How a new line of a text ends: as its first one.
#[tactic(auto, unfolding(crate::specs::Adding::break_of))]
fn break_of(text: &[u8]) -> &'static str
    ensures value { result.now ≡ break_of text.now }
    ensures short { length result.now ≤ 2 }
{
    let end = line_end(first_line(text));
    if end.is_empty() { "\n" } else { end }
}

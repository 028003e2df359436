//! What entries of a file are.
ghost use Rattle.std.specs.Prelude.{◌≡◌, ◌<◌, length, option_copied};
ghost use Rattle.org_base.specs.Results.{GivesItems};
ghost use Rattle.org_project.specs.Flags.{both, either, flags, has_flag, is_done_task, is_named, is_open_task, is_scheduled, is_set, keyword_at};

use crate::outermost::{both_at, either_at};
use org_entry::{Entry, is_finished, keyword_of};
use org_inherit::Inherit;
use org_settings::Settings;
use std::alloc::{AllocError, Global};

/// What an entry of a file may be.
#[derive(Clone, Copy, Debug, PartialEq, Eq)]
pub enum Flag {
    /// A heading that isn't hidden.
    Shown,
    /// One that isn't hidden and has no done keyword.
    Undone,
    /// A heading with an open keyword: one that is no done one, whether it is hidden or not.
    Unfinished,
    /// One with an open keyword that isn't hidden.
    Open,
    /// One with a done keyword that isn't hidden.
    Done,
    /// One with the keyword `NEXT`, an open one, that isn't hidden.
    Next,
    /// One with an open keyword and a stamp under `SCHEDULED` that isn't hidden.
    Scheduled,
    /// Its property `ORDERED` is set: the headings below it are done in order.
    Ordered,
    /// Its property `NOBLOCKING` is set: nothing blocks it.
    Unblocked,
}

/// Of each entry of a file, whether it is so.
pub fn flags(alloc: Global, inherit: &Inherit<'_>, flag: Flag) -> Result<Vec<bool>, AllocError>
    ensures value { GivesItems result (flags flag inherit.now) }
{
    let mut flags = Vec::new(alloc);
    for place in 0..inherit.outline().count() {
        flags.push(has_flag(inherit, place, inherit.outline().entry(place), flag))?;
    }
    Ok(flags)
}

fn has_flag(inherit: &Inherit<'_>, place: usize, entry: &Entry, flag: Flag) -> bool
    requires within { place < length inherit.now.entries }
    ensures value { result ≡ has_flag flag inherit.now place entry.now }
{
    let settings = inherit.settings();
    match flag {
        Flag::Shown => entry.head.is_some() && !inherit.hidden(place),
        Flag::Undone => {
            entry.head.is_some() && !is_done_task(settings, entry) && !inherit.hidden(place)
        }
        Flag::Unfinished => is_open_task(settings, entry),
        Flag::Open => is_open_task(settings, entry) && !inherit.hidden(place),
        Flag::Done => is_done_task(settings, entry) && !inherit.hidden(place),
        Flag::Next => {
            is_open_task(settings, entry) && is_named(entry, b"NEXT") && !inherit.hidden(place)
        }
        Flag::Scheduled => {
            is_open_task(settings, entry) && is_scheduled(entry) && !inherit.hidden(place)
        }
        Flag::Ordered => is_set(entry, b"ORDERED"),
        Flag::Unblocked => is_set(entry, b"NOBLOCKING"),
    }
}

// The keyword of an entry, if it is a heading that has one.
fn keyword_at(entry: &Entry) -> Option<&[u8]>
    ensures value { option_copied result ≡ keyword_at entry.now }
{
    match &entry.head {
        Some(head) => keyword_of(entry, head),
        None => None,
    }
}

fn is_done_task(settings: &Settings, entry: &Entry) -> bool
    ensures value { result ≡ is_done_task settings.now entry.now }
{
    is_finished(settings, keyword_at(entry))
}

// Whether an entry has a keyword that is no done one.
fn is_open_task(settings: &Settings, entry: &Entry) -> bool
    ensures value { result ≡ is_open_task settings.now entry.now }
{
    let keyword = keyword_at(entry);
    keyword.is_some() && !is_finished(settings, keyword)
}

fn is_named(entry: &Entry, word: &[u8]) -> bool
    ensures value { result ≡ is_named entry.now word.now }
{
    match keyword_at(entry) {
        Some(keyword) => keyword == word,
        None => false,
    }
}

fn is_scheduled(entry: &Entry) -> bool
    ensures value { result ≡ is_scheduled entry.now }
{
    match entry.planning() {
        Some(planning) => planning.scheduled.is_some(),
        None => false,
    }
}

// Whether a property of an entry is set: it has a value that isn't `nil`.
fn is_set(entry: &Entry, name: &[u8]) -> bool
    ensures value { result ≡ is_set entry.now name.now }
{
    match entry.details.property(name) {
        Some(value) => value != b"nil".as_slice(),
        None => false,
    }
}

/// What two lists of flags both say.
pub fn both(alloc: Global, one: &[bool], other: &[bool]) -> Result<Vec<bool>, AllocError>
    ensures value { GivesItems result (both one.now other.now) }
{
    let mut all = Vec::new(alloc);
    for place in 0..one.len() {
        all.push(both_at(one, other, place))?;
    }
    Ok(all)
}

/// What one of two lists of flags says, as far as the first one goes.
pub fn either(alloc: Global, one: &[bool], other: &[bool]) -> Result<Vec<bool>, AllocError>
    ensures value { GivesItems result (either one.now other.now) }
{
    let mut all = Vec::new(alloc);
    for place in 0..one.len() {
        all.push(either_at(one, other, place))?;
    }
    Ok(all)
}

//! What a heading's own lines say, as values.
ghost use Rattle.std.specs.Prelude.{◌≡◌, decimal, IfOk, IsOkUnless};
ghost use Rattle.std.specs.Option.{option_map};
ghost use Rattle.org_base.specs.Codes.{memory_fault};
ghost use Rattle.org_base.specs.Results.{Gives};
ghost use Rattle.org_entry.specs.Planning.{entry_planning};
ghost use Rattle.org_head.specs.Cookie.{cookie_value};
ghost use Rattle.org_base.specs.Spans.{bytes_in};
ghost use Rattle.org_inherit.specs.Special.{priority_text, priority_value, stamp_span, heading_value};

use crate::special::HeadingValue;
use crate::tags::{parts, tags_value};
use org_base::{Bytes, Fault, Span};
use org_entry::Entry;
use org_head::Head;
use org_settings::Settings;
use org_stamp::PlanningKeyword;
use std::alloc::{AllocError, Global};

// A copy of bytes.
pub(crate) fn copy_bytes(alloc: Global, bytes: &[u8]) -> Result<Bytes, AllocError>
    ensures value { Gives result bytes.now }
{
    let bytes = Vec::from_slice(alloc, bytes)?;
    Ok(Bytes::new(bytes))
}

fn decimal(alloc: Global, number: u32) -> Result<Bytes, AllocError>
    ensures value { Gives result (decimal number) }
{
    let text = format!(in alloc; "{number}")?;
    Ok(Bytes::new(text.into_bytes()))
}

// X of the cookie `[#X]`.
pub(crate) fn cookie_value(cookie: &[u8]) -> &[u8]
    ensures value { result.now ≡ cookie_value cookie.now }
{
    let behind = &cookie[cookie.len().min(2)..];
    &behind[..cookie.len().saturating_sub(3)]
}

// A letter by its ASCII code, a number in decimal.
fn priority_text(alloc: Global, number: u8) -> Result<Bytes, AllocError>
    ensures value { Gives result (priority_text number) }
{
    if number > 64 {
        copy_bytes(alloc, &[number])
    } else {
        decimal(alloc, u32::from(number))
    }
}

fn priority_value(
    alloc: Global,
    settings: &Settings,
    entry: &Entry,
    cookie: Option<Span>,
) -> Result<Bytes, AllocError>
    ensures value { IfOk result (λ text. text ≡ priority_value settings.now entry.now.text cookie) }
{
    match cookie {
        Some(cookie) => copy_bytes(alloc, cookie_value(entry.part(cookie))),
        None => priority_text(alloc, settings.default_priority()),
    }
}

// A part of an entry's text, if it is there.
fn part_value(alloc: Global, entry: &Entry, part: Option<Span>) -> Result<Option<Bytes>, AllocError>
    ensures value { Gives result (option_map (bytes_in entry.now.text) part) }
{
    match part {
        Some(span) => Ok(Some(copy_bytes(alloc, entry.part(span))?)),
        None => Ok(None),
    }
}

// Where the stamp of a planning keyword stands in the entry's text.
fn stamp_span(entry: &Entry, word: PlanningKeyword) -> Option<Span>
    ensures value { result ≡ stamp_span word (entry_planning entry.now) }
{
    // Matched, since the prover's borrow checker has no plan for `?` or `and_then` at this type here.
    match entry.planning() {
        Some(planning) => planning.part(word),
        None => None,
    }
}

// What a heading's own lines say, of its entry and its head.
pub(crate) fn heading_value(
    alloc: Global,
    settings: &Settings,
    entry: &Entry,
    head: &Head,
    value: HeadingValue,
) -> Result<Option<Bytes>, Fault>
    ensures value { Gives result (heading_value settings.now entry.now head.now value) }
    ensures memory { IsOkUnless result memory_fault }
{
    let value = match value {
        HeadingValue::Keyword => part_value(alloc, entry, head.keyword)?,
        HeadingValue::Priority => Some(priority_value(alloc, settings, entry, head.priority)?),
        HeadingValue::Level => Some(decimal(alloc, head.level)?),
        HeadingValue::Title => part_value(alloc, entry, Some(head.title))?,
        HeadingValue::Tags => tags_value(alloc, &parts(alloc, entry, head.tags.as_slice())?)?,
        HeadingValue::Stamp(word) => part_value(alloc, entry, stamp_span(entry, word))?,
    };
    Ok(value)
}

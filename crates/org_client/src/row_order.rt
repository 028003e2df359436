//! What rows have for the keys by which they are put in order.
ghost use Rattle.std.specs.Prelude.{◌≡◌};
ghost use Rattle.org_client.specs.RowOrder.{day_under, effort_in, keyword_place_in, minute_of, minute_under, number_in, priority_in, stamp_under, urgency_in};

use crate::titles::title_words;
use crate::urgency::{MOST_URGENT, urgency_of};
use caseless::default_case_fold_str;
use org_agenda::Row;
use org_base::Fault;
use org_cal::{Day, MINUTES_PER_DAY};
use org_drawer::{Planning, effort_minutes};
use org_entry::Entry;
use org_inherit::{Heading, Inherits};
use org_order::{KeyValue, Rank};
use org_stamp::Stamp;
use std::alloc::{AllocError, Global};

/// What rows are put in order by.
#[derive(Clone, Copy, Debug, PartialEq, Eq)]
pub enum SortKey {
    /// The time at which a row of a day begins.
    Time,
    /// The day and the time under DEADLINE.
    Deadline,
    /// The day and the time under SCHEDULED.
    Scheduled,
    /// The priority of the cookie, the most urgent one first.
    Priority,
    /// The minutes of the property Effort.
    Effort,
    /// The keyword, as the file's setting lines have them one after the other.
    Keyword,
    /// The words of the title, whether letters are small or not.
    Title,
    /// The category.
    Category,
    /// The name of the file.
    File,
    /// The day and the time under CLOSED.
    Closed,
    /// How urgent a heading is that isn't done, the most urgent one first.
    Urgency,
}

impl SortKey {
    /// The key of a name.
    pub fn of_name(name: &str) -> Option<SortKey> {
        match name {
            "time" => Some(SortKey::Time),
            "deadline" => Some(SortKey::Deadline),
            "scheduled" => Some(SortKey::Scheduled),
            "priority" => Some(SortKey::Priority),
            "effort" => Some(SortKey::Effort),
            "keyword" => Some(SortKey::Keyword),
            "title" => Some(SortKey::Title),
            "category" => Some(SortKey::Category),
            "file" => Some(SortKey::File),
            "closed" => Some(SortKey::Closed),
            "urgency" => Some(SortKey::Urgency),
            _ => None,
        }
    }
}

/// A key, and whether larger values stand first.
#[derive(Clone, Copy, Debug, PartialEq, Eq)]
pub struct SortBy {
    pub key: SortKey,
    pub is_down: bool,
}

/// Where a row of a day or a list stands by some keys, on a day that is today; its heading is one of these files.
pub fn ranks_of(
    alloc: Global,
    inherits: &Inherits<'_>,
    row: &Row,
    keys: &[SortBy],
    today: Day,
) -> Result<Vec<Rank>, AllocError> {
    let mut ranks = Vec::new(alloc);
    let heading = Heading::find(inherits, row.file, row.heading);
    for by in keys {
        let rank = rank_of(alloc, row, &heading, *by, today)?;
        ranks.push(rank)?;
    }
    Ok(ranks)
}

fn rank_of(
    alloc: Global,
    row: &Row,
    heading: &Option<Heading<'_, '_>>,
    by: SortBy,
    today: Day,
) -> Result<Rank, AllocError> {
    let value = match heading {
        Some(heading) => value_of(alloc, row, heading, by.key, today)?,
        None => None,
    };
    Ok(Rank::of(value, by.is_down))
}

// What a row of a heading has for a key.
fn value_of(
    alloc: Global,
    row: &Row,
    heading: &Heading<'_, '_>,
    key: SortKey,
    today: Day,
) -> Result<Option<KeyValue>, AllocError> {
    match key {
        SortKey::Time => Ok(number(start_of(row))),
        SortKey::Title => title(alloc, heading),
        SortKey::Category => text(alloc, heading.category()),
        SortKey::File => text(alloc, heading.inherit.file()),
        _ => Ok(number(number_of(heading, key, today))),
    }
}

fn number(number: Option<u64>) -> Option<KeyValue> {
    match number {
        Some(number) => Some(KeyValue::Number(number)),
        None => None,
    }
}

fn text(alloc: Global, text: &[u8]) -> Result<Option<KeyValue>, AllocError> {
    Ok(Some(KeyValue::Text(Vec::from_slice(alloc, text)?)))
}

// The words of a title, of which letters that differ in case alone are equal.
fn title(alloc: Global, heading: &Heading<'_, '_>) -> Result<Option<KeyValue>, AllocError> {
    let words = title_words(alloc, heading.title())?;
    let folded = default_case_fold_str(alloc, text_of(words.as_slice()))?;
    Ok(Some(KeyValue::Text(folded.into_bytes())))
}

fn text_of(bytes: &[u8]) -> &str {
    str::from_utf8(bytes).unwrap_or("")
}

// The minute of the day at which a row begins.
fn start_of(row: &Row) -> Option<u64>
    ensures value { result ≡ row.now.start }
{
    match row.start {
        Some(time) => Some(u64::from(time.minutes())),
        None => None,
    }
}

// What a heading has for a key that is a number.
fn number_of(heading: &Heading<'_, '_>, key: SortKey, today: Day) -> Option<u64>
    ensures value { result ≡ number_in today key heading.now }
{
    match key {
        SortKey::Priority => priority_of(heading),
        SortKey::Effort => effort_of(heading.entry),
        SortKey::Keyword => keyword_of(heading),
        SortKey::Urgency => urgency(heading, today),
        _ => minute_under(&heading.entry.planning(), key),
    }
}

// The number of a cookie's priority.
fn priority_of(heading: &Heading<'_, '_>) -> Option<u64>
    ensures value { result ≡ priority_in heading.now }
{
    match heading.priority() {
        Some(_) => Some(u64::from(heading.priority_number())),
        None => None,
    }
}

/// The minutes of an effort.
pub(crate) fn effort_of(entry: &Entry) -> Option<u64>
    ensures value { result ≡ effort_in entry.now }
{
    match entry.details.property(b"Effort") {
        Some(text) => effort_minutes(text),
        None => None,
    }
}

// The place of a keyword among those of its file.
fn keyword_of(heading: &Heading<'_, '_>) -> Option<u64>
    ensures value { result ≡ keyword_place_in heading.now }
{
    match heading.keyword() {
        Some(word) => match heading.inherit.settings().keyword_place(word) {
            Some(place) => Some(place as u64),
            None => None,
        },
        None => None,
    }
}

// How much less urgent a heading is than the most urgent one could be; nothing where it is done.
fn urgency(heading: &Heading<'_, '_>, today: Day) -> Option<u64>
    ensures value { result ≡ urgency_in today heading.now }
{
    if heading.is_done() {
        return None;
    }
    let planning = heading.entry.planning();
    let deadline = day_under(&planning, SortKey::Deadline);
    let scheduled = day_under(&planning, SortKey::Scheduled);
    let urgency = urgency_of(today, deadline, scheduled, heading.priority_number());
    Some(u64::from(MOST_URGENT - urgency))
}

// The day under the planning keyword of a key.
fn day_under(planning: &Option<Planning>, key: SortKey) -> Option<Day>
    ensures value { result ≡ day_under key planning.now }
{
    match stamp_under(planning, key) {
        Some(stamp) => Some(stamp.day),
        None => None,
    }
}

// The minute under the planning keyword of a key; one without a time is the first of its day.
fn minute_under(planning: &Option<Planning>, key: SortKey) -> Option<u64>
    ensures value { result ≡ minute_under key planning.now }
{
    match stamp_under(planning, key) {
        Some(stamp) => Some(minute_of(&stamp)),
        None => None,
    }
}

fn minute_of(stamp: &Stamp) -> u64
    ensures value { result ≡ minute_of stamp.now }
{
    let minutes = match stamp.time {
        Some(time) => u64::from(time.minutes()),
        None => 0,
    };
    u64::from(stamp.day.number()) * MINUTES_PER_DAY + minutes
}

// The stamp under the planning keyword of a key.
fn stamp_under(planning: &Option<Planning>, key: SortKey) -> Option<Stamp>
    ensures value { result ≡ stamp_under key planning.now }
{
    let Some(planning) = planning else {
        return None;
    };
    let found = match key {
        SortKey::Deadline => planning.deadline,
        SortKey::Scheduled => planning.scheduled,
        SortKey::Closed => planning.closed,
        _ => None,
    };
    match found {
        Some((stamp, _)) => Some(stamp),
        None => None,
    }
}

//! What rows of a day in sections say.

use crate::labels::push_shown;
use crate::link_words::push_link_words;
use org_agenda::{Row, RowKind};
use org_base::{Fault, Texts};
use org_cal::{Day, day_name, push_date};
use org_client::{KeptHeadings, short_month};
use org_day::{KeywordKind, Words};
use org_drawer::effort_minutes;
use org_inherit::Heading;
use org_settings::Settings;
use std::alloc::{AllocError, Global};

/// What a row says on a day.
pub(crate) fn row_words(
    alloc: Global,
    titles: &KeptHeadings<'_, '_>,
    row: &Row,
    day: Day,
) -> Result<Words, Fault> {
    let mut words = Words::new(alloc);
    let Some(heading) = Heading::find(titles.inherits(), row.file, row.heading) else {
        return Ok(words);
    };
    put_head(alloc, &mut words, &heading)?;
    push_title(alloc, &mut words.title, titles, row.file, row.heading)?;
    if let Some(above) = heading.inherit.outline().parent(heading.place) {
        push_title(alloc, &mut words.path, titles, row.file, above)?;
    }
    let tags = heading.tags()?;
    push_tags(&mut words.tags, &tags, heading.category())?;
    if row.kind == RowKind::Warning {
        push_near(&mut words.date, day, row.number)?;
    }
    Ok(words)
}

// Puts the category, the keyword, the priority and the effort.
fn put_head(alloc: Global, words: &mut Words, heading: &Heading<'_, '_>) -> Result<(), AllocError> {
    push_shown(&mut words.category, heading.category())?;
    words.is_done = heading.is_done();
    if let Some(keyword) = heading.keyword() {
        push_shown(&mut words.keyword, keyword)?;
        words.keyword_kind = kind_of_keyword(heading.inherit.settings(), keyword);
    }
    if let Some(priority) = heading.priority() {
        push_shown(&mut words.priority, priority)?;
    }
    let Some(effort) = heading.entry.details.property(b"Effort") else {
        return Ok(());
    };
    if let Some(minutes) = effort_minutes(effort) {
        let (hours, minutes) = (minutes / 60, minutes % 60);
        words.effort = format!(in alloc; "{hours}:{minutes:02}")?;
    }
    Ok(())
}

// The keywords of what is worked at.
const NOW: [&[u8]; 3] = [b"NEXT", b"STARTED", b"DOING"];

fn kind_of_keyword(settings: &Settings, keyword: &[u8]) -> KeywordKind {
    for word in NOW.iter() {
        if keyword == *word {
            return KeywordKind::Now;
        }
    }
    match settings.keyword_place(keyword) {
        Some(place) if settings.first_of_sequence(place) == place => KeywordKind::First,
        _ => KeywordKind::Other,
    }
}

// Appends the title of a heading without its active stamps, and of each link its description.
fn push_title(
    alloc: Global,
    out: &mut String,
    titles: &KeptHeadings<'_, '_>,
    file: usize,
    heading: usize,
) -> Result<(), AllocError> {
    let title = titles.words(alloc, file, heading)?;
    let mut words = String::new(alloc);
    push_link_words(&mut words, str::from_utf8(title.as_slice()).unwrap_or(""))?;
    push_shown(out, words.as_bytes())
}

// Appends tags with a space between any two, but for one that the category says.
fn push_tags(out: &mut String, tags: &Texts, category: &[u8]) -> Result<(), AllocError> {
    for place in 0..tags.count() {
        let tag = tags.get(place);
        if tag != category {
            if !out.is_empty() {
                out.push(' ')?;
            }
            push_shown(out, tag)?;
        }
    }
    Ok(())
}

// The days within which a day is called by its weekday.
const NEAR: u32 = 300;

// Appends what a day is called that is so many days ahead: tomorrow, its weekday with its date, or its date with the year.
fn push_near(out: &mut String, today: Day, ahead: u32) -> Result<(), AllocError> {
    let number = u64::from(today.number()) + u64::from(ahead);
    let Some(day) = Day::of_number(number) else {
        return Ok(());
    };
    match ahead {
        0 => out.push_str("today"),
        1 => out.push_str("tomorrow"),
        _ if ahead <= NEAR => {
            let (_, month, of_month) = day.parts();
            write!(out, "{} {of_month} {}", day_name(day), short_month(month))
        }
        _ => push_date(out, day),
    }
}

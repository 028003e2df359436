//! What is said of a row: its sign, its time, its keyword, its priority and its title.
ghost use Rattle.std.specs.Prelude.{◌∷◌, []};
ghost use Rattle.org_page.specs.Drafts.{AddsTitles, KeepsTitles};
ghost use Rattle.org_page.specs.Rows.{row_title};

use crate::draft::Lent::{Pair, Tag, Text, With};
use crate::draft::{Draft, time_text, with};
use crate::row::{Row, Stand};
use std::alloc::AllocError;

/// Puts a row's keyword, its priority and its title.
pub(crate) fn put_heading(draft: &mut Draft, row: &Row) -> Result<(), AllocError>
    ensures titles { AddsTitles result draft.old draft.new (row_title row.now ∷ []) }
{
    put_keyword(draft, row.keyword.as_str())?;
    put_priority(draft, row.priority.as_str())?;
    put_title(draft, row)
}

/// Puts a row's title.
pub(crate) fn put_title(draft: &mut Draft, row: &Row) -> Result<(), AllocError>
    ensures titles { AddsTitles result draft.old draft.new (row_title row.now ∷ []) }
{
    draft.title(row.words.as_str(), row.link.as_str(), row.is_done)
}

fn put_keyword(draft: &mut Draft, keyword: &str) -> Result<(), AllocError>
    ensures titles { KeepsTitles result draft.old draft.new }
{
    if keyword.is_empty() {
        return Ok(());
    }
    draft.put(&[
        With("span", "class", "word"),
        Text(keyword),
        Tag("/span"),
        Text(" "),
    ])
}

fn put_priority(draft: &mut Draft, priority: &str) -> Result<(), AllocError>
    ensures titles { KeepsTitles result draft.old draft.new }
{
    if priority.is_empty() {
        return Ok(());
    }
    draft.put(&[
        With("span", "class", "cookie"),
        With("span", "class", "hidden"),
        Text("priority "),
        Tag("/span"),
        Text(priority),
        Tag("/span"),
        Text(" "),
    ])
}

/// Puts the tags of a row's heading, behind a space.
pub(crate) fn put_tags(draft: &mut Draft, row: &Row) -> Result<(), AllocError>
    ensures titles { KeepsTitles result draft.old draft.new }
{
    if row.tags.as_str().is_empty() {
        return Ok(());
    }
    draft.put(&[
        Text(" "),
        With("span", "class", "tags"),
        Text(row.tags.as_str()),
        Tag("/span"),
    ])
}

/// Puts the sign of what is due or planned, for the eye, and its word, for the ear; each with a space behind it.
pub(crate) fn put_sign(draft: &mut Draft, row: &Row) -> Result<(), AllocError>
    ensures titles { KeepsTitles result draft.old draft.new }
{
    let (sign, word) = match (row.stand, row.is_done) {
        (Stand::Due, false) => ("!", "due "),
        (Stand::Due, true) => ("✓", "due "),
        (Stand::Planned, false) => ("□", "planned "),
        (Stand::Planned, true) => ("✓", "planned "),
        _ => return Ok(()),
    };
    draft.put(&[
        Pair("span", with("class", "sign"), with("aria-hidden", "true")),
        Text(sign),
        Tag("/span"),
        Text(" "),
        With("span", "class", "hidden"),
        Text(word),
        Tag("/span"),
    ])
}

/// Puts the time at which a row begins, if it has one, with a space behind it.
pub(crate) fn put_start(draft: &mut Draft, row: &Row) -> Result<(), AllocError>
    ensures titles { KeepsTitles result draft.old draft.new }
{
    let Some(hours) = row.time else {
        return Ok(());
    };
    put_time_begin(draft, hours.start)?;
    draft.put(&[Tag("/time"), Text(" ")])
}

/// Begins a time with the minute of a day.
pub(crate) fn put_time_begin(draft: &mut Draft, minute: u16) -> Result<(), AllocError>
    ensures titles { KeepsTitles result draft.old draft.new }
{
    let time = time_text(draft.alloc(), minute)?;
    draft.put(&[With("time", "datetime", time.as_str()), Text(time.as_str())])
}

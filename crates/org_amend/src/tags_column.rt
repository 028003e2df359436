//! How many spaces stand before the tags of a heading line, and before the value of a property.
ghost use Rattle.std.specs.Prelude.{◌≡◌, ◌≤◌, chars};
ghost use Rattle.org_amend.specs.TagsColumn.{capped, column_after, columns_from, columns_of, or_one, spaces_before, spaces_behind};

use std::str;
use unicode_width::UnicodeWidthChar;

/// How many columns a heading line has with its tags, where there is room: Org's `org-tags-column`, -77, where nothing else is set.
pub const TAGS_COLUMN: usize = 77;

// How many columns a property's name and the spaces behind it have, without the colons: `org-property-format` of Org.
const VALUE_COLUMN: usize = 9;

// How many spaces stand between what is before tags and the tags: so many that these end in their column, but at least one.
pub(crate) fn spaces_before(front: &[u8], tags: &[u8]) -> usize
    ensures value { result ≡ spaces_before front.now tags.now }
    ensures at_most { result ≤ 77 }
{
    or_one(
        TAGS_COLUMN
            .saturating_sub(columns_of(tags))
            .saturating_sub(columns_of(front)),
    )
}

// How many spaces stand between a property's name and its value, so that this begins in column 11, but at least one.
pub(crate) fn spaces_behind(name: &[u8]) -> usize
    ensures value { result ≡ spaces_behind name.now }
    ensures at_most { result ≤ 77 }
{
    or_one(VALUE_COLUMN.saturating_sub(columns_of(name)))
}

fn or_one(room: usize) -> usize
    requires at_most { room ≤ 77 }
    ensures value { result ≡ or_one room }
    ensures at_most { result ≤ 77 }
{
    if room == 0 { 1 } else { room }
}

// How many columns bytes take, at most those up to the one in which tags end.
fn columns_of(bytes: &[u8]) -> usize
    ensures value { result ≡ columns_of bytes.now }
{
    match str::from_utf8(bytes) {
        Ok(text) => text_columns(text),
        Err(_) => 0,
    }
}

// The same of a text.
fn text_columns(text: &str) -> usize
    ensures value { result ≡ columns_from 0 (chars text.now) }
{
    let mut column = 0;
    for c in text.chars() {
        column = column_after(column, c);
    }
    column
}

// The column behind a character that stands in another one. A tab goes on to the next eighth.
fn column_after(column: usize, c: char) -> usize
    requires at_most { column ≤ 77 }
    ensures value { result ≡ column_after column c }
    ensures at_most { result ≤ 77 }
{
    if c == '\t' {
        cap_column((column / 8 + 1) * 8)
    } else {
        cap_column(column + c.width().unwrap_or(0))
    }
}

fn cap_column(column: usize) -> usize
    ensures value { result ≡ capped column }
    ensures at_most { result ≤ 77 }
{
    if column > TAGS_COLUMN {
        TAGS_COLUMN
    } else {
        column
    }
}

//! Lists of what is late and of what is due soon.
ghost use Rattle.org_page.specs.Drafts.{AddsTitles, KeepsTitles};
ghost use Rattle.org_page.specs.Rows.{row_title, rows_titles};
ghost use Rattle.std.specs.Prelude.{◌∷◌, []};

use crate::draft::Lent::{Number, Pair, Tag, Text, With};
use crate::draft::{Draft, Given, Lent, Value};
use crate::heading::{put_heading, put_tags};
use crate::row::{Row, Stand};
use crate::rows::{Form, put_rows};
use std::alloc::AllocError;

/// Which list of rows of today.
#[derive(Clone, Copy, PartialEq, Eq)]
pub(crate) enum List {
    Late,
    Soon,
}

impl List {
    // Its id and class, its name, and the head of its numbers.
    fn names(self) -> (&'static str, &'static str, &'static str) {
        match self {
            List::Late => ("late", "Late", "Since"),
            List::Soon => ("soon", "Due soon", "In"),
        }
    }
}

/// Puts a list of rows as a table, if there are any.
pub(crate) fn put_list(draft: &mut Draft, rows: &[Row], list: List) -> Result<(), AllocError>
    ensures titles { AddsTitles result draft.old draft.new (rows_titles rows.now) }
{
    if rows.is_empty() {
        return Ok(());
    }
    put_list_head(draft, list)?;
    put_rows(draft, rows, Form::Table)?;
    draft.put(&[Tag("/tbody"), Tag("/table"), Tag("/section")])
}

fn put_list_head(draft: &mut Draft, list: List) -> Result<(), AllocError>
    ensures titles { KeepsTitles result draft.old draft.new }
{
    let (id, name, head) = list.names();
    draft.put(&[
        With("section", "class", id),
        With("h2", "id", id),
        Text(name),
        Tag("/h2"),
        With("table", "class", "list"),
        Tag("thead"),
        Tag("tr"),
        NUMBER_HEAD,
        Text(head),
        Tag("/th"),
        With("th", "scope", "col"),
        Text("Heading"),
        Tag("/th"),
        With("th", "scope", "col"),
        Text("Where"),
        Tag("/th"),
        Tag("/tr"),
        Tag("/thead"),
        Tag("tbody"),
    ])
}

/// The tag of the head of a column of numbers.
pub(crate) const NUMBER_HEAD: Lent<'static> = Pair(
    "th",
    Given {
        name: "scope",
        value: Value::Plain("col"),
    },
    Given {
        name: "class",
        value: Value::Plain("number"),
    },
);

/// Puts a row of a table.
pub(crate) fn put_row(draft: &mut Draft, row: &Row) -> Result<(), AllocError>
    ensures titles { AddsTitles result draft.old draft.new (row_title row.now ∷ []) }
{
    put_days(draft, row.stand)?;
    put_heading(draft, row)?;
    put_tags(draft, row)?;
    put_row_end(draft, row)
}

// Begins a row with its days, and the cell of its heading.
fn put_days(draft: &mut Draft, stand: Stand) -> Result<(), AllocError>
    ensures titles { KeepsTitles result draft.old draft.new }
{
    let days = match stand {
        Stand::Late(days) | Stand::Soon(days) => days,
        Stand::Own | Stand::Due | Stand::Planned | Stand::Range(..) => 0,
    };
    draft.put(&[
        Tag("tr"),
        With("td", "class", "number"),
        Number(u64::from(days)),
        Text(" d."),
        Tag("/td"),
        Tag("td"),
    ])
}

/// Ends a cell, puts one that says where a row's heading stands and leads there, and ends the row.
pub(crate) fn put_row_end(draft: &mut Draft, row: &Row) -> Result<(), AllocError>
    ensures titles { KeepsTitles result draft.old draft.new }
{
    draft.put(&[
        Tag("/td"),
        With("td", "class", "where"),
        With("a", "href", row.link.as_str()),
        Text(row.place.as_str()),
        Tag("/a"),
        Tag("/td"),
        Tag("/tr"),
    ])
}

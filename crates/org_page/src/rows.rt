//! Rows one after the other, in the form of the part of the page in which they stand.
ghost use Rattle.std.specs.Prelude.{◌∷◌, []};
ghost use Rattle.org_page.specs.Drafts.{AddsTitles};
ghost use Rattle.org_page.specs.Rows.{row_title, rows_titles};

use crate::bars::{Bars, put_range};
use crate::draft::{Draft, Lent};
use crate::row::Row;
use crate::{coming, list, month, today};
use std::alloc::AllocError;

/// How rows are shown: as those of today, of a day that comes, of a day of the month or of a table, or as days of ranges in a
/// column of a week, with its bars.
#[derive(Clone, Copy)]
pub(crate) enum Form<'a> {
    Today,
    Coming,
    Month,
    Table,
    Range(&'a Bars, usize),
}

/// Puts rows as a list that begins with a tag, if there are any.
pub(crate) fn put_listed(
    draft: &mut Draft,
    begin: Lent<'_>,
    rows: &[Row],
    form: Form<'_>,
) -> Result<(), AllocError>
    ensures titles { AddsTitles result draft.old draft.new (rows_titles rows.now) }
{
    if rows.is_empty() {
        return Ok(());
    }
    draft.put(&[begin])?;
    put_rows(draft, rows, form)?;
    draft.put(&[Lent::Tag("/ul")])
}

/// Puts rows.
pub(crate) fn put_rows(draft: &mut Draft, rows: &[Row], form: Form<'_>) -> Result<(), AllocError>
    ensures titles { AddsTitles result draft.old draft.new (rows_titles rows.now) }
{
    for row in rows {
        put_row(draft, row, form)?;
    }
    Ok(())
}

fn put_row(draft: &mut Draft, row: &Row, form: Form<'_>) -> Result<(), AllocError>
    ensures titles { AddsTitles result draft.old draft.new (row_title row.now ∷ []) }
{
    match form {
        Form::Today => today::put_row(draft, row),
        Form::Coming => coming::put_row(draft, row),
        Form::Month => month::put_row(draft, row),
        Form::Table => list::put_row(draft, row),
        Form::Range(bars, column) => put_range(draft, row, bars, column),
    }
}

//! The rows of an answer in an order of one's own.
ghost use Rattle.std.specs.Prelude.{◌≡◌, map, IfOk, OnOk};
ghost use Rattle.std.specs.List.Sorted.{IsPermutation};
ghost use Rattle.org_base.specs.Results.{Adds};
ghost use Rattle.org_answer.specs.Arranged.{AddsInOrder, ranked_line};

use crate::view::Answer;
use org_base::Fault;
use org_cal::Day;
use org_client::{GroupBy, SortBy, ranks_of};
use org_inherit::Inherits;
use org_layout::{Line, ShownRow};
use org_order::{RankedRow, put_in_order};
use std::alloc::{AllocError, Global};

/// How the rows of an answer stand: by which keys, the first one first, and in which groups; on a day that is today.
#[derive(Clone, Copy, Debug)]
pub struct Arrangement<'a> {
    pub keys: &'a [SortBy],
    pub by: Option<GroupBy>,
    pub today: Day,
}

/// An answer whose rows stand by some keys, those of each day by themselves. Rows that lack a key stand behind those that have
/// it, and rows that are equal stand as they stood.
pub fn arrange(
    alloc: Global,
    inherits: &Inherits<'_>,
    answer: &Answer,
    arrangement: &Arrangement<'_>,
) -> Result<Answer, Fault>
    ensures same { IfOk result (λ arranged. IsPermutation answer.now.lines.items arranged.lines.items) }
{
    let lines = sorted_lines(alloc, inherits, answer.lines.as_slice(), arrangement)?;
    Ok(Answer {
        lines,
        with_effort: answer.with_effort,
    })
}

// Lines with the rows between any two that are no rows in order.
fn sorted_lines(
    alloc: Global,
    inherits: &Inherits<'_>,
    lines: &[Line],
    arrangement: &Arrangement<'_>,
) -> Result<Vec<Line>, AllocError>
    ensures same { IfOk result (λ out. IsPermutation lines.now out.items) }
{
    let mut out = Vec::new(alloc);
    let mut rows = Vec::new(alloc);
    for line in lines {
        match line {
            Line::Row(shown) => rows.push(*shown)?,
            Line::Day(_) | Line::Step(..) | Line::Table(_) => {
                push_sorted(alloc, inherits, &mut out, rows.as_slice(), arrangement)?;
                rows.clear();
                out.push(*line)?;
            }
        }
    }
    push_sorted(alloc, inherits, &mut out, rows.as_slice(), arrangement)?;
    Ok(out)
}

// Appends rows in order.
#[tactic(auto, using(crate::proofs::ArrangedLemmas::in_order))]
fn push_sorted(
    alloc: Global,
    inherits: &Inherits<'_>,
    out: &mut Vec<Line>,
    rows: &[ShownRow],
    arrangement: &Arrangement<'_>,
) -> Result<(), AllocError>
    ensures same { OnOk result (AddsInOrder out.old.items out.new.items rows.now) }
{
    let mut ranked = ranked_rows(alloc, inherits, rows, arrangement)?;
    put_in_order(&mut ranked)?;
    push_rows(out, ranked.as_slice())
}

// Rows with where they stand.
fn ranked_rows(
    alloc: Global,
    inherits: &Inherits<'_>,
    rows: &[ShownRow],
    arrangement: &Arrangement<'_>,
) -> Result<Vec<RankedRow<ShownRow>>, AllocError>
    ensures rows { IfOk result (λ ranked. map (λ r. r.row) ranked.items ≡ rows.now) }
{
    let mut ranked = Vec::new(alloc);
    for shown in rows {
        let ranks = ranks_of(
            alloc,
            inherits,
            &shown.row,
            arrangement.keys,
            arrangement.today,
        )?;
        ranked.push(RankedRow { ranks, row: *shown })?;
    }
    Ok(ranked)
}

// Appends the lines of rows.
fn push_rows(out: &mut Vec<Line>, ranked: &[RankedRow<ShownRow>]) -> Result<(), AllocError>
    ensures value { Adds result out.old out.new (map ranked_line ranked.now) }
{
    for row in ranked {
        out.push(Line::Row(row.row))?;
    }
    Ok(())
}

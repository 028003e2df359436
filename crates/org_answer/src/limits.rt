//! The first rows of an answer.
ghost use Rattle.std.specs.Prelude.{◌≡◌, ◌≤◌};
ghost use Rattle.org_answer.specs.Limits.{first_of, first_rows, is_row, left_after};

use org_layout::Line;

/// The lines up to the last of so many rows; all of them where there are no more, or where no number is named.
pub fn lines_within(lines: &[Line], limit: Option<u32>) -> &[Line]
    ensures value { result.now ≡ first_of limit lines.now }
{
    match limit {
        Some(rows) => first_rows(lines, rows),
        None => lines,
    }
}

#[tactic(auto, using(crate::proofs::LimitLemmas::first_more, crate::proofs::LimitLemmas::first_none, crate::proofs::LimitLemmas::first_past))]
fn first_rows(lines: &[Line], rows: u32) -> &[Line]
    ensures value { result.now ≡ first_rows rows lines.now }
{
    let mut left = rows;
    for (place, line) in lines.iter().enumerate() {
        if left == 0 {
            return &lines[..place];
        }
        left = left_after(left, line);
    }
    lines
}

// How many rows are left to be shown after a line.
pub(crate) fn left_after(left: u32, line: &Line) -> u32
    requires some { 1 ≤ left }
    ensures value { result ≡ left_after left line.now }
{
    if is_row(line) { left - 1 } else { left }
}

/// Whether a line stands for a row, and not for a day or the days of a table.
pub(crate) fn is_row(line: &Line) -> bool
    ensures value { result ≡ is_row line.now }
{
    match line {
        Line::Day(_) | Line::Step(..) => false,
        Line::Row(_) | Line::Table(_) => true,
    }
}

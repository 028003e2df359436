//! Rows that are chosen and arranged.
ghost use Rattle.org_client.specs.Files.{AreRead};

use org_agenda::Row;
use org_answer::{Answer, Arrangement, GroupedLines, arrange, arranged_lines};
use org_base::Fault;
use org_cal::Moment;
use org_client::{Efforts, matching_rows, rows_of_efforts};
use org_inherit::Inherits;
use org_layout::list_lines;
use org_match::Match;
use std::alloc::Global;

/// Which rows are shown, those whose headings meet these expressions at a moment and have the efforts, and how they are arranged.
#[derive(Clone, Copy, Debug)]
pub struct Picked<'a> {
    pub expressions: &'a [Match],
    pub efforts: Option<Efforts>,
    pub moment: Moment,
    pub arrangement: Arrangement<'a>,
}

/// Those of some rows that are picked, as they are arranged.
pub fn picked_lines(
    alloc: Global,
    inherits: &Inherits<'_>,
    rows: Vec<Row>,
    picked: &Picked<'_>,
) -> Result<GroupedLines, Fault> {
    let some = matching_rows(alloc, inherits, rows, picked.expressions, &picked.moment)?;
    let some = rows_of_efforts(alloc, inherits, some, picked.efforts)?;
    let answer = sorted_answer(alloc, inherits, some.as_slice(), &picked.arrangement)?;
    arranged_lines(alloc, inherits, &answer, &picked.arrangement)
}

fn sorted_answer(
    alloc: Global,
    inherits: &Inherits<'_>,
    rows: &[Row],
    arrangement: &Arrangement<'_>,
) -> Result<Answer, Fault> {
    let answer = Answer {
        lines: list_lines(alloc, rows)?,
        with_effort: false,
    };
    if arrangement.keys.is_empty() {
        return Ok(answer);
    }
    arrange(alloc, inherits, &answer, arrangement)
}

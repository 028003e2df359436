//! Clock tables, line by line.
ghost use Rattle.std.specs.Prelude.{◌≤◌, length};
ghost use Rattle.org_base.specs.Results.{GivesItems};
ghost use Rattle.org_base.specs.declared.limits.TheConstants.{MOST_FILES};
ghost use Rattle.org_cal.specs.Periods.{days_of};
ghost use Rattle.org_client.specs.Files.{AreRead};
ghost use Rattle.org_answer.specs.Tables.{ShowsTable, lines_of_steps};

use crate::view::Answer;
use org_base::Fault;
use org_cal::{Moment, Period};
use org_clocktable::{CountedFile, TableSpec, counted_files, step_rows};
use org_inherit::Inherits;
use org_layout::{Line, TableStep, push_step_lines};
use std::alloc::Global;

/// The clock table that options ask for, over these days.
pub(crate) fn clock_table(
    alloc: Global,
    inherits: &Inherits<'_>,
    spec: &TableSpec<'_>,
    period: &Period,
    moment: Moment,
) -> Result<Answer, Fault>
    requires read { AreRead inherits.now }
    ensures value { ShowsTable result spec.now inherits.now (days_of period.now) moment }
{
    let files = counted_files(alloc, inherits, spec.expression(), &moment)?;
    Ok(Answer {
        lines: table_lines(alloc, files.as_slice(), spec, period)?,
        with_effort: spec.with_effort(),
    })
}

// The lines of each step into which days are cut.
#[tactic(auto, unfolding(crate::specs::Tables::step_stands))]
fn table_lines(
    alloc: Global,
    files: &[CountedFile<'_>],
    spec: &TableSpec<'_>,
    period: &Period,
) -> Result<Vec<Line>, Fault>
    requires at_most { length files.now ≤ MOST_FILES }
    ensures value { GivesItems result (lines_of_steps spec.now files.now (days_of period.now)) }
{
    let mut lines = Vec::new(alloc);
    for period in period.steps(spec.step()) {
        let rows = step_rows(alloc, &period, spec.most(), files)?;
        let step = TableStep {
            period: &period,
            rows: rows.as_slice(),
        };
        push_step_lines(&mut lines, &step)?;
    }
    Ok(lines)
}

//! Clock tables as bars.
ghost use Rattle.std.specs.Prelude.{◌≤◌, length};
ghost use Rattle.org_base.specs.declared.limits.TheConstants.{MOST_FILES};
ghost use Rattle.org_client.specs.Files.{AreRead};

use crate::picture::Picture;
use crate::query::ClockQuery;
use org_base::{Fault, MOST_FILES};
use org_cal::{Moment, Period, Step, day_name, push_date};
use org_client::{bar_eighths, hundredths, part_lengths};
use org_clocktable::{CountedFile, Of, TableRow, counted_files, step_rows};
use org_inherit::Inherits;
use org_layout::{Line, LineTexts};
use org_look::{Sheet, Tone};
use std::alloc::{AllocError, Global};

// How many columns the longest bar takes.
const ROOM: u16 = 40;

// What a bar has past its last whole column, in eighths.
const EIGHTHS: [&str; 8] = ["", "▏", "▎", "▍", "▌", "▋", "▊", "▉"];

// The signs of files in a stacked bar, in the order of the files; from the fifth file on they come again.
const SHADES: [&str; 4] = ["█", "▓", "▒", "░"];

/// The clock table that is asked for, as bars. Without steps each row has its part of the total and a bar in front. With steps
/// each step has a line, whose bar is stacked by files, and the rows of the files stand below.
pub fn clock_picture(
    alloc: Global,
    inherits: &Inherits<'_>,
    query: &ClockQuery<'_>,
    moment: Moment,
) -> Result<Picture, Fault>
    requires read { AreRead inherits.now }
{
    let spec = query.spec(alloc, moment.day)?;
    let files = counted_files(alloc, inherits, spec.expression(), &moment)?;
    let chart = Chart {
        period: query.period,
        step: spec.step(),
        most: spec.most(),
        with_effort: spec.with_effort(),
    };
    drawn(alloc, inherits, files.as_slice(), &chart)
}

// What a chart shows: its days, how they are cut, the deepest level, and whether effort sums stand beside those of clocks.
#[derive(Clone, Copy)]
struct Chart {
    period: Period,
    step: Step,
    most: u32,
    with_effort: bool,
}

// What stands in front of each row of a table.
#[derive(Clone, Copy)]
enum Front {
    // Its part of the total, and a bar.
    Part,
    // The sign of its file.
    Sign,
}

fn drawn(
    alloc: Global,
    inherits: &Inherits<'_>,
    files: &[CountedFile<'_>],
    chart: &Chart,
) -> Result<Picture, Fault>
    requires at_most { length files.now ≤ MOST_FILES }
{
    let rows = step_rows(alloc, &chart.period, chart.most, files)?;
    let mut sheet = Sheet::new(alloc);
    match chart.step {
        Step::Whole => push_table(&mut sheet, inherits, chart, rows.as_slice(), Front::Part)?,
        Step::Day | Step::Week => {
            push_steps(alloc, &mut sheet, files, chart)?;
            let of_files = without_headings(alloc, rows.as_slice())?;
            push_table(
                &mut sheet,
                inherits,
                chart,
                of_files.as_slice(),
                Front::Sign,
            )?;
        }
    }
    let has_row = !rows.is_empty();
    Ok(Picture { sheet, has_row })
}

// Appends the days of a table, and its rows with something in front.
fn push_table(
    out: &mut Sheet,
    inherits: &Inherits<'_>,
    chart: &Chart,
    rows: &[TableRow],
    front: Front,
) -> Result<(), Fault> {
    let first = out.text.len();
    push_days(&mut out.text, Step::Whole, &chart.period)?;
    end_step(out, first)?;
    let total = rows.first().map_or(0, |row| row.clock);
    let mut texts = LineTexts::of(out.alloc(), inherits, &[])?;
    for row in rows {
        push_front(&mut out.text, front, row, total)?;
        texts.push(&mut out.text, chart.with_effort, &Line::Table(*row))?;
    }
    Ok(())
}

fn push_front(
    out: &mut String,
    front: Front,
    row: &TableRow,
    total: u64,
) -> Result<(), AllocError> {
    match front {
        Front::Part => push_part(out, row.clock, total),
        Front::Sign => {
            push_signs(out, sign_of(row.of), 2)?;
            out.push(' ')
        }
    }
}

// Appends a part of the total, in hundredths and as a bar.
fn push_part(out: &mut String, minutes: u64, total: u64) -> Result<(), AllocError> {
    let part = hundredths(minutes, total);
    write!(out, "{part:>3}% ")?;
    let eighths = bar_eighths(minutes, total, ROOM);
    push_signs(out, SHADES[0], eighths / 8)?;
    let rest = EIGHTHS[(eighths % 8) as usize];
    out.push_str(rest)?;
    let taken = eighths.div_ceil(8);
    push_signs(out, " ", u32::from(ROOM).saturating_sub(taken) + 1)
}

fn push_signs(out: &mut String, sign: &str, count: u32) -> Result<(), AllocError> {
    for _ in 0..count {
        out.push_str(sign)?;
    }
    Ok(())
}

// What the files have in a step of a table.
#[derive(Drop)]
struct StepSums {
    period: Period,
    total: u64,
    by_file: Vec<u64>,
}

// Appends a line for each step.
fn push_steps(
    alloc: Global,
    out: &mut Sheet,
    files: &[CountedFile<'_>],
    chart: &Chart,
) -> Result<(), Fault>
    requires at_most { length files.now ≤ MOST_FILES }
{
    let steps = all_sums(alloc, files, chart)?;
    let most = greatest(steps.as_slice());
    for step in &steps {
        push_step(alloc, out, chart.step, step, most)?;
    }
    Ok(())
}

fn greatest(steps: &[StepSums]) -> u64 {
    let mut most = 0;
    for step in steps {
        most = step.total.max(most);
    }
    most
}

fn all_sums(alloc: Global, files: &[CountedFile<'_>], chart: &Chart) -> Result<Vec<StepSums>, Fault>
    requires at_most { length files.now ≤ MOST_FILES }
{
    let mut steps = Vec::new(alloc);
    for period in chart.period.steps(chart.step) {
        let step = step_sums(alloc, files, chart.most, period)?;
        steps.push(step)?;
    }
    Ok(steps)
}

fn step_sums(
    alloc: Global,
    files: &[CountedFile<'_>],
    most: u32,
    period: Period,
) -> Result<StepSums, Fault>
    requires at_most { length files.now ≤ MOST_FILES }
{
    let rows = step_rows(alloc, &period, most, files)?;
    let by_file = file_sums(alloc, files.len(), rows.as_slice())?;
    let total = rows.as_slice().first().map_or(0, |row| row.clock);
    Ok(StepSums {
        period,
        total,
        by_file,
    })
}

// The sum of each of so many files, by the rows of a table.
fn file_sums(alloc: Global, count: usize, rows: &[TableRow]) -> Result<Vec<u64>, AllocError> {
    let mut sums = Vec::with_capacity(alloc, count)?;
    for _file in 0..count {
        sums.push(0)?;
    }
    for row in rows {
        if let Of::File(file) = row.of {
            if file < sums.len() {
                sums[file] = row.clock;
            }
        }
    }
    Ok(sums)
}

// Appends the line of a step: its days, its sum, and a bar of its files' parts.
fn push_step(
    alloc: Global,
    out: &mut Sheet,
    step: Step,
    sums: &StepSums,
    most: u64,
) -> Result<(), AllocError> {
    let first = out.text.len();
    push_days(&mut out.text, step, &sums.period)?;
    let (hours, minutes) = (sums.total / 60, sums.total % 60);
    write!(out.text, "{hours:>5}:{minutes:02}")?;
    push_stacked(alloc, &mut out.text, sums.by_file.as_slice(), most)?;
    end_step(out, first)
}

// Ends the line of a step, which begins at a byte and stands out.
fn end_step(out: &mut Sheet, first: usize) -> Result<(), AllocError> {
    out.stain(first, Tone::Strong)?;
    out.text.push('\n')
}

// Appends a stacked bar after two spaces, if it is a column long.
fn push_stacked(
    alloc: Global,
    out: &mut String,
    by_file: &[u64],
    most: u64,
) -> Result<(), AllocError> {
    let lengths = part_lengths(alloc, by_file, most, ROOM)?;
    if lengths.iter().all(|length| *length == 0) {
        return Ok(());
    }
    out.push_str("  ")?;
    for (file, length) in lengths.iter().enumerate() {
        push_signs(out, SHADES[file % 4], *length)?;
    }
    Ok(())
}

// Appends the day of a step, with its name, or the first and the last day of a week.
fn push_days(out: &mut String, step: Step, period: &Period) -> Result<(), AllocError> {
    push_date(out, period.first)?;
    out.push(' ')?;
    match step {
        Step::Day => out.push_str(day_name(period.first))?,
        Step::Whole | Step::Week => push_date(out, period.last)?,
    }
    Ok(())
}

// The rows of the total and of the files.
fn without_headings(alloc: Global, rows: &[TableRow]) -> Result<Vec<TableRow>, AllocError> {
    let mut kept = Vec::new(alloc);
    for row in rows {
        if !matches!(row.of, Of::Heading(..)) {
            kept.push(*row)?;
        }
    }
    Ok(kept)
}

fn sign_of(of: Of) -> &'static str {
    match of {
        Of::File(file) => SHADES[file % 4],
        Of::All | Of::Heading(..) => " ",
    }
}

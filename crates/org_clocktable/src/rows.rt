//! The rows of a clock table.
ghost use Rattle.std.specs.Prelude.{◌≡◌, ◌<◌, ◌≤◌, ◌^◌, length, reverse, IfOk, IsOkUnless};
ghost use Rattle.org_base.specs.Codes.{memory_fault};
ghost use Rattle.org_base.specs.Results.{Adds, Gives, GivesItems};
ghost use Rattle.org_base.specs.declared.limits.TheConstants.{MOST_FILES};
ghost use Rattle.org_cal.specs.Periods.{days_of};
ghost use Rattle.org_clocktable.specs.Clocked.{AreOf, IsHeadingOrEnd, IsLastClocked};
ghost use Rattle.org_clocktable.specs.Counted.{file_sum, total};
ghost use Rattle.org_clocktable.specs.RunningSums.{IsLater};
ghost use Rattle.org_clocktable.specs.Table.{entry_rows, files_rows, heading_lines, line_at, lines_of, step_rows};
ghost use Rattle.org_sum.specs.Measures.{clock_minutes, effort_minutes};

use crate::counted::CountedFile;
use crate::row::{Of, TableRow};
use crate::running_sums::RunningSums;
use org_base::Fault;
use org_cal::Period;
use org_entry::Entry;
use std::alloc::{AllocError, Global};

/// The rows of a clock table over a period (Org manual 9.6, "The clock table"): the total; then each file with clocks
/// in the period, followed by its headings of at most this level that have some. They are at most as many files as an
/// engine has. Each clock is looked at once, and then only headings with minutes in the period, their own or below
/// them.
pub fn step_rows(
    alloc: Global,
    period: &Period,
    most: u32,
    files: &[CountedFile<'_>],
) -> Result<Vec<TableRow>, Fault>
    requires at_most { length files.now ≤ MOST_FILES }
    ensures value { GivesItems result (step_rows (days_of period.now) most files.now) }
    ensures memory { IsOkUnless result memory_fault }
{
    let rows = rows_of(alloc, period, most, files)?;
    Ok(rows)
}

// The same; the total is known after the files.
#[tactic(auto, unfolding(crate::specs::Table::step_rows))]
fn rows_of(
    alloc: Global,
    period: &Period,
    most: u32,
    files: &[CountedFile<'_>],
) -> Result<Vec<TableRow>, AllocError>
    requires at_most { length files.now ≤ MOST_FILES }
    ensures { GivesItems result (step_rows (days_of period.now) most files.now) }
{
    let effort = total_effort(files);
    let mut rows = Vec::new(alloc);
    let clock = push_files(alloc, &mut rows, period, most, files)?;
    rows.insert(
        0,
        TableRow {
            of: Of::All,
            clock,
            effort,
        },
    )?;
    Ok(rows)
}

// The efforts of all files.
fn total_effort(files: &[CountedFile<'_>]) -> u64
    requires at_most { length files.now ≤ MOST_FILES }
    ensures { result ≡ total effort_minutes files.now }
{
    let mut sum = 0;
    for file in files {
        let effort = file.effort();
        sum += effort;
    }
    sum
}

// Puts the rows of files after others; answers what the clocks of all have.
fn push_files(
    alloc: Global,
    rows: &mut Vec<TableRow>,
    period: &Period,
    most: u32,
    files: &[CountedFile<'_>],
) -> Result<u64, AllocError>
    requires at_most { length files.now ≤ MOST_FILES }
    ensures sum { Gives result (total (clock_minutes (days_of period.now)) files.now) }
    ensures rows { Adds result rows.old rows.new (files_rows (days_of period.now) most 0 files.now) }
{
    let mut sum = 0;
    for (place, counted) in files.iter().enumerate() {
        let file = TableFile { place, counted };
        let own = push_file(alloc, rows, period, most, &file)?;
        sum += own;
    }
    Ok(sum)
}

// A file of a table, by its place among them.
#[derive(Clone, Copy)]
pub(crate) struct TableFile<'a, 'b> {
    pub place: usize,
    pub counted: &'a CountedFile<'b>,
}

// Puts the rows of a file after others; answers what its clocks have.
fn push_file(
    alloc: Global,
    rows: &mut Vec<TableRow>,
    period: &Period,
    most: u32,
    file: &TableFile<'_, '_>,
) -> Result<u64, AllocError>
    ensures sum { Gives result (file_sum (clock_minutes (days_of period.now)) file.now.counted.now) }
    ensures below { IfOk result (λ sum. sum < 2 ^ 55) }
    ensures rows { Adds result rows.old rows.new (lines_of (days_of period.now) most file.now) }
{
    let counted = file.counted;
    let running = counted.running_sums(alloc, period)?;
    let clock = running.before(counted.outline().count());
    if clock == 0 {
        return Ok(0);
    }
    rows.push(TableRow {
        of: Of::File(file.place),
        clock,
        effort: counted.effort(),
    })?;
    push_headings(alloc, rows, most, file, &running)?;
    Ok(clock)
}

fn push_headings(
    alloc: Global,
    rows: &mut Vec<TableRow>,
    most: u32,
    file: &TableFile<'_, '_>,
    running: &RunningSums,
) -> Result<(), AllocError>
    requires { AreOf running.now file.now.counted.now }
    ensures { Adds result rows.old rows.new (heading_lines running.now.days most file.now) }
{
    let mut found = headings_up(alloc, most, file, running)?;
    found.reverse();
    rows.extend_from_slice(found.as_slice())?;
    Ok(())
}

// The rows of a file's headings, the last first.
fn headings_up(
    alloc: Global,
    most: u32,
    file: &TableFile<'_, '_>,
    running: &RunningSums,
) -> Result<Vec<TableRow>, AllocError>
    requires { AreOf running.now file.now.counted.now }
    ensures { IfOk result (λ rows. reverse rows.items ≡ heading_lines running.now.days most file.now) }
{
    let mut rows = Vec::new(alloc);
    let mut below = file.counted.outline().count();
    while let Some(place) = heading_before(file.counted, running, below) {
        push_heading(&mut rows, most, file, running, place)?;
        below = place;
    }
    Ok(rows)
}

// The last heading before another one, or before the end, that may have minutes: the parent of that one, or the last
// with clocks of its own. What stands after both has none, since all subtrees that begin there end before that
// heading.
fn heading_before(file: &CountedFile<'_>, running: &RunningSums, below: usize) -> Option<usize>
    requires running { AreOf running.now file.now }
    requires heading { IsHeadingOrEnd file.now.entries below }
    ensures { IsLastClocked running.now.days file.now below result }
{
    let outline = file.outline();
    let own = running.last_before(below);
    if below == outline.count() {
        return own;
    }
    later_of(outline.parent(below), own)
}

fn later_of(a: Option<usize>, b: Option<usize>) -> Option<usize>
    ensures { IsLater a b result }
{
    match (a, b) {
        (Some(a), Some(b)) => if a < b { Some(b) } else { Some(a) },
        (Some(a), None) => Some(a),
        (None, b) => b,
    }
}

// Puts the row of a heading after others, if it has one.
fn push_heading(
    rows: &mut Vec<TableRow>,
    most: u32,
    file: &TableFile<'_, '_>,
    running: &RunningSums,
    place: usize,
) -> Result<(), AllocError>
    requires running { AreOf running.now file.now.counted.now }
    requires within { place < length file.now.counted.now.entries }
    ensures { Adds result rows.old rows.new (line_at running.now.days most file.now place) }
{
    let counted = file.counted;
    let outline = counted.outline();
    let end = counted.ends()[place];
    let clock = running.before(end) - running.before(place);
    let sums = HeadingSums {
        file: file.place,
        heading: place,
        clock,
        effort: counted.efforts()[place],
    };
    push_row(rows, most, outline.entry(place), sums)
}

// A heading, by the places of its file and of its entry, with its sums.
#[derive(Clone, Copy)]
struct HeadingSums {
    file: usize,
    heading: usize,
    clock: u64,
    effort: u64,
}

fn push_row(
    rows: &mut Vec<TableRow>,
    most: u32,
    entry: &Entry,
    sums: HeadingSums,
) -> Result<(), AllocError>
    ensures { Adds result rows.old rows.new (entry_rows most sums.file sums.heading sums.clock sums.effort entry.now) }
{
    let Some(head) = &entry.head else {
        return Ok(());
    };
    if sums.clock > 0 && head.level <= most {
        rows.push(TableRow {
            of: Of::Heading(sums.file, sums.heading, head.level),
            clock: sums.clock,
            effort: sums.effort,
        })?;
    }
    Ok(())
}

//! The command that looks for words.

use crate::call::Call;
use crate::options::{RowOptions, without_days};
use crate::text::ids_of_lines;
use clap::ArgMatches;
use org_answer::{PrintOptions, found_bytes, lines_within};
use org_base::Fault;
use org_cal::Moment;
use org_client::{Efforts, FileSet, LoadReport, found_rows, matching_rows, rows_of_efforts};
use org_inherit::Inherits;
use org_layout::{Line, list_lines};
use org_match::Match;
use org_search::{Scan, Search};
use org_text::Whole;
use orgq_args::{property_names, read_search};
use orgq_messages::{Problem, status_of};
use std::alloc::Global;

// What is looked for, which expressions the headings meet at a moment, and which efforts they have.
#[derive(Clone, Copy)]
struct Sought<'a> {
    search: &'a Search,
    expressions: &'a [Match],
    efforts: Option<Efforts>,
    moment: Moment,
}

/// Prints the headings whose sections hold what the command's own words look for, and gives the exit status.
pub fn print_search(
    rt: &HostRuntime,
    matches: &ArgMatches<'_>,
    call: &mut Call,
    options: &RowOptions<'_, '_, '_>,
    look: &PrintOptions<'_, '_>,
) -> Result<u8, Problem> {
    let Some(("search", own)) = matches.subcommand() else {
        return Err(Problem::Option);
    };
    without_days(matches)?;
    let search = read_search(rt.alloc(), own)?;
    let expressions = match options.expressions(rt) {
        Ok(expressions) => expressions,
        Err(status) => return Ok(status),
    };
    let sought = Sought {
        search: &search,
        expressions: expressions.as_slice(),
        efforts: options.efforts()?,
        moment: options.moment,
    };
    over_files(rt, matches, call, &sought, look)
}

// Looks in the files that can be loaded, and gives the exit status.
fn over_files(
    rt: &HostRuntime,
    matches: &ArgMatches<'_>,
    call: &mut Call,
    sought: &Sought<'_>,
    look: &PrintOptions<'_, '_>,
) -> Result<u8, Problem> {
    let is_quiet = matches.get_flag("quiet");
    let asked = call.files(rt, matches)?;
    let (has_row, text) = found_text(rt.alloc(), &asked.file_set, sought, look, is_quiet)?;
    let status = status_of(has_row, asked.left_out);
    if is_quiet {
        return Ok(status);
    }
    Ok(call.print(rt, text.as_slice(), status))
}

// Whether a heading is found, and what is printed.
fn found_text(
    alloc: Global,
    file_set: &FileSet<Whole>,
    sought: &Sought<'_>,
    look: &PrintOptions<'_, '_>,
    is_quiet: bool,
) -> Result<(bool, Vec<u8>), Fault> {
    let inherits = file_set.inherits()?;
    let mut scan = Scan::new(alloc, sought.search)?;
    let found = found_lines(alloc, file_set, &inherits, &mut scan, sought)?;
    if is_quiet {
        return Ok((!found.is_empty(), Vec::new(alloc)));
    }
    let lines = lines_within(found.as_slice(), look.limit);
    let properties = property_names(alloc, look.properties)?;
    let files = LoadReport::new(alloc, file_set, &inherits, properties, false)?;
    let files = files.with_ids(ids_of_lines(alloc, file_set, &inherits, lines, look)?);
    let text = found_bytes(alloc, &files, lines, &mut scan, look)?;
    Ok((!lines.is_empty(), text))
}

// A line for each heading that is found.
fn found_lines(
    alloc: Global,
    file_set: &FileSet<Whole>,
    inherits: &Inherits<'_>,
    scan: &mut Scan<'_>,
    sought: &Sought<'_>,
) -> Result<Vec<Line>, Fault> {
    let rows = found_rows(alloc, file_set, inherits, scan)?;
    let rows = matching_rows(alloc, inherits, rows, sought.expressions, &sought.moment)?;
    let rows = rows_of_efforts(alloc, inherits, rows, sought.efforts)?;
    Ok(list_lines(alloc, rows.as_slice())?)
}

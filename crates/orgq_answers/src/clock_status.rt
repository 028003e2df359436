//! What a status bar shows of the clock that runs.

use crate::call::Call;
use crate::clocks::clock_ids;
use crate::options::without_days;
use clap::ArgMatches;
use org_answer::{PrintOptions, running_clocks, running_lines};
use org_base::Fault;
use org_cal::Moment;
use org_client::{FileSet, LoadReport};
use org_text::Whole;
use orgq_args::property_names;
use orgq_messages::Problem;
use std::alloc::Global;

/// Prints the clocks that run at a moment, and gives the exit status.
pub fn print_status(
    rt: &HostRuntime,
    matches: &ArgMatches<'_>,
    call: &mut Call,
    moment: Moment,
    look: &PrintOptions<'_, '_>,
) -> Result<u8, Problem> {
    without_days(matches)?;
    let asked = call.files(rt, matches)?;
    let lines = status_bytes(rt.alloc(), &asked.file_set, moment, look)?;
    let left_out = asked.left_out;
    Ok(call.print_lines(rt, matches, lines.as_slice(), left_out))
}

fn status_bytes(
    alloc: Global,
    file_set: &FileSet<Whole>,
    moment: Moment,
    look: &PrintOptions<'_, '_>,
) -> Result<Vec<u8>, Fault> {
    let inherits = file_set.inherits()?;
    let clocks = running_clocks(alloc, file_set, &inherits, moment)?;
    let properties = property_names(alloc, look.properties)?;
    let files = LoadReport::new(alloc, file_set, &inherits, properties, false)?;
    let files = files.with_ids(clock_ids(alloc, file_set, &inherits, clocks.as_slice(), look)?);
    running_lines(alloc, &files, clocks.as_slice(), look)
}

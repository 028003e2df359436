//! The clocks that run.
ghost use Rattle.std.specs.Prelude.{IfOk};
ghost use Rattle.org_answer.specs.Shown.{AreCleanLines, IsSafe, KeepsClean};

use crate::clocks::{ClockText, push_front, push_row, push_title};
use crate::show::PrintOptions;
use org_base::Fault;
use org_cal::{Day, LAST_DAY, Moment, Period};
use org_client::{FileSet, LoadReport, ShownClock, clock_rows, shown_clocks};
use org_inherit::Inherits;
use org_text::{Text, Whole};
use std::alloc::Global;

/// The clocks that run in files, in the order of files and lines, with the minutes up to a moment.
pub fn running_clocks(
    alloc: Global,
    file_set: &FileSet<Whole>,
    inherits: &Inherits<'_>,
    moment: Moment,
) -> Result<Vec<ShownClock>, Fault> {
    let Some(days) = all_days() else {
        return Ok(Vec::new(alloc));
    };
    let mut running = Vec::new(alloc);
    let now = moment.minute().number();
    let rows = clock_rows(alloc, inherits, &days)?;
    for row in rows.as_slice() {
        if row.to.is_none() {
            let mut row = *row;
            row.minutes = now.saturating_sub(row.from);
            running.push(row)?;
        }
    }
    shown_clocks(alloc, file_set, running.as_slice())
}

// All days that there are.
fn all_days() -> Option<Period> {
    let first = Day::of_number(1)?;
    let last = Day::of_number(u64::from(LAST_DAY))?;
    if last.number() < first.number() {
        return None;
    }
    Some(Period { first, last })
}

/// The lines of clocks that run: the hours and minutes so far, and the title of the heading.
#[tactic(auto, using(crate::proofs::ShownLemmas::no_lines))]
pub fn running_lines<T: Text>(
    alloc: Global,
    files: &LoadReport<'_, '_, T>,
    clocks: &[ShownClock],
    look: &PrintOptions<'_, '_>,
) -> Result<Vec<u8>, Fault>
    ensures clean { IsSafe look.now → IfOk result (λ out. AreCleanLines out.items) }
{
    let mut out = Vec::new(alloc);
    for clock in clocks {
        push_running(alloc, &mut out, files, clock, look)?;
    }
    Ok(out)
}

// Appends the line of a clock that runs.
fn push_running<T: Text>(
    alloc: Global,
    out: &mut Vec<u8>,
    files: &LoadReport<'_, '_, T>,
    clock: &ShownClock,
    look: &PrintOptions<'_, '_>,
) -> Result<(), Fault>
    ensures clean { IsSafe look.now → KeepsClean result out.old out.new }
{
    let mut text = String::new(alloc);
    push_front(alloc, &mut text, files, clock, look.form)?;
    let (hours, minutes) = (clock.row.minutes / 60, clock.row.minutes % 60);
    write!(text, "{hours}:{minutes:02} ")?;
    push_title(&mut text, files, clock)?;
    let shown = ClockText {
        clock: *clock,
        text: text.as_str(),
    };
    push_row(alloc, out, files, &shown, look)
}

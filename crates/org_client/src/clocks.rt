//! Lists of clock lines.
ghost use Rattle.std.specs.Prelude.{◌≡◌, ◌+◌, IsOkUnless};
ghost use Rattle.org_base.specs.Codes.{memory_fault};
ghost use Rattle.org_base.specs.Results.{Adds, GivesItems, Writes};
ghost use Rattle.org_cal.specs.Periods.{days_of};
ghost use Rattle.org_cal.specs.Minutes.{minute_of};
ghost use Rattle.org_client.specs.ClockTexts.{clock_minute_text};
ghost use Rattle.org_client.specs.Clocks.{beginning, clock_rows, ending, entry_rows, file_rows, is_of_days, rows_of};

use org_base::Fault;
use org_cal::{Day, MINUTES_PER_DAY, Period, TimeOfDay, push_date, push_time};
use org_drawer::ClockLine;
use org_entry::Entry;
use org_inherit::{Inherit, Inherits};
use org_outline::Outline;
use std::alloc::{AllocError, Global};

/// A clock line of a heading, cut to some days: the places of the file, of the heading and of the line among the heading's
/// clock lines, when it begins and ends, and the minutes between.
#[derive(Clone, Copy, Debug, PartialEq, Eq)]
pub struct ClockRow {
    pub file: usize,
    pub heading: usize,
    pub number: usize,
    /// Minutes since 0001-01-01 00:00.
    pub from: u64,
    /// None of a clock that runs.
    pub to: Option<u64>,
    pub minutes: u64,
}

/// The clock lines of all headings that begin in some days or have minutes in them, in the order of files and lines. A clock
/// that runs, or ends before it begins, has no minutes.
pub fn clock_rows(
    alloc: Global,
    inherits: &Inherits<'_>,
    period: &Period,
) -> Result<Vec<ClockRow>, Fault>
    ensures value { GivesItems result (clock_rows (days_of period.now) inherits.now) }
    ensures memory { IsOkUnless result memory_fault }
{
    let mut rows = Vec::new(alloc);
    for file in 0..inherits.count() {
        push_scope(&mut rows, file, inherits.get(file), period)?;
    }
    Ok(rows)
}

fn push_scope(
    rows: &mut Vec<ClockRow>,
    file: usize,
    inherit: &Inherit<'_>,
    period: &Period,
) -> Result<(), AllocError>
    ensures { Adds result rows.old rows.new (file_rows (days_of period.now) file inherit.now.entries) }
{
    push_file(rows, file, inherit.outline(), period)
}

fn push_file(
    rows: &mut Vec<ClockRow>,
    file: usize,
    outline: &Outline,
    period: &Period,
) -> Result<(), AllocError>
    ensures { Adds result rows.old rows.new (file_rows (days_of period.now) file outline.now) }
{
    for heading in 0..outline.count() {
        push_entry(rows, file, heading, outline.entry(heading), period)?;
    }
    Ok(())
}

// Puts the clock lines of an entry after others, if it is a heading.
fn push_entry(
    rows: &mut Vec<ClockRow>,
    file: usize,
    heading: usize,
    entry: &Entry,
    period: &Period,
) -> Result<(), AllocError>
    ensures { Adds result rows.old rows.new (entry_rows (days_of period.now) file heading entry.now) }
{
    if entry.head.is_none() {
        return Ok(());
    }
    push_clocks(rows, file, heading, entry.details.clocks(), period)
}

fn push_clocks(
    rows: &mut Vec<ClockRow>,
    file: usize,
    heading: usize,
    clocks: &[ClockLine],
    period: &Period,
) -> Result<(), AllocError>
    ensures { Adds result rows.old rows.new (rows_of (days_of period.now) file heading 0 clocks.now) }
{
    for number in 0..clocks.len() {
        let clock = &clocks[number];
        if is_of_days(period, clock) {
            rows.push(ClockRow {
                file,
                heading,
                number,
                from: beginning(period, clock),
                to: ending(period, clock),
                minutes: clock.minutes_in(*period),
            })?;
        }
    }
    Ok(())
}

// Whether a clock begins in some days or has minutes in them.
fn is_of_days(period: &Period, clock: &ClockLine) -> bool
    ensures { result ≡ is_of_days (days_of period.now) clock.now }
{
    let from = clock.from.number();
    first_minute(period) <= from && from < past_minute(period) || clock.minutes_in(*period) > 0
}

// When a clock begins in some days.
fn beginning(period: &Period, clock: &ClockLine) -> u64
    ensures { result ≡ beginning (days_of period.now) clock.now }
{
    clock.from.number().max(first_minute(period))
}

// When it ends in them, if it ends.
fn ending(period: &Period, clock: &ClockLine) -> Option<u64>
    ensures { result ≡ ending (days_of period.now) clock.now.to }
{
    match clock.to {
        Some(to) => Some(to.number().min(past_minute(period))),
        None => None,
    }
}

fn first_minute(period: &Period) -> u64
    ensures { result ≡ minute_of period.now.first 0 }
{
    (u64::from(period.first.number()) - 1) * MINUTES_PER_DAY
}

// The minute after the last one.
fn past_minute(period: &Period) -> u64
    ensures { result ≡ minute_of (period.now.last + 1) 0 }
{
    u64::from(period.last.number()) * MINUTES_PER_DAY
}

/// Appends a minute since 0001-01-01 00:00 as a date, a space and a time; nothing where it is past 9999-12-31.
pub fn push_clock_minute(out: &mut String, minute: u64) -> Result<(), AllocError>
    ensures ok { Writes result out.old out.new (clock_minute_text minute) }
{
    let Some(day) = Day::of_number(minute / MINUTES_PER_DAY + 1) else {
        return Ok(());
    };
    push_date(out, day)?;
    out.push(' ')?;
    push_time(
        out,
        TimeOfDay::of_minutes((minute % MINUTES_PER_DAY) as u16),
    )
}

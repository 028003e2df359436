//! What a chart of clocks shows, and its sums.
ghost use Rattle.std.specs.Prelude.{◌≡◌, IfOk, slice_index, sum};
ghost use Rattle.org_page.specs.Sums.{all_sum, blocks_from, column_sum, day_numbers, told};

use std::alloc::{AllocError, Global};

/// The clocks of some weeks: their days in words, the files, and the weeks.
#[derive(Debug, Drop)]
pub struct Chart {
    pub span: String,
    pub files: Vec<ChartFile>,
    pub weeks: Vec<ChartWeek>,
}

/// A file of a chart: its name, and the number of its color.
#[derive(Debug, Drop)]
pub struct ChartFile {
    pub name: String,
    pub color: usize,
}

/// A week of a chart: its label below the days, its name in a table, and its days.
#[derive(Debug, Drop)]
pub struct ChartWeek {
    pub label: String,
    pub name: String,
    pub days: Vec<ChartDay>,
}

/// A day of a chart: its name, and the minutes of each file.
#[derive(Debug, Drop)]
pub struct ChartDay {
    pub name: String,
    pub minutes: Vec<u64>,
}

/// A part of a bar: upon how many minutes it stands, and its own.
#[derive(Clone, Copy, PartialEq, Eq)]
pub(crate) struct Block {
    pub(crate) below: u64,
    pub(crate) minutes: u64,
}

/// The sum of all of these, at most 2^64 - 1.
pub(crate) fn sum_of(minutes: &[u64]) -> u64
    ensures { result ≡ told (sum minutes.now) }
{
    let mut total: u64 = 0;
    for each in minutes {
        total = total.saturating_add(*each);
    }
    total
}

/// What all files have in some days, at most 2^64 - 1.
pub(crate) fn days_sum(days: &[ChartDay]) -> u64
    ensures { result ≡ told (all_sum day_numbers days.now) }
{
    let mut total: u64 = 0;
    for day in days {
        total = total.saturating_add(sum_of(day.minutes.as_slice()));
    }
    total
}

/// What one file has in some days, at most 2^64 - 1.
pub(crate) fn file_sum(days: &[ChartDay], file: usize) -> u64
    ensures { result ≡ told (column_sum day_numbers file days.now) }
{
    let mut total: u64 = 0;
    for day in days {
        total = total.saturating_add(minutes_at(day.minutes.as_slice(), file));
    }
    total
}

fn minutes_at(minutes: &[u64], file: usize) -> u64
    ensures { result ≡ slice_index minutes.now file }
{
    minutes.get(file).copied().unwrap_or(0)
}

/// The parts of a bar, one upon the other in the order of files.
pub(crate) fn blocks_of(alloc: Global, minutes: &[u64]) -> Result<Vec<Block>, AllocError>
    ensures { IfOk result (λ blocks. blocks.items ≡ blocks_from 0 minutes.now) }
{
    let mut blocks = Vec::new(alloc);
    let mut below: u64 = 0;
    for each in minutes {
        blocks.push(Block {
            below,
            minutes: *each,
        })?;
        below = below.saturating_add(*each);
    }
    Ok(blocks)
}

/// What a file has in all weeks of a chart, at most 2^64 - 1.
pub(crate) fn file_total(weeks: &[ChartWeek], file: usize) -> u64 {
    let mut total: u64 = 0;
    for week in weeks {
        total = total.saturating_add(file_sum(week.days.as_slice(), file));
    }
    total
}

/// What all files have in all weeks of a chart, at most 2^64 - 1.
pub(crate) fn total(weeks: &[ChartWeek]) -> u64 {
    let mut total: u64 = 0;
    for week in weeks {
        total = total.saturating_add(days_sum(week.days.as_slice()));
    }
    total
}

/// The most that a day of a chart has.
pub(crate) fn most_of_day(weeks: &[ChartWeek]) -> u64 {
    let mut most = 0;
    for week in weeks {
        for day in &week.days {
            most = sum_of(day.minutes.as_slice()).max(most);
        }
    }
    most
}

//! Clock and effort sums of headings.
ghost use Rattle.std.specs.Prelude.{◌≡◌, ◌<◌, ◌≤◌, ◌^◌, length, IsOkUnless};
ghost use Rattle.org_base.specs.Codes.{memory_fault};
ghost use Rattle.org_base.specs.Results.{GivesItems};
ghost use Rattle.org_cal.specs.Periods.{days_of};
ghost use Rattle.org_sum.specs.Sums.{clock_sums, effort_sums, own, own_at, subtree_sums, sums_before, total, whole_sum};
ghost use Rattle.org_sum.specs.Measures.{amount};
ghost use Rattle.org_sum.specs.Texts.{AreOfText};

use crate::measure::Measure;
use org_base::Fault;
use org_cal::Period;
use org_entry::Entry;
use org_outline::Outline;
use std::alloc::{AllocError, Global};

// What an entry counts.
fn own_amount(measure: &Measure, entry: &Entry, counts: bool) -> u64
    requires fits { amount measure.now entry.now < 2 ^ 63 }
    ensures value { result ≡ own (amount measure.now) entry.now counts }
{
    if counts && entry.head.is_some() {
        measure.of(entry)
    } else {
        0
    }
}

// What the entry at a place counts.
fn amount_at(measure: &Measure, outline: &Outline, counted: &[bool], place: usize) -> u64
    requires count { length counted.now ≡ length outline.now }
    requires fits { total (amount measure.now) outline.now < 2 ^ 63 }
    requires within { place < length outline.now }
    ensures value { result ≡ own_at (amount measure.now) outline.now counted.now place }
{
    own_amount(measure, outline.entry(place), counted[place])
}

/// What all headings of an outline have in all, of those that count, in minutes.
pub fn whole_sum(measure: &Measure, outline: &Outline, counted: &[bool]) -> u64
    requires count { length counted.now ≡ length outline.now }
    requires text { AreOfText outline.now }
    ensures value { result ≡ whole_sum (amount measure.now) outline.now counted.now }
    ensures below { result < 2 ^ 55 }
{
    measure.is_of_calendar();
    sum_of_all(measure, outline, counted)
}

fn sum_of_all(measure: &Measure, outline: &Outline, counted: &[bool]) -> u64
    requires count { length counted.now ≡ length outline.now }
    requires fits { total (amount measure.now) outline.now < 2 ^ 63 }
    ensures value { result ≡ whole_sum (amount measure.now) outline.now counted.now }
    ensures most { result ≤ total (amount measure.now) outline.now }
{
    let mut sum = 0;
    for i in 0..outline.count() {
        sum += amount_at(measure, outline, counted, i);
    }
    sum
}

// What the entries before each place count in all, and what all count.
fn sums_before(
    alloc: Global,
    measure: &Measure,
    outline: &Outline,
    counted: &[bool],
) -> Result<Vec<u64>, AllocError>
    requires count { length counted.now ≡ length outline.now }
    requires fits { total (amount measure.now) outline.now < 2 ^ 63 }
    ensures value { GivesItems result (sums_before (amount measure.now) outline.now counted.now) }
{
    let mut before = Vec::new(alloc);
    let mut sum = 0;
    for i in 0..outline.count() {
        before.push(sum)?;
        sum += amount_at(measure, outline, counted, i);
    }
    before.push(sum)?;
    Ok(before)
}

// The sum of each heading over its subtree, of the headings that count.
fn subtree_sums(
    alloc: Global,
    measure: &Measure,
    outline: &Outline,
    counted: &[bool],
) -> Result<Vec<u64>, AllocError>
    requires count { length counted.now ≡ length outline.now }
    requires fits { total (amount measure.now) outline.now < 2 ^ 63 }
    ensures value { GivesItems result (subtree_sums (amount measure.now) outline.now counted.now) }
{
    let before = sums_before(alloc, measure, outline, counted)?;
    let ends = outline.ends(alloc)?;
    let mut sums = Vec::new(alloc);
    for i in 0..outline.count() {
        sums.push(before[ends[i]] - before[i])?;
    }
    Ok(sums)
}

/// The clock sum of each entry over a period, in minutes: what the clocks of all headings of its subtree that count
/// have in common with the period (Org manual 9.6, "The clock table").
pub fn clock_sums(
    alloc: Global,
    outline: &Outline,
    period: Period,
    counted: &[bool],
) -> Result<Vec<u64>, Fault>
    requires count { length counted.now ≡ length outline.now }
    requires text { AreOfText outline.now }
    ensures value { GivesItems result (clock_sums (days_of period) outline.now counted.now) }
    ensures memory { IsOkUnless result memory_fault }
{
    let measure = Measure::Clocks(period);
    measure.is_of_calendar();
    Ok(subtree_sums(alloc, &measure, outline, counted)?)
}

/// The effort sum of each entry, in minutes: the efforts of all headings of its subtree that count (Org manual 9.6,
/// "Effort Estimates").
pub fn effort_sums(alloc: Global, outline: &Outline, counted: &[bool]) -> Result<Vec<u64>, Fault>
    requires count { length counted.now ≡ length outline.now }
    requires text { AreOfText outline.now }
    ensures value { GivesItems result (effort_sums outline.now counted.now) }
    ensures memory { IsOkUnless result memory_fault }
{
    let measure = Measure::Efforts;
    measure.is_of_calendar();
    Ok(subtree_sums(alloc, &measure, outline, counted)?)
}

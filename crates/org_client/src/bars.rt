//! Lengths of bars.
ghost use Rattle.std.specs.Prelude.{◌≡◌, ◌≤◌};
ghost use Rattle.org_base.specs.Results.{GivesItems};
ghost use Rattle.org_client.specs.Bars.{bar_eighths, hundredths, part_lengths, share_of};

use std::alloc::{AllocError, Global};

// As much of some units as a part is of a whole, rounded to the nearest; nothing of nothing.
fn share_of(part: u64, whole: u64, units: u32) -> u32
    requires { part ≤ whole }
    ensures value { result ≡ share_of part whole units }
    ensures most { result ≤ units }
{
    if whole == 0 {
        return 0;
    }
    ((part as u128 * units as u128 + (whole / 2) as u128) / whole as u128) as u32
}

/// The length of a bar in eighths of a column: as much of the columns as a sum is of the greatest one, rounded to the nearest.
/// What isn't nothing is at least one eighth long; what is greater than the greatest sum takes no more than all columns.
pub fn bar_eighths(minutes: u64, most: u64, columns: u16) -> u32
    ensures value { result ≡ bar_eighths minutes most columns }
{
    let eighths = share_of(minutes.min(most), most, u32::from(columns) * 8);
    if minutes > 0 && eighths == 0 {
        1
    } else {
        eighths
    }
}

/// A part of a whole in hundredths, rounded to the nearest.
pub fn hundredths(part: u64, whole: u64) -> u32
    ensures value { result ≡ hundredths part whole }
{
    share_of(part.min(whole), whole, 100)
}

/// How many columns each part of a stacked bar takes, where the greatest sum takes all of them and nothing goes further. The ends
/// of the parts are rounded and not the parts.
pub fn part_lengths(
    alloc: Global,
    sums: &[u64],
    most: u64,
    columns: u16,
) -> Result<Vec<u32>, AllocError>
    ensures value { GivesItems result (part_lengths most columns sums.now) }
{
    let mut lengths = Vec::with_capacity(alloc, sums.len())?;
    let mut so_far = 0;
    let mut end = 0;
    for sum in sums {
        so_far = sum.saturating_add(so_far).min(most);
        let next = share_of(so_far, most, u32::from(columns));
        lengths.push(next - end)?;
        end = next;
    }
    Ok(lengths)
}

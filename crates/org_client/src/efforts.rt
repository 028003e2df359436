//! Stamps and rows whose headings have so much effort.
ghost use Rattle.std.specs.Prelude.{◌≡◌, filter};
ghost use Rattle.org_base.specs.Results.{GivesItems};
ghost use Rattle.org_client.specs.Efforts.{has_effort, is_of_row, is_of_stamp, is_within, rows_of_efforts, stamps_of_efforts};

use crate::row_order::effort_of;
use org_agenda::{HeadingStamp, Row};
use org_inherit::{Heading, Inherits};
use std::alloc::{AllocError, Global};

/// So many minutes of effort, from the least to the most.
#[derive(Clone, Copy, Debug, PartialEq, Eq)]
pub struct Efforts {
    pub least: u64,
    pub most: u64,
}

/// Those of some rows whose headings have one of these efforts, in their order; all of them where no efforts are asked for. A
/// heading whose property isn't there, or is no effort, has none.
pub fn rows_of_efforts(
    alloc: Global,
    inherits: &Inherits<'_>,
    rows: Vec<Row>,
    efforts: Option<Efforts>,
) -> Result<Vec<Row>, AllocError>
    ensures value { GivesItems result (rows_of_efforts efforts inherits.now rows.items) }
{
    match efforts {
        None => Ok(rows),
        Some(efforts) => rows_within(alloc, inherits, rows.as_slice(), efforts),
    }
}

fn rows_within(
    alloc: Global,
    inherits: &Inherits<'_>,
    rows: &[Row],
    efforts: Efforts,
) -> Result<Vec<Row>, AllocError>
    ensures value { GivesItems result (filter (is_of_row efforts inherits.now) rows.now) }
{
    let mut some = Vec::new(alloc);
    for row in rows {
        if has_effort(inherits, row.file, row.heading, efforts) {
            some.push(*row)?;
        }
    }
    Ok(some)
}

/// The same of stamps.
pub fn stamps_of_efforts(
    alloc: Global,
    inherits: &Inherits<'_>,
    stamps: Vec<HeadingStamp>,
    efforts: Option<Efforts>,
) -> Result<Vec<HeadingStamp>, AllocError>
    ensures value { GivesItems result (stamps_of_efforts efforts inherits.now stamps.items) }
{
    match efforts {
        None => Ok(stamps),
        Some(efforts) => stamps_within(alloc, inherits, stamps.as_slice(), efforts),
    }
}

fn stamps_within(
    alloc: Global,
    inherits: &Inherits<'_>,
    stamps: &[HeadingStamp],
    efforts: Efforts,
) -> Result<Vec<HeadingStamp>, AllocError>
    ensures value { GivesItems result (filter (is_of_stamp efforts inherits.now) stamps.now) }
{
    let mut some = Vec::new(alloc);
    for stamp in stamps {
        if has_effort(inherits, stamp.owner.file, stamp.owner.heading, efforts) {
            some.push(*stamp)?;
        }
    }
    Ok(some)
}

/// Whether the heading at a place of a file has one of these efforts.
pub fn has_effort(inherits: &Inherits<'_>, file: usize, heading: usize, efforts: Efforts) -> bool
    ensures value { result ≡ has_effort efforts inherits.now file heading }
{
    match Heading::find(inherits, file, heading) {
        Some(heading) => is_within(effort_of(heading.entry), efforts),
        None => false,
    }
}

// Whether there are minutes, no fewer than the least and no more than the most.
fn is_within(minutes: Option<u64>, efforts: Efforts) -> bool
    ensures value { result ≡ is_within efforts minutes }
{
    match minutes {
        Some(minutes) => efforts.least <= minutes && minutes <= efforts.most,
        None => false,
    }
}

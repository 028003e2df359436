//! Which half hours rows touch, and how many lanes overlap there.
ghost use Rattle.std.specs.Prelude.{◌≡◌};
ghost use Rattle.org_look.specs.Hours.{first_half, last_half};

use crate::span::Span;
use std::alloc::{AllocError, Global};

// The half hours of a day.
pub(crate) const HALF_HOURS: usize = 48;

/// The half hours that a row touches: of one that begins in a minute of the day and ends before another those from the one to
/// the other; without an end, or with one that isn't later, that of its start.
pub fn half_hours(start: u16, end: Option<u16>) -> Span
    ensures first { result.first ≡ first_half start }
    ensures last { result.last ≡ last_half start end }
{
    let start = start.min(1439);
    let end = end.unwrap_or(0).min(1440);
    let first = usize::from(start / 30);
    let last = if start < end {
        usize::from((end - 1) / 30)
    } else {
        first
    };
    Span { first, last }
}

// Of each half hour the number of lanes of the rows that stand there, and of those that overlap them, also by others between.
pub(crate) fn lane_counts(
    alloc: Global,
    spans: &[Span],
    lanes: &[usize],
    most: usize,
) -> Result<Vec<usize>, AllocError> {
    let mut counts = Vec::new(alloc);
    for _half_hour in 0..HALF_HOURS {
        counts.push(0)?;
    }
    let mut group = Group {
        first: 0,
        end: 0,
        lanes: 0,
    };
    for (span, lane) in spans.iter().zip(lanes) {
        if *lane < most {
            if span.first >= group.end {
                group.write(&mut counts);
                group = Group {
                    first: span.first,
                    end: 0,
                    lanes: 0,
                };
            }
            group.end = group.end.max(span.last + 1);
            group.lanes = group.lanes.max(lane.saturating_add(1));
        }
    }
    group.write(&mut counts);
    Ok(counts)
}

// Half hours of rows that overlap, and how many lanes they take.
#[derive(Clone, Copy)]
struct Group {
    first: usize,
    end: usize,
    lanes: usize,
}

impl Group {
    fn write(&self, counts: &mut Vec<usize>) {
        for half_hour in self.first..self.end {
            if half_hour < counts.len() {
                counts[half_hour] = self.lanes;
            }
        }
    }
}

//! Rows with hours in boxes beside one another.
ghost use Rattle.org_page.specs.Places.{GivesDealt, GivesDealtUp, PutsRow};

use crate::day::Boxed;
use crate::row::{Hours, Row};
use org_look::{Span, lanes_of};
use std::alloc::{AllocError, Global};

// How many lanes a day has at most; a row that has none stands below.
const MOST_LANES: usize = 24;

// The minutes that a box takes at least, which is a line of text.
const SHORTEST: u16 = 28;

/// Rows in boxes, and those that have no lane.
#[derive(Debug, Drop)]
pub struct Placed {
    pub boxes: Vec<Boxed>,
    pub beside: Vec<Row>,
}

/// The rows of a day with hours, each once and in their order, each in the first lane that is free where it begins.
pub fn place_rows(alloc: Global, rows: Vec<Row>) -> Result<Placed, AllocError>
    ensures dealt { GivesDealt result rows.items }
{
    let spots = spots_of(alloc, rows.as_slice())?;
    let mut placed = placed_up(alloc, rows, spots.as_slice())?;
    placed.boxes.reverse();
    placed.beside.reverse();
    Ok(placed)
}

// Rows in the places that they have, the last ones first.
fn placed_up(alloc: Global, rows: Vec<Row>, spots: &[Spot]) -> Result<Placed, AllocError>
    ensures dealt { GivesDealtUp result rows.items }
{
    let mut rows = rows;
    let mut placed = Placed {
        boxes: Vec::new(alloc),
        beside: Vec::new(alloc),
    };
    while let Some(row) = rows.pop() {
        let spot = spots.get(rows.len()).copied();
        placed.push(row, spot)?;
    }
    Ok(placed)
}

// Where a box stands: its minutes, its lane, and how many lanes there are beside one another.
#[derive(Clone, Copy)]
struct Spot {
    from: u16,
    to: u16,
    lane: usize,
    lanes: usize,
}

impl Placed {
    fn push(&mut self, row: Row, spot: Option<Spot>) -> Result<(), AllocError>
        ensures ok { PutsRow result row self.old self.new }
    {
        match spot {
            Some(spot) if spot.lane < MOST_LANES => {
                self.boxes.push(Boxed {
                    row,
                    from: spot.from,
                    to: spot.to,
                    lane: spot.lane,
                    lanes: spot.lanes,
                })?;
            }
            _ => self.beside.push(row)?,
        }
        Ok(())
    }
}

fn spots_of(alloc: Global, rows: &[Row]) -> Result<Vec<Spot>, AllocError> {
    let spans = spans_of(alloc, rows)?;
    let lanes = lanes_of(alloc, spans.as_slice(), MOST_LANES)?;
    let mut spots = in_lanes(alloc, spans.as_slice(), lanes.as_slice())?;
    set_lanes(&mut spots);
    Ok(spots)
}

fn spans_of(alloc: Global, rows: &[Row]) -> Result<Vec<Span>, AllocError> {
    rows.iter().map(|row| span_of(row.time)).collect(alloc)
}

// The minutes that the box of a row takes, from the first to the last.
fn span_of(time: Option<Hours>) -> Span {
    let (start, end) = match time {
        Some(hours) => (hours.start.min(1439), hours.end.unwrap_or(0).min(1440)),
        None => (0, 0),
    };
    Span {
        first: usize::from(start),
        last: usize::from(end.max(start + SHORTEST) - 1),
    }
}

fn in_lanes(alloc: Global, spans: &[Span], lanes: &[usize]) -> Result<Vec<Spot>, AllocError> {
    let mut spots = Vec::new(alloc);
    for (span, lane) in spans.iter().zip(lanes) {
        spots.push(Spot {
            from: span.first.min(1440) as u16,
            to: span.last.min(1500) as u16 + 1,
            lane: *lane,
            lanes: 1,
        })?;
    }
    Ok(spots)
}

// Rows that overlap, also by others between: from which place on, until which minute, and how many lanes they take.
#[derive(Clone, Copy)]
struct Group {
    place: usize,
    end: u16,
    lanes: usize,
}

// Sets how many lanes each box has beside it.
fn set_lanes(spots: &mut Vec<Spot>) {
    let mut group = Group {
        place: 0,
        end: 0,
        lanes: 1,
    };
    for place in 0..spots.len() {
        if place < spots.len() {
            let spot = spots[place];
            if spot.lane < MOST_LANES {
                group = next_group(spots, group, place, spot);
            }
        }
    }
    let end = spots.len();
    fill(spots, group, end);
}

// The group with a box more, which begins one of its own where the group has ended.
fn next_group(spots: &mut Vec<Spot>, group: Group, place: usize, spot: Spot) -> Group {
    if spot.from < group.end {
        return Group {
            place: group.place,
            end: group.end.max(spot.to),
            lanes: group.lanes.max(spot.lane.saturating_add(1)),
        };
    }
    fill(spots, group, place);
    Group {
        place,
        end: spot.to,
        lanes: spot.lane.saturating_add(1),
    }
}

fn fill(spots: &mut Vec<Spot>, group: Group, end: usize) {
    for place in group.place..end {
        if place < spots.len() {
            spots[place].lanes = group.lanes;
        }
    }
}

//! Ranges as bars over the days of a week.
ghost use Rattle.std.specs.Prelude.{◌∷◌, [], ◌<◌};
ghost use Rattle.org_page.specs.Drafts.{AddsTitles, KeepsTitles};
ghost use Rattle.org_page.specs.Rows.{row_title};

use crate::coming::put_day_of;
use crate::day::MonthDay;
use crate::draft::Lent::{Number, Pair, Tag, Text, With};
use crate::draft::{Draft, with};
use crate::heading::put_title;
use crate::row::{Row, StampPlace, Stand, color_class};
use org_look::{Span, lanes_of};
use std::alloc::{AllocError, Global};

// How many lanes a week has at most; a day of a range that has none stands as a row.
const MOST_LANES: usize = 8;

/// A bar of a week: the stamp of its range, the column in which it begins, and its lane.
#[derive(Clone, Copy)]
pub(crate) struct Bar {
    stamp: StampPlace,
    first: usize,
    lane: usize,
}

/// The bars of a week that have lanes.
#[derive(Drop)]
pub(crate) struct Bars {
    list: Vec<Bar>,
}

impl Bars {
    // The lane of the range whose bar begins in a column.
    fn lane(&self, stamp: StampPlace, first: usize) -> Option<usize> {
        for bar in &self.list {
            if bar.stamp == stamp && bar.first == first {
                return Some(bar.lane);
            }
        }
        None
    }
}

/// The bars of a week in lanes: those that begin earlier first, of those that begin on one day the longer ones.
pub(crate) fn bars_of(alloc: Global, days: &[MonthDay]) -> Result<Bars, AllocError> {
    let mut begun = Vec::new(alloc);
    for (column, day) in days.iter().enumerate() {
        if column < 7 {
            push_begun(&mut begun, day, column)?;
        }
    }
    in_lanes(alloc, begun.as_slice())
}

// A range that begins in a week: its stamp and its columns.
#[derive(Clone, Copy)]
struct Begun {
    stamp: StampPlace,
    span: Span,
}

fn push_begun(begun: &mut Vec<Begun>, day: &MonthDay, column: usize) -> Result<(), AllocError>
    requires day { column < 7 }
{
    for shorter in 0..7 {
        for row in &day.ranges {
            if let Some(span) = span_of(row, column) {
                if span.last - span.first == 6 - shorter {
                    begun.push(Begun {
                        stamp: row.stamp,
                        span,
                    })?;
                }
            }
        }
    }
    Ok(())
}

// The columns of a range, where its bar begins in this one.
fn span_of(row: &Row, column: usize) -> Option<Span>
    requires day { column < 7 }
{
    let Stand::Range(day, of) = row.stand else {
        return None;
    };
    if column > 0 && day > 1 {
        return None;
    }
    let ahead = of.saturating_sub(day) as usize;
    Some(Span {
        first: column,
        last: (column + ahead).min(6),
    })
}

fn in_lanes(alloc: Global, begun: &[Begun]) -> Result<Bars, AllocError> {
    let spans = spans_of(alloc, begun)?;
    let lanes = lanes_of(alloc, spans.as_slice(), MOST_LANES)?;
    Ok(Bars {
        list: bars_with(alloc, begun, lanes.as_slice())?,
    })
}

fn spans_of(alloc: Global, begun: &[Begun]) -> Result<Vec<Span>, AllocError> {
    begun.iter().map(|begun| begun.span).collect(alloc)
}

fn bars_with(alloc: Global, begun: &[Begun], lanes: &[usize]) -> Result<Vec<Bar>, AllocError> {
    let mut bars = Vec::new(alloc);
    for (begun, lane) in begun.iter().zip(lanes) {
        if *lane < MOST_LANES {
            bars.push(Bar {
                stamp: begun.stamp,
                first: begun.span.first,
                lane: *lane,
            })?;
        }
    }
    Ok(bars)
}

/// Puts a day of a range as a part of its bar, or as a row where that has no lane.
pub(crate) fn put_range(
    draft: &mut Draft,
    row: &Row,
    bars: &Bars,
    column: usize,
) -> Result<(), AllocError>
    ensures titles { AddsTitles result draft.old draft.new (row_title row.now ∷ []) }
{
    let Stand::Range(day, of) = row.stand else {
        return put_range_row(draft, row, 1, 1);
    };
    let first = column.saturating_sub(day.saturating_sub(1) as usize);
    match bars.lane(row.stamp, first) {
        Some(lane) => put_bar(draft, row, &Piece::of(lane, row.stand, column, first)),
        None => put_range_row(draft, row, day, of),
    }
}

// Puts a day of a range as a row.
fn put_range_row(draft: &mut Draft, row: &Row, day: u32, of: u32) -> Result<(), AllocError>
    ensures titles { AddsTitles result draft.old draft.new (row_title row.now ∷ []) }
{
    draft.put(&[With("li", "class", color_class(row.color))])?;
    put_day_of(draft, day, of)?;
    put_title(draft, row)?;
    draft.put(&[Tag("/li")])
}

// A day of a bar: its lane, and over how many days its title is seen, where the bar begins on it.
#[derive(Clone, Copy)]
struct Piece {
    lane: usize,
    seen: Option<usize>,
}

impl Piece {
    // The day in a column of a range whose bar begins in another.
    fn of(lane: usize, stand: Stand, column: usize, first: usize) -> Piece {
        let seen = match stand {
            Stand::Range(day, of) if column == first => {
                let ahead = of.saturating_sub(day) as usize;
                Some(ahead.min(LAST_COLUMN.saturating_sub(column)) + 1)
            }
            _ => None,
        };
        Piece { lane, seen }
    }
}

// The column of the last day of a week.
pub(crate) const LAST_COLUMN: usize = 6;

// Puts a day of a range as a part of its bar; its title is seen where the bar begins, and heard on each day.
fn put_bar(draft: &mut Draft, row: &Row, piece: &Piece) -> Result<(), AllocError>
    ensures titles { AddsTitles result draft.old draft.new (row_title row.now ∷ []) }
{
    put_bar_begin(draft, row, piece)?;
    put_bar_title(draft, row, piece.seen.is_some())?;
    put_bar_end(draft, row.stand)
}

fn put_bar_begin(draft: &mut Draft, row: &Row, piece: &Piece) -> Result<(), AllocError>
    ensures titles { KeepsTitles result draft.old draft.new }
{
    let (first, last) = match row.stand {
        Stand::Range(day, of) => (day == 1, day == of),
        _ => (false, false),
    };
    let first = if first { " first" } else { "" };
    let last = if last { " last" } else { "" };
    let named = if piece.seen.is_some() { " named" } else { "" };
    let color = color_class(row.color);
    let class = format!(in draft.alloc(); "bar {color}{first}{last}{named}")?;
    let line = piece.lane.saturating_add(1);
    let days = piece.seen.unwrap_or(1);
    let style = format!(in draft.alloc(); "--row:{line};--days:{days}")?;
    draft.put(&[Pair(
        "li",
        with("class", class.as_str()),
        with("style", style.as_str()),
    )])
}

fn put_bar_title(draft: &mut Draft, row: &Row, is_seen: bool) -> Result<(), AllocError>
    ensures titles { AddsTitles result draft.old draft.new (row_title row.now ∷ []) }
{
    if is_seen {
        return put_title(draft, row);
    }
    draft.put(&[With("span", "class", "hidden")])?;
    put_title(draft, row)?;
    draft.put(&[Tag("/span"), Text("\u{a0}")])
}

fn put_bar_end(draft: &mut Draft, stand: Stand) -> Result<(), AllocError>
    ensures titles { KeepsTitles result draft.old draft.new }
{
    let Stand::Range(day, of) = stand else {
        return draft.put(&[Tag("/li")]);
    };
    draft.put(&[
        With("span", "class", "hidden"),
        Text(", day "),
        Number(u64::from(day)),
        Text(" of "),
        Number(u64::from(of)),
        Tag("/span"),
        Tag("/li"),
    ])
}

//! Weeks of rows: which bars lie in which lanes, and what each cell shows.
ghost use Rattle.std.specs.Prelude.{◌≡◌, ◌<◌, ◌-◌, IfOk, map, slice_get, vec_len};
ghost use Rattle.org_look.specs.Ranges.{AddsBars, bar_of, bars_for, bars_from, bars_of_lengths, day_bars, entry_bars};
ghost use Rattle.org_look.specs.Weeks.{AreCells, HoldsDay, HoldsLabels, HoldsRows, LiesApart, LiesFirst, SharesRows, cell_labels, spans_of};

use crate::cell::{Cell, Note, Shape};
use crate::day::GridDay;
use crate::entry::{Entry, Share, Stand, copy, own_labels, own_tones};
use crate::lanes::lanes_of;
use crate::sheet::Tone;
use crate::span::{Bar, Span};
use crate::week::Week;
use crate::wrap::{Labels, broken_labels};
use std::alloc::{AllocError, Global};

/// How cells are filled: the most lines of a cell, of how many columns the lines of a row are that is broken into several (without
/// that each row takes one line), and whether notes are short.
#[derive(Clone, Copy, Debug)]
pub struct Plan {
    pub lines: usize,
    pub breaks: Option<usize>,
    pub is_short: bool,
}

impl Week {
    /// A week of seven days: its bars in lanes that leave a line for rows, and its cells.
    pub fn of(
        alloc: Global,
        number: String,
        days: &[GridDay],
        plan: &Plan,
    ) -> Result<Week, AllocError>
        ensures bars { IfOk result (λ week. map bar_of week.bars.items ≡ bars_from 0 days.now) }
        ensures lanes { LiesFirst result (plan.now.lines - 1) }
        ensures apart { LiesApart result (plan.now.lines - 1) }
        ensures cells { IfOk result (λ week. AreCells plan.now.breaks week.cells.items days.now) }
    {
        let bars = bars_of(alloc, days)?;
        let spans = spans_of(alloc, bars.as_slice())?;
        let most = plan.lines.saturating_sub(1);
        let lanes = lanes_of(alloc, spans.as_slice(), most)?;
        let covers = Covers {
            spans: spans.as_slice(),
            lanes: lanes.as_slice(),
            most,
        };
        let mut cells = cells_of(alloc, days, &covers, plan)?;
        let height = height_of(cells.as_slice());
        set_heights(&mut cells, height);
        Ok(Week {
            number,
            cells,
            bars,
            lanes,
            most,
        })
    }
}

fn spans_of(alloc: Global, bars: &[Bar]) -> Result<Vec<Span>, AllocError>
    ensures { IfOk result (λ spans. spans.items ≡ spans_of bars.now) }
{
    bars.iter().map(|bar| bar.span).collect(alloc)
}

// The bars of a week: those that begin earlier first, of those that begin on one day the longer ones.
fn bars_of(alloc: Global, days: &[GridDay]) -> Result<Vec<Bar>, AllocError>
    ensures value { IfOk result (λ bars. map bar_of bars.items ≡ bars_from 0 days.now) }
{
    let mut bars = Vec::new(alloc);
    for (column, day) in days.iter().enumerate() {
        if column < 7 {
            push_day_bars(alloc, &mut bars, day.entries.as_slice(), column)?;
        }
    }
    Ok(bars)
}

// How many days a bar may take besides its first, the longest first.
const LENGTHS: [usize; 7] = [6, 5, 4, 3, 2, 1, 0];

// Appends the bars that begin on a day with these rows.
fn push_day_bars(
    alloc: Global,
    bars: &mut Vec<Bar>,
    entries: &[Entry],
    column: usize,
) -> Result<(), AllocError>
    requires day { column < 7 }
    ensures ok { AddsBars result bars.old bars.new (day_bars column entries.now) }
{
    push_lengths(alloc, bars, entries, column, &LENGTHS)
}

// The same of those that take so many days besides it, one number after the other.
fn push_lengths(
    alloc: Global,
    bars: &mut Vec<Bar>,
    entries: &[Entry],
    column: usize,
    lengths: &[usize],
) -> Result<(), AllocError>
    requires day { column < 7 }
    ensures ok { AddsBars result bars.old bars.new (bars_of_lengths column entries.now lengths.now) }
{
    for more in lengths {
        push_bars(alloc, bars, entries, column, *more)?;
    }
    Ok(())
}

fn push_bars(
    alloc: Global,
    bars: &mut Vec<Bar>,
    entries: &[Entry],
    column: usize,
    more: usize,
) -> Result<(), AllocError>
    requires day { column < 7 }
    ensures ok { AddsBars result bars.old bars.new (bars_for column entries.now more) }
{
    for entry in entries {
        push_bar(alloc, bars, entry, column, more)?;
    }
    Ok(())
}

// Appends the bar of a range that is seen first on a day, where it goes on for so many days.
fn push_bar(
    alloc: Global,
    bars: &mut Vec<Bar>,
    entry: &Entry,
    column: usize,
    more: usize,
) -> Result<(), AllocError>
    requires day { column < 7 }
    ensures ok { AddsBars result bars.old bars.new (entry_bars column more entry.now) }
{
    let Stand::Range(day, of) = entry.stand else {
        return Ok(());
    };
    if column > 0 && day > 1 {
        return Ok(());
    }
    let ahead = of.saturating_sub(day) as usize;
    let last = (column + ahead).min(6);
    if last - column != more {
        return Ok(());
    }
    let label = copy(alloc, entry.label.as_str())?;
    bars.push(Bar {
        span: Span {
            first: column,
            last,
        },
        is_begun: day > 1,
        goes_on: column + ahead > 6,
        label,
        tone: entry.tone,
    })?;
    Ok(())
}

// The bars of a week with their lanes.
#[derive(Clone, Copy)]
struct Covers<'a, 'b> {
    spans: &'a [Span],
    lanes: &'b [usize],
    most: usize,
}

// The lanes of a day, and the number of its bars that have none.
#[derive(Clone, Copy)]
struct Cover {
    lanes: usize,
    bars: u32,
}

impl Covers<'_, '_> {
    fn of(&self, column: usize) -> Cover {
        let mut lanes = 0;
        let mut bars: u32 = 0;
        for (span, lane) in self.spans.iter().zip(self.lanes) {
            if span.first <= column && column <= span.last {
                if *lane < self.most {
                    lanes = lanes.max(lane.saturating_add(1));
                } else {
                    bars = bars.saturating_add(1);
                }
            }
        }
        Cover { lanes, bars }
    }
}

// Seven cells, empty ones where there are fewer days.
fn cells_of(
    alloc: Global,
    days: &[GridDay],
    covers: &Covers<'_, '_>,
    plan: &Plan,
) -> Result<Vec<Cell>, AllocError>
    ensures seven { IfOk result (λ cells. vec_len cells ≡ 7) }
    ensures labels { IfOk result (λ cells. AreCells plan.now.breaks cells.items days.now) }
{
    let mut cells = Vec::new(alloc);
    for column in 0..7 {
        let cell = cell_at(alloc, days, column, covers, plan)?;
        cells.push(cell)?;
    }
    Ok(cells)
}

// The cell of the day at a place, an empty one where there is none.
fn cell_at(
    alloc: Global,
    days: &[GridDay],
    column: usize,
    covers: &Covers<'_, '_>,
    plan: &Plan,
) -> Result<Cell, AllocError>
    ensures labels { HoldsDay result plan.now.breaks (slice_get days.now column) }
{
    match days.get(column) {
        Some(day) => cell_of(alloc, day, covers.of(column), plan),
        None => Ok(Cell::empty(alloc)),
    }
}

// How many lines a week takes below the numbers of its days, at least one.
fn height_of(cells: &[Cell]) -> usize {
    let mut height = 1;
    for cell in cells {
        height = cell.shape.lines().max(height);
    }
    height
}

fn set_heights(cells: &mut Vec<Cell>, height: usize)
    ensures seven { vec_len cells.new ≡ vec_len cells.old }
    ensures labels { map cell_labels cells.new.items ≡ map cell_labels cells.old.items }
{
    for cell in cells.iter_mut() {
        cell.shape.height = height;
    }
}

fn cell_of(alloc: Global, day: &GridDay, cover: Cover, plan: &Plan) -> Result<Cell, AllocError>
    ensures labels { HoldsRows result plan.now.breaks day.now.entries.items }
    ensures share { SharesRows result cover.bars plan.now.lines }
{
    let labels = labels_of(alloc, day.entries.as_slice(), plan)?;
    let notes = notes_of(alloc, day.entries.as_slice(), plan.is_short)?;
    let taken = cover.lanes.saturating_add(notes.len());
    let share = Share::of(
        labels.texts.len(),
        cover.bars,
        plan.lines.saturating_sub(taken).max(1),
    );
    let shape = Shape {
        lanes: cover.lanes,
        shown: share.shown,
        left: share.left,
        notes: notes.len(),
        height: 0,
    };
    Ok(Cell {
        number: copy(alloc, day.number.as_str())?,
        tone: day.tone(),
        labels: labels.texts,
        tones: labels.tones,
        notes,
        shape,
    })
}

// What is shown of the rows that the cell of a day holds.
fn labels_of(alloc: Global, entries: &[Entry], plan: &Plan) -> Result<Labels, AllocError>
    ensures { HoldsLabels result plan.now.breaks entries.now }
{
    if let Some(columns) = plan.breaks {
        return broken_labels(alloc, entries, columns);
    }
    Ok(Labels {
        texts: own_labels(alloc, entries)?,
        tones: own_tones(alloc, entries)?,
    })
}

/// How many rows of a day are late, and how many are due soon, in fewer words where that is asked.
pub fn notes_of(alloc: Global, entries: &[Entry], is_short: bool) -> Result<Vec<Note>, AllocError> {
    let late = count_of(entries, Stand::Late);
    let soon = count_of(entries, Stand::Soon);
    let mut notes = Vec::new(alloc);
    if late > 0 {
        notes.push(Note {
            text: format!(in alloc; "{late} late")?,
            tone: Tone::Late,
        })?;
    }
    if soon > 0 {
        let word = if is_short { "due" } else { "due soon" };
        notes.push(Note {
            text: format!(in alloc; "{soon} {word}")?,
            tone: Tone::Soon,
        })?;
    }
    Ok(notes)
}

fn count_of(entries: &[Entry], stand: Stand) -> usize {
    entries.iter().filter(|entry| entry.stand == stand).count()
}

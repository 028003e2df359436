//! The lines of a week.
ghost use Rattle.std.specs.Prelude.{◌≡◌, ◌+◌, ◌*◌, ◌<◌, ◌≤◌, ◌^◌, IfOk, IfSome, None, vec_len};
ghost use Rattle.org_look.specs.Gives.{GivesWide, KeepsWide};
ghost use Rattle.org_look.specs.Grids.{gutter, line_width};

use crate::cell::{Cell, is_narrow};
use crate::fill::fill_text;
use crate::line::join_strips;
use crate::sign::Signs;
use crate::span::Bar;
use crate::strip::Strip;
use std::alloc::{AllocError, Global};

/// How a grid is drawn: the columns of a day, and the signs.
#[derive(Clone, Copy, Debug)]
pub struct Grid {
    pub cell: usize,
    pub signs: Signs,
    pub ghost wide: { 5 ≤ cell },
    pub ghost small: { cell < 2 ^ 32 },
}

impl Grid {
    /// The widest grid in so many columns; none where its days would have fewer than seven.
    pub fn within(columns: u16, signs: Signs) -> Option<Grid>
        ensures fits { IfSome result (λ grid. line_width grid.cell ≤ columns) }
        ensures widest { IfSome result (λ grid. columns < line_width (grid.cell + 1)) }
        ensures none { result ≡ None → columns < line_width LEAST_CELL }
    {
        let columns = usize::from(columns);
        let roomy = columns.saturating_sub(11) / 7;
        let cell = if is_narrow(roomy) {
            (columns.saturating_sub(10) / 7).min(10)
        } else {
            roomy
        };
        if cell < LEAST_CELL {
            return None;
        }
        Some(Grid { cell, signs })
    }

    /// The columns of each of its lines.
    pub fn columns(&self) -> usize
        ensures value { result ≡ line_width self.now.cell }
    {
        self.gutter() + 7 * (self.cell + 1) + 1
    }

    /// The columns of a week's number.
    pub fn gutter(&self) -> usize
        ensures value { result ≡ gutter self.now.cell }
        ensures some { 0 < result }
        ensures small { result < 4 }
    {
        if is_narrow(self.cell) { 2 } else { 3 }
    }
}

/// The fewest columns of a day in a grid: an hour and four more.
pub const LEAST_CELL: usize = 7;

/// A week of a grid: its number, its seven cells, its bars with their lanes, and how many lanes there are at most; a bar whose
/// lane is none of these isn't drawn.
#[derive(Debug, Drop)]
pub struct Week {
    pub number: String,
    pub cells: Vec<Cell>,
    pub bars: Vec<Bar>,
    pub lanes: Vec<usize>,
    pub most: usize,
    pub ghost seven: { vec_len cells ≡ 7 },
}

impl Week {
    /// Appends the lines of the week: the numbers of its days, then the lanes of its bars and the rows of its days.
    pub fn push_lines(
        &self,
        lines: &mut Vec<Strip>,
        grid: &Grid,
        alloc: Global,
    ) -> Result<(), AllocError>
        ensures wide { KeepsWide result lines.old lines.new (line_width grid.now.cell) }
    {
        lines.push(self.numbers(alloc, grid)?)?;
        for place in 0..self.height() {
            lines.push(self.line(alloc, place, grid)?)?;
        }
        Ok(())
    }

    // How many lines the week takes below the numbers of its days.
    fn height(&self) -> usize {
        self.cells[0].shape.height
    }

    fn numbers(&self, alloc: Global, grid: &Grid) -> Result<Strip, AllocError>
        ensures wide { GivesWide result (line_width grid.now.cell) }
    {
        let mut strips = Vec::new(alloc);
        for cell in &self.cells {
            strips.push(cell.head(alloc, grid.cell, grid.signs)?)?;
        }
        let front = fill_text(alloc, self.number.as_str(), grid.gutter(), grid.signs)?;
        join_strips(alloc, &front, strips.as_slice(), grid.signs)
    }

    fn line(&self, alloc: Global, place: usize, grid: &Grid) -> Result<Strip, AllocError>
        ensures wide { GivesWide result (line_width grid.now.cell) }
    {
        let mut strips = Vec::new(alloc);
        let mut column = 0;
        while column < 7 {
            let part = self.part(alloc, &Spot { place, column }, grid)?;
            let Part { strip, days } = part;
            strips.push(strip)?;
            column += days;
        }
        let front = fill_text(alloc, "", grid.gutter(), grid.signs)?;
        join_strips(alloc, &front, strips.as_slice(), grid.signs)
    }

    // The bar that begins at a spot, else what the cell of the day has there.
    fn part(&self, alloc: Global, spot: &Spot, grid: &Grid) -> Result<Part, AllocError>
        requires day { spot.now.column < 7 }
        ensures wide { IfOk result (λ part. 1 + part.strip.columns ≡ part.days * (grid.now.cell + 1)) }
        ensures some { IfOk result (λ part. 1 ≤ part.days) }
        ensures within { IfOk result (λ part. spot.now.column + part.days ≤ 7) }
    {
        let Some(bar) = self.bar_at(spot) else {
            let strip = self.cells[spot.column].strip(alloc, spot.place, grid.cell, grid.signs)?;
            return Ok(Part { strip, days: 1 });
        };
        let days = bar.span.last - bar.span.first + 1;
        let strip = bar.strip(alloc, days * (grid.cell + 1) - 1, grid.signs)?;
        Ok(Part { strip, days })
    }

    // The bar that begins at a spot; none where a line is no lane.
    fn bar_at(&self, spot: &Spot) -> Option<&Bar>
        ensures column { IfSome result (λ bar. bar.now.span.first ≡ spot.now.column) }
        ensures lane { IfSome result (λ _. spot.now.place < self.now.most) }
    {
        if spot.place >= self.most {
            return None;
        }
        for place in 0..self.bars.len() {
            let bar = &self.bars[place];
            let lane = self.lanes.get(place);
            if lane == Some(&spot.place) && bar.span.first == spot.column {
                return Some(bar);
            }
        }
        None
    }
}

// A line of a week, below its numbers, and a day.
#[derive(Clone, Copy)]
struct Spot {
    place: usize,
    column: usize,
}

// A strip over some days.
#[derive(Drop)]
struct Part {
    strip: Strip,
    days: usize,
}

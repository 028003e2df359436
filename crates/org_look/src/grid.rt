//! Grids of weeks.
ghost use Rattle.std.specs.Prelude.{◌≡◌, IfOk};
ghost use Rattle.org_look.specs.Grids.{AreWide, line_width};

use crate::rule::{Crossings, rule};
use crate::sign::Sign;
use crate::strip::Strip;
use crate::week::{Grid, Week};
use std::alloc::{AllocError, Global};

const TOP: Crossings = Crossings {
    left: Sign::TopLeft,
    middle: Sign::Top,
    right: Sign::TopRight,
};

const MIDDLE: Crossings = Crossings {
    left: Sign::Left,
    middle: Sign::Cross,
    right: Sign::Right,
};

const BOTTOM: Crossings = Crossings {
    left: Sign::BottomLeft,
    middle: Sign::Bottom,
    right: Sign::BottomRight,
};

/// The lines of a grid of weeks, all equally wide.
pub fn grid_lines(alloc: Global, weeks: &[Week], grid: &Grid) -> Result<Vec<Strip>, AllocError>
    ensures wide { IfOk result (λ lines. AreWide (line_width grid.now.cell) lines.items) }
{
    let mut lines = Vec::new(alloc);
    lines.push(rule(alloc, &TOP, grid)?)?;
    for (place, week) in weeks.iter().enumerate() {
        week.push_lines(&mut lines, grid, alloc)?;
        let crossings = if place + 1 < weeks.len() {
            &MIDDLE
        } else {
            &BOTTOM
        };
        lines.push(rule(alloc, crossings, grid)?)?;
    }
    Ok(lines)
}

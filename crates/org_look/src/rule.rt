//! Level borders between weeks.
ghost use Rattle.org_look.specs.Bars.{times};
ghost use Rattle.org_look.specs.Gives.{GivesWide, Widens};
ghost use Rattle.org_look.specs.Grids.{line_width};
ghost use Rattle.org_look.specs.Results.{Writes};
ghost use Rattle.org_look.specs.Signs.{sign_text};

use crate::sign::{Sign, Signs};
use crate::strip::Strip;
use crate::week::Grid;
use std::alloc::{AllocError, Global};

// The signs of a level border: at its left, where it crosses others, and at its right.
#[derive(Clone, Copy)]
pub(crate) struct Crossings {
    pub left: Sign,
    pub middle: Sign,
    pub right: Sign,
}

// A level border, as wide as the lines of weeks.
pub(crate) fn rule(alloc: Global, crossings: &Crossings, grid: &Grid) -> Result<Strip, AllocError>
    ensures wide { GivesWide result (line_width grid.now.cell) }
{
    let mut text = String::new(alloc);
    push_times(&mut text, Sign::Blank, grid.gutter(), grid.signs)?;
    push_times(&mut text, crossings.left, 1, grid.signs)?;
    for _day in 0..6_usize {
        push_times(&mut text, Sign::Level, grid.cell, grid.signs)?;
        push_times(&mut text, crossings.middle, 1, grid.signs)?;
    }
    push_times(&mut text, Sign::Level, grid.cell, grid.signs)?;
    push_times(&mut text, crossings.right, 1, grid.signs)?;
    Ok(Strip::of(alloc, text))
}

// Appends a sign so many times.
pub(crate) fn push_times(
    out: &mut String,
    sign: Sign,
    count: usize,
    signs: Signs,
) -> Result<(), AllocError>
    ensures value { Writes result out.old out.new (times count (sign_text signs sign)) }
    ensures wide { Widens result out.old out.new count }
{
    for _time in 0..count {
        out.push_str(sign.text(signs))?;
    }
    Ok(())
}

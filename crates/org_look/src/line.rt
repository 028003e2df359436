//! Lines of strips.
ghost use Rattle.org_look.specs.Gives.{GivesStrip, GivesWide};
ghost use Rattle.org_look.specs.Results.{Writes};
ghost use Rattle.org_look.specs.Strips.{line_columns, line_text, strips_text};

use crate::sheet::{Sheet, Tone};
use crate::sign::{Sign, Signs};
use crate::strip::Strip;
use std::alloc::{AllocError, Global};

/// A line of strips behind a front, with a border before each of them and one at its end.
pub fn join_strips(
    alloc: Global,
    front: &Strip,
    strips: &[Strip],
    signs: Signs,
) -> Result<Strip, AllocError>
    ensures value { GivesStrip result (line_text signs front.now strips.now) }
    ensures wide { GivesWide result (line_columns front.now strips.now) }
{
    let mut sheet = Sheet::new(alloc);
    sheet.push_strip(front)?;
    push_strips(&mut sheet, strips, signs)?;
    sheet.push(Tone::Plain, Sign::Side.text(signs))?;
    Ok(Strip::of_sheet(sheet))
}

fn push_strips(out: &mut Sheet, strips: &[Strip], signs: Signs) -> Result<(), AllocError>
    ensures { Writes result out.old.text out.new.text (strips_text signs strips.now) }
{
    for strip in strips {
        out.push(Tone::Plain, Sign::Side.text(signs))?;
        out.push_strip(strip)?;
    }
    Ok(())
}

//! Bars over the days of a week.
ghost use Rattle.std.specs.Prelude.{◌≡◌, ◌-◌, ◌≤◌};
ghost use Rattle.org_look.specs.Bars.{bar_end};
ghost use Rattle.org_look.specs.Cuts.{cut_text};
ghost use Rattle.org_look.specs.Widths.{columns_of};
ghost use Rattle.org_look.specs.Drawn.{drawn};
ghost use Rattle.org_look.specs.Gives.{GivesWide};
ghost use Rattle.org_look.specs.Results.{Gives, GivesText, Writes};

use crate::fill::cut;
use crate::rule::push_times;
use crate::sign::{Sign, Signs};
use crate::span::Bar;
use crate::strip::Strip;
use std::alloc::{AllocError, Global};
use unicode_width::UnicodeWidthStr;

impl Bar {
    /// The bar in so many columns, its label at its front.
    pub fn strip(&self, alloc: Global, columns: usize, signs: Signs) -> Result<Strip, AllocError>
        requires room { 5 ≤ columns }
        ensures wide { GivesWide result columns }
    {
        let text = self.text(alloc, columns, signs)?;
        Strip::of(alloc, text).in_tone(self.tone)
    }

    fn text(&self, alloc: Global, columns: usize, signs: Signs) -> Result<String, AllocError>
        requires room { 5 ≤ columns }
        ensures value { GivesText result (drawn signs columns self.now) }
    {
        let begin = if self.is_begun {
            Sign::From
        } else {
            Sign::Begin
        };
        let mut text = String::new(alloc);
        text.push_str(begin.text(signs))?;
        text.push(' ')?;
        let rest = push_label(alloc, &mut text, self.label.as_str(), columns - 4, signs)?;
        text.push(' ')?;
        self.push_end(&mut text, rest, signs)?;
        Ok(text)
    }

    fn push_end(&self, out: &mut String, columns: usize, signs: Signs) -> Result<(), AllocError>
        ensures { Writes result out.old out.new (bar_end signs self.now.goes_on columns) }
    {
        push_times(out, Sign::Bar, columns, signs)?;
        let end = if self.goes_on { Sign::On } else { Sign::End };
        out.push_str(end.text(signs))?;
        Ok(())
    }
}

// Appends a label, cut to so many columns, and gives the number of columns that it leaves.
fn push_label(
    alloc: Global,
    out: &mut String,
    label: &str,
    columns: usize,
    signs: Signs,
) -> Result<usize, AllocError>
    ensures value { Writes result out.old out.new (cut_text signs columns label.now) }
    ensures rest { Gives result (columns - columns_of (cut_text signs columns label.now)) }
{
    let label = cut(alloc, label, columns, signs)?;
    out.push_str(label.as_str())?;
    Ok(columns.saturating_sub(label.as_str().width()))
}

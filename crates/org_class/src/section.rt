//! The classes of a section's lines.
ghost use Rattle.std.specs.Prelude.{◌≡◌, ◌+◌, ◌≤◌, ◌∷◌, [], true, length, IsOkUnless};
ghost use Rattle.org_base.specs.Codes.{memory_fault};
ghost use Rattle.org_base.specs.Counts.{ticked};
ghost use Rattle.org_base.specs.Results.{Gives};
ghost use Rattle.org_base.specs.declared.meter.Tick.TheVariants.{Classify};
ghost use Rattle.org_class.specs.Classes.{classes_in};
ghost use Rattle.org_class.specs.declared.class.Class.TheVariants.{Heading};

use crate::ahead::Ahead;
use crate::class::Classes;
use crate::ends::EndPlaces;
use crate::heading;
use crate::stage::Stage;
use org_base::{Fault, Meter, Span, Tick};
use org_lines::{Lines, lend};
use org_text::Text;
use std::alloc::Global;

/// The class of each line of a section, in order (Org Syntax, "Headings"; "Planning"; "Property Drawers"; "Blocks"). A
/// section that doesn't begin with a heading line is taken for the one before the first heading. Out of memory is the
/// only refusal; the meter counts one classified section then too.
pub fn classify<T: Text>(
    alloc: Global,
    meter: &mut Meter,
    text: &T,
    section: Span,
) -> Result<Classes, Fault>
    requires within { section.at + section.len ≤ length (T.content text.now) }
    ensures value { Gives result (classes_in (T.content text.now) section) }
    ensures counts { meter.new ≡ ticked Classify meter.old }
    ensures memory { IsOkUnless result memory_fault }
{
    meter.tick(Tick::Classify);
    if is_heading_alone(text, section) {
        return Ok(Classes::of_heading(alloc)?);
    }
    classes(alloc, text, section)
}

// Whether a section is lent in one piece and is its heading alone, as most are in an outline of headings.
fn is_heading_alone<T: Text>(text: &T, section: Span) -> bool
    requires within { section.at + section.len ≤ length (T.content text.now) }
    ensures alone { result ≡ true → classes_in (T.content text.now) section ≡ Heading ∷ [] }
{
    match lend(text, section) {
        Some(bytes) => heading::is_heading_alone(bytes),
        None => false,
    }
}

fn classes<T: Text>(alloc: Global, text: &T, section: Span) -> Result<Classes, Fault>
    requires within { section.at + section.len ≤ length (T.content text.now) }
    ensures value { Gives result (classes_in (T.content text.now) section) }
    ensures memory { IsOkUnless result memory_fault }
{
    // For the proof alone: its contract says that the text is not too long.
    let _len = text.len();
    let ends = EndPlaces::of_lines(alloc, text, section)?;
    let mut classes = Classes::new(alloc);
    let mut stage = Stage::Start;
    let mut rest = section;
    let mut number = 0;
    for line in Lines::new(alloc, text, section) {
        let line = line?;
        rest = Span {
            at: rest.at + line.span.len,
            len: rest.len - line.span.len,
        };
        number += 1;
        let ahead = Ahead::new(text, rest, number, &ends);
        let class = stage.pass(alloc, line.bytes.as_slice(), &ahead)?;
        classes.push(class)?;
    }
    Ok(classes)
}

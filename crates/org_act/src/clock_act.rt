//! Acts on the clock of a heading.
ghost use Rattle.std.specs.Prelude.{◌≡◌, ◌+◌, ◌≤◌, length, Ok};
ghost use Rattle.org_act.specs.Changes.{LiesIn, Makes};
ghost use Rattle.org_act.specs.Clocking.{clocked_by, step_in, with_part};
ghost use Rattle.org_complete.specs.Completion.{sized};
ghost use Rattle.org_complete.specs.Written.{AnswersAs, part_of};

use crate::act::{Act, Refusal};
use crate::clock_section::{ClockSection, section_on};
use crate::clock_step::step_change;
use org_amend::running_clock;
use org_base::{Code, Fault, Meter, Span};
use org_cal::Moment;
use org_class::classify;
use org_store::{File, OwnedChange};
use org_text::{MAX_BYTES, Text, Whole};
use std::alloc::Global;

/// What is done to the clock of a heading.
#[derive(Clone, Copy, Debug)]
pub enum ClockStep {
    /// One begins at the moment.
    In(Moment),
    /// The one that runs ends at the moment.
    Out(Moment),
    /// The one that runs is taken away.
    Cancel,
}

/// A step is done to the clock of the heading on a line, as Org does it. Only the lines under the heading itself count, and of
/// several running clocks the first.
#[derive(Clone, Copy, Debug)]
pub struct ClockAct {
    /// The line. Lines count from 1.
    pub line: u64,
    /// The step.
    pub step: ClockStep,
}

impl Act for ClockAct {
    ghost use Rattle.org_act.specs.Clocking.{clocked_text};

    ghost amended = { clocked_text };

    fn plan(&self, alloc: Global, text: &str) -> Result<OwnedChange, Refusal> {
        match file_of(alloc, text) {
            Ok(file) => plan_in(alloc, &file, text, self),
            Err(fault) => Err(Refusal::Fault(fault)),
        }
    }
}

// A file of a text.
fn file_of(alloc: Global, text: &str) -> Result<File<Whole>, Fault>
    ensures value { AnswersAs (λ f. f.text) result (sized text.now) }
{
    let whole = Whole::of(alloc, text)?;
    File::new(alloc, &mut Meter::new(), whole, 0)
}

// What an act changes of a file's text.
fn plan_in(
    alloc: Global,
    file: &File<Whole>,
    text: &str,
    act: &ClockAct,
) -> Result<OwnedChange, Refusal>
    requires same { file.now.text ≡ text.now }
    ensures value { Makes result text.now (clocked_by act.now text.now) }
{
    match section_on(alloc, file, act.line) {
        Ok(section) => plan_at(alloc, file.text(), text, section, act.step),
        Err(why) => Err(why),
    }
}

// What a step changes of a section of a text.
fn plan_at(
    alloc: Global,
    whole: &Whole,
    text: &str,
    span: Span,
    step: ClockStep,
) -> Result<OwnedChange, Refusal>
    requires same { whole.now ≡ text.now }
    requires within { span.at + span.len ≤ length text.now }
    ensures value { Makes result text.now (step_in step text.now span) }
{
    // For the proof alone: its contract says that the text is not too long.
    let _len = whole.len();
    let classes = classify(alloc, &mut Meter::new(), whole, span)?;
    let clock = running_clock(alloc, whole, span, classes.as_slice())?;
    let section = ClockSection {
        text,
        whole,
        span,
        classes: classes.as_slice(),
    };
    match step_change(alloc, &section, clock, step) {
        Ok(change) => sized_change(text, change),
        Err(why) => Err(why),
    }
}

// A change, unless the text would be too long with it.
fn sized_change(text: &str, change: OwnedChange) -> Result<OwnedChange, Refusal>
    requires within { LiesIn text.now change }
    ensures value { Makes result text.now (with_part text.now (Ok (part_of change))) }
{
    if text.len() - change.del as usize + change.ins.len() > MAX_BYTES {
        return Err(Refusal::Fault(Fault::Plain(Code::Size)));
    }
    Ok(change)
}

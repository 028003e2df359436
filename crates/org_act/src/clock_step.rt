//! The steps of acts on a clock.
ghost use Rattle.std.specs.Prelude.{◌≡◌, ◌+◌, ◌≤◌, IfOk, IfSome, IsOkUnless, string_bytes};
ghost use Rattle.org_act.specs.Changes.{LiesIn};
ghost use Rattle.org_act.specs.ClockParts.{IsSection, begun_part, begun_part_at, cancelled_with, part_for};
ghost use Rattle.org_act.specs.Clocking.{GivesPart, Replaces, ended_at, inserted_at};
ghost use Rattle.org_complete.specs.Written.{part_of};
ghost use Rattle.org_amend.specs.Places.{place_at};
ghost use Rattle.org_amend.specs.Within.{IsWithin};
ghost use Rattle.org_base.specs.Codes.{memory_fault};

use crate::act::Refusal;
use crate::clock_act::ClockStep;
use crate::clock_section::ClockSection;
use org_amend::{
    ClockPlace, RunningClock, cancelled_part, clock_drawer, clock_line, clock_place, end_text,
    line_break,
};
use org_base::Fault;
use org_cal::Moment;
use org_store::OwnedChange;
use std::alloc::Global;

// What a step changes of a section, whose first running clock, if one runs, is given.
pub(crate) fn step_change(
    alloc: Global,
    section: &ClockSection<'_>,
    clock: Option<RunningClock>,
    step: ClockStep,
) -> Result<OwnedChange, Refusal>
    requires section { IsSection section.now }
    requires clock { IfSome clock (IsWithin section.now.span) }
    ensures value { Replaces result section.now.text.now (part_for section.now step clock) }
{
    match step {
        ClockStep::In(moment) => match clock {
            Some(_) => Err(Refusal::ClockRuns),
            None => Ok(begin(alloc, section, moment)?),
        },
        ClockStep::Out(moment) => match clock {
            Some(clock) => end(alloc, section, &clock, &moment),
            None => Err(Refusal::NoClock),
        },
        ClockStep::Cancel => match clock {
            Some(clock) => Ok(cancel(alloc, section, clock)?),
            None => Err(Refusal::NoClock),
        },
    }
}

// The change by which a clock begins.
fn begin(alloc: Global, section: &ClockSection<'_>, moment: Moment) -> Result<OwnedChange, Fault>
    requires section { IsSection section.now }
    ensures value { GivesPart result (begun_part section.now moment) }
    ensures within { IfOk result (LiesIn section.now.text.now) }
    ensures memory { IsOkUnless result memory_fault }
{
    let place = clock_place(alloc, section.whole, section.span, section.classes)?;
    begin_at(alloc, section, moment, place)
}

// The same at a place.
fn begin_at(
    alloc: Global,
    section: &ClockSection<'_>,
    moment: Moment,
    place: ClockPlace,
) -> Result<OwnedChange, Fault>
    requires section { IsSection section.now }
    requires place { place_at place ≤ section.now.span.at + section.now.span.len }
    ensures value { GivesPart result (begun_part_at section.now moment place) }
    ensures within { IfOk result (LiesIn section.now.text.now) }
    ensures memory { IsOkUnless result memory_fault }
{
    let line_break = line_break(section.bytes(section.span));
    match place {
        ClockPlace::InDrawer(opening) => {
            let line = clock_line(alloc, moment, section.bytes(opening), line_break)?;
            Ok(insertion(opening.at + opening.len, line))
        }
        ClockPlace::UnderFront(at) => {
            let drawer = clock_drawer(alloc, moment, section.is_ended(at), line_break)?;
            Ok(insertion(at, drawer))
        }
    }
}

// The change by which a text is put in at a place.
fn insertion(at: u32, inserted: String) -> OwnedChange
    ensures value { part_of result ≡ inserted_at at (string_bytes inserted) }
{
    OwnedChange {
        at: u64::from(at),
        del: 0,
        ins: inserted,
    }
}

// The change by which a clock ends, unless it began later.
fn end(
    alloc: Global,
    section: &ClockSection<'_>,
    clock: &RunningClock,
    moment: &Moment,
) -> Result<OwnedChange, Refusal>
    requires section { IsSection section.now }
    requires clock { IsWithin section.now.span clock.now }
    ensures value { Replaces result section.now.text.now (ended_at moment.now clock.now) }
{
    if !clock.has_begun(*moment) {
        return Err(Refusal::EndsEarly(clock.from.number()));
    }
    let minutes = moment.minute().number() - clock.from.number();
    let text = end_text(alloc, *moment, minutes)?;
    Ok(insertion(clock.end, text))
}

// The change by which a clock is taken away.
fn cancel(
    alloc: Global,
    section: &ClockSection<'_>,
    clock: RunningClock,
) -> Result<OwnedChange, Fault>
    requires section { IsSection section.now }
    requires clock { IsWithin section.now.span clock }
    ensures value { GivesPart result (cancelled_with section.now clock) }
    ensures within { IfOk result (LiesIn section.now.text.now) }
    ensures memory { IsOkUnless result memory_fault }
{
    let part = cancelled_part(alloc, section.whole, section.span, section.classes, clock)?;
    Ok(OwnedChange {
        at: u64::from(part.at),
        del: u64::from(part.len),
        ins: String::new(alloc),
    })
}

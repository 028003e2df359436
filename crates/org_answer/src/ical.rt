//! Stamps and deadlines as a calendar for other programs.
ghost use Rattle.std.specs.Prelude.{◌≡◌, map};
ghost use Rattle.org_client.specs.Components.{GivesComponents};
ghost use Rattle.org_client.specs.Files.{AreRead};
ghost use Rattle.org_answer.specs.Ical.{GivesIcal, IsCutTo, all_components, calendar_at, has_any, is_told, shown_components, told_length};
ghost use Rattle.org_ical.specs.Components.{calendar_lines, component_text};

use crate::view::{Chosen, Days, chosen_sources};
use org_base::Fault;
use org_cal::Moment;
use org_client::{CalendarDays, date_of, push_events, push_tasks, task_stamps, time_of};
use org_ical::{Calendar, Component};
use org_inherit::Inherits;
use std::alloc::Global;

/// A calendar as it is written, and whether it has a component.
#[derive(Debug, Drop)]
pub struct Ical {
    pub has_component: bool,
    pub bytes: Vec<u8>,
}

/// What is asked of a calendar: its days, how many minutes before its time one is told of something, if that is wanted, and when
/// the calendar is made, by universal time.
#[derive(Clone, Copy, Debug)]
pub struct IcalQuery {
    pub days: Days,
    pub alarm: Option<u32>,
    pub made: Moment,
}

/// The calendar of some days: an event for each stamp that begins on one of them, and a task for each deadline of an open
/// heading, as many of them as a limit says, the first ones.
pub fn ical_of(
    alloc: Global,
    inherits: &Inherits<'_>,
    chosen: &Chosen<'_>,
    asked: &IcalQuery,
    limit: Option<u32>,
) -> Result<Ical, Fault>
    requires read { AreRead inherits.now }
    ensures value { GivesIcal result inherits.now chosen.now asked.now limit }
{
    let components = shown_components(alloc, inherits, chosen, asked, limit)?;
    let has_component = has_any(components.as_slice());
    let calendar = calendar_of(asked.made, components);
    let bytes = calendar.bytes(alloc)?;
    Ok(Ical {
        has_component,
        bytes,
    })
}

// Whether a component is written.
fn has_any(components: &[Component]) -> bool
    ensures value { result ≡ has_any (map component_text components.now) }
{
    for component in components {
        if is_written(component) {
            return true;
        }
    }
    false
}

fn is_written(component: &Component) -> bool
    ensures value { result ≡ is_told (component_text component.now) }
{
    component.shown.is_some()
}

// Components as a calendar that is made at a moment.
fn calendar_of(moment: Moment, components: Vec<Component>) -> Calendar
    ensures value { calendar_lines result ≡ calendar_at moment (map component_text components.items) }
{
    Calendar {
        date: date_of(moment.day),
        time: time_of(moment.minute),
        components,
    }
}

// As many components as a limit says, the first ones.
fn shown_components(
    alloc: Global,
    inherits: &Inherits<'_>,
    chosen: &Chosen<'_>,
    asked: &IcalQuery,
    limit: Option<u32>,
) -> Result<Vec<Component>, Fault>
    requires read { AreRead inherits.now }
    ensures value { GivesComponents result (shown_components inherits.now chosen.now asked.now limit) }
{
    let mut components = all_components(alloc, inherits, chosen, asked)?;
    cut(&mut components, limit);
    Ok(components)
}

// Leaves the first components of which so many are written, or all.
#[tactic(auto, using(crate::proofs::IcalLemmas::first_texts))]
fn cut(components: &mut Vec<Component>, limit: Option<u32>)
    ensures { IsCutTo components.old components.new limit }
{
    match limit {
        Some(count) => {
            let length = shown_length(components.as_slice(), count);
            components.truncate(length);
        }
        None => {}
    }
}

// How many components stand in front of one that is written behind so many that are.
fn shown_length(components: &[Component], count: u32) -> usize
    ensures value { result ≡ told_length count (map component_text components.now) }
{
    let mut left = count;
    let mut length: usize = 0;
    for component in components {
        if is_written(component) {
            if left == 0 {
                return length;
            }
            left -= 1;
        }
        length += 1;
    }
    length
}

fn all_components(
    alloc: Global,
    inherits: &Inherits<'_>,
    chosen: &Chosen<'_>,
    asked: &IcalQuery,
) -> Result<Vec<Component>, Fault>
    requires read { AreRead inherits.now }
    ensures value { GivesComponents result (all_components inherits.now chosen.now asked.now) }
{
    let days = CalendarDays {
        profile: chosen.as_of.profile,
        first: asked.days.first,
        count: asked.days.count,
        alarm: asked.alarm,
    };
    let stamps = chosen_sources(alloc, inherits, chosen)?;
    let tasks = task_stamps(alloc, stamps.as_slice())?;
    let mut components = Vec::new(alloc);
    push_events(alloc, &mut components, inherits, &days, stamps.as_slice())?;
    push_tasks(alloc, &mut components, inherits, &days, tasks.as_slice())?;
    Ok(components)
}

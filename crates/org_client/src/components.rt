//! Stamps as components of a calendar.
ghost use Rattle.std.specs.Prelude.{◌≡◌, ◌+◌, ◌≤◌};
ghost use Rattle.org_cal.specs.declared.day.TheConstants.{LAST_DAY};
ghost use Rattle.org_base.specs.Results.{GivesItems};
ghost use Rattle.org_client.specs.Components.{AddsComponents, GivesComponent, GivesShown, GivesShownIf, alarm_of, event_days, event_of, events_of, found_event, found_shown, found_task, found_task_at, is_task, role_word, task_of, task_stamps, tasks_of};

use crate::event_rules::{more_dates, rule_of, start_of};
use crate::heading_component::{key_of, priority_of_cookie, status_of, words_of};
use crate::when::{days_before, days_more, has_time, single_when, when_from};
use org_agenda::{HeadingStamp, begin_days};
use org_base::{Fault, Profile};
use org_cal::Day;
use org_entry::Role;
use org_ical::{Component, Kind, Shown, When};
use org_inherit::{Heading, Inherits};
use std::alloc::{AllocError, Global};

/// The days of a calendar, and how many minutes before its time one is told of something, if that is wanted.
#[derive(Clone, Copy, Debug)]
pub struct CalendarDays {
    pub profile: Profile,
    pub first: Day,
    pub count: u32,
    pub alarm: Option<u32>,
}

/// The deadlines of open headings among stamps, in their order.
pub fn task_stamps(alloc: Global, stamps: &[HeadingStamp]) -> Result<Vec<HeadingStamp>, AllocError>
    ensures value { GivesItems result (task_stamps stamps.now) }
{
    let mut some = Vec::new(alloc);
    for stamp in stamps {
        if is_task(stamp) {
            some.push(*stamp)?;
        }
    }
    Ok(some)
}

fn is_task(stamp: &HeadingStamp) -> bool
    ensures value { result ≡ is_task stamp.now }
{
    stamp.role == Role::Deadline && stamp.owner.is_open
}

/// Appends stamps as events, each once and in their order. One that begins on none of the days isn't written, but counts among
/// those of its heading, so that an event keeps its name whichever days are asked; a range may have begun before them. None of
/// the days lies past 9999-12-31.
pub fn push_events(
    alloc: Global,
    all: &mut Vec<Component>,
    inherits: &Inherits<'_>,
    days: &CalendarDays,
    stamps: &[HeadingStamp],
) -> Result<(), Fault>
    requires within { days.now.first + days.now.count ≤ LAST_DAY + 1 }
    ensures value { AddsComponents result all.old all.new (events_of inherits.now days.now stamps.now) }
{
    for stamp in stamps {
        push_event(alloc, all, inherits, days, stamp)?;
    }
    Ok(())
}

fn push_event(
    alloc: Global,
    all: &mut Vec<Component>,
    inherits: &Inherits<'_>,
    asked: &CalendarDays,
    stamp: &HeadingStamp,
) -> Result<(), Fault>
    requires within { asked.now.first + asked.now.count ≤ LAST_DAY + 1 }
    ensures value { AddsComponents result all.old all.new (event_of inherits.now asked.now stamp.now) }
{
    let owner = &stamp.owner;
    let Some(heading) = Heading::find(inherits, owner.file, owner.heading) else {
        return Ok(());
    };
    let component = event_component(alloc, &heading, asked, stamp)?;
    all.push(component)?;
    Ok(())
}

/// Appends deadlines as tasks, each once and in their order.
pub fn push_tasks(
    alloc: Global,
    all: &mut Vec<Component>,
    inherits: &Inherits<'_>,
    asked: &CalendarDays,
    stamps: &[HeadingStamp],
) -> Result<(), Fault>
    ensures value { AddsComponents result all.old all.new (tasks_of inherits.now asked.now stamps.now) }
{
    for stamp in stamps {
        push_task(alloc, all, inherits, asked, stamp)?;
    }
    Ok(())
}

fn push_task(
    alloc: Global,
    all: &mut Vec<Component>,
    inherits: &Inherits<'_>,
    asked: &CalendarDays,
    stamp: &HeadingStamp,
) -> Result<(), Fault>
    ensures value { AddsComponents result all.old all.new (task_of inherits.now asked.now stamp.now) }
{
    let owner = &stamp.owner;
    let Some(heading) = Heading::find(inherits, owner.file, owner.heading) else {
        return Ok(());
    };
    let component = task_component(alloc, &heading, asked, stamp)?;
    all.push(component)?;
    Ok(())
}

fn event_component(
    alloc: Global,
    heading: &Heading<'_, '_>,
    asked: &CalendarDays,
    stamp: &HeadingStamp,
) -> Result<Component, Fault>
    requires within { asked.now.first + asked.now.count ≤ LAST_DAY + 1 }
    ensures value { GivesComponent result (found_event heading.now asked.now stamp.now) }
{
    let begins = event_days(alloc, asked, stamp)?;
    let shown = event_shown(alloc, heading, asked, stamp, begins.as_slice())?;
    Ok(Component {
        key: key_of(alloc, heading, role_word(stamp.role))?,
        shown,
    })
}

// The days on which it begins, of which each has it on one of those that are asked.
fn event_days(
    alloc: Global,
    asked: &CalendarDays,
    stamp: &HeadingStamp,
) -> Result<Vec<Day>, AllocError>
    requires within { asked.now.first + asked.now.count ≤ LAST_DAY + 1 }
    ensures value { GivesItems result (event_days asked.now stamp.now) }
{
    let from = days_before(asked.first, days_more(&stamp.stamp));
    let count = asked.first.number() + asked.count - from.number();
    begin_days(alloc, stamp, asked.profile, from, count)
}

// What tells events of a heading apart: as what its stamp stands there.
fn role_word(role: Role) -> &'static [u8]
    ensures value { result.now ≡ role_word role }
{
    match role {
        Role::Plain => b"on",
        Role::Scheduled => b"scheduled",
        Role::Deadline => b"deadline",
    }
}

fn event_shown(
    alloc: Global,
    heading: &Heading<'_, '_>,
    asked: &CalendarDays,
    stamp: &HeadingStamp,
    begins: &[Day],
) -> Result<Option<Shown>, Fault>
    ensures value { GivesShownIf result (found_shown heading.now asked.now stamp.now begins.now) }
{
    match begins {
        [] => Ok(None),
        [first, more @ ..] => {
            let rule = rule_of(asked.profile, stamp);
            let when = when_from(&stamp.stamp, start_of(rule, &stamp.stamp, *first));
            let more = more_dates(alloc, rule, more)?;
            Ok(Some(Shown {
                kind: Kind::Event(when, rule, status_of(heading.keyword())),
                more,
                words: words_of(alloc, heading)?,
                alarm: alarm_of(when, asked.alarm),
            }))
        }
    }
}

// One is told before something that has a time, if that is wanted.
fn alarm_of(when: When, wanted: Option<u32>) -> Option<u32>
    ensures value { result ≡ alarm_of when wanted }
{
    if has_time(when) { wanted } else { None }
}

fn task_component(
    alloc: Global,
    heading: &Heading<'_, '_>,
    asked: &CalendarDays,
    stamp: &HeadingStamp,
) -> Result<Component, Fault>
    ensures value { GivesComponent result (found_task heading.now asked.now stamp.now) }
{
    let due = single_when(stamp.stamp.time, None, stamp.stamp.day);
    let shown = task_at(alloc, heading, asked.alarm, due)?;
    Ok(Component {
        key: key_of(alloc, heading, b"due")?,
        shown: Some(shown),
    })
}

fn task_at(
    alloc: Global,
    heading: &Heading<'_, '_>,
    alarm: Option<u32>,
    due: When,
) -> Result<Shown, Fault>
    ensures value { GivesShown result (found_task_at heading.now alarm due) }
{
    Ok(Shown {
        kind: Kind::Task(due, priority_of_cookie(heading.priority())),
        more: Vec::new(alloc),
        words: words_of(alloc, heading)?,
        alarm: alarm_of(due, alarm),
    })
}

//! Agendas over the files of a world.
ghost use Rattle.std.specs.Prelude.{◌≡◌, ◌+◌, ◌-◌, ◌≤◌, false, None, IfErr, IfOk, OnOk, OnErr, IsOkUnless};
ghost use Rattle.org_base.specs.Codes.{memory_fault};
ghost use Rattle.org_base.specs.Results.{GivesText, IfRefused};
ghost use Rattle.org_agenda.specs.Bound.{near_count};
ghost use Rattle.org_near.specs.Stamps.{AreDated};
ghost use Rattle.org_index.specs.Ticks.{Examines};
ghost use Rattle.org_cal.specs.declared.day.TheConstants.{LAST_DAY};
ghost use Rattle.org_engine.specs.Questions.{ShowsAgenda, asked_agenda};
ghost use Rattle.org_engine.specs.Examined.{ExaminesNear, ReadsAgenda, ReadsDays};
ghost use Rattle.org_engine.specs.Marks.{AnyStamps, ReadsNone, ReadsSome};
ghost use Rattle.org_engine.specs.Step.{DayAgenda, Unread};
ghost use Rattle.org_engine.specs.Places.{IsDays, agenda_in, days_shown};

use crate::question::Form;
use crate::shows::{Render, render_view};
use crate::world::World;
use org_agenda::{Agenda, AsOf, Stamps};
use org_base::{Code, Fault, MOST_DAYS, Meter, Profile};
use org_cal::{Day, LAST_DAY};
use org_inherit::Inherits;
use org_layout::{Line, agenda_lines};
use org_near::DatedStamps;
use org_store::ParsedFile;
use org_text::Text;
use std::alloc::Global;

// The text of the agenda of so many days from a date on. `Date` exactly where the calendar has no such day, `Days`
// exactly where it has and the days are none, more than [`MOST_DAYS`], or end past 9999-12-31, both before anything is
// looked at; else Sections are read as for a list, and the stamps that are near the days are examined, each once as the
// meter counts.
pub(crate) fn dated_text<T: Text>(
    alloc: Global,
    meter: &mut Meter,
    world: &mut World<T>,
    date: &str,
    days: u64,
    form: Form,
) -> Result<String, Fault>
    ensures value { IfOk result (ShowsAgenda form date.now days world.old.world) }
    ensures refused { IfRefused result (λ fault. asked_agenda date.now days ≡ Unread fault) }
    ensures read { OnOk result (ReadsAgenda date.now days world.old world.new meter.old meter.new) }
    ensures partial { OnErr result (ReadsSome AnyStamps world.old world.new meter.old meter.new) }
    ensures uncounted { IfRefused result (λ _. ReadsNone world.old world.new meter.old meter.new) }
{
    let (first, count) = read_days(date, days)?;
    days_text(alloc, meter, world, first, count, form)
}

// The first day and how many there are.
fn read_days(date: &str, days: u64) -> Result<(Day, u32), Fault>
    ensures value { IfOk result (λ asked. asked_agenda date.now days ≡ DayAgenda asked.0 asked.1) }
    ensures within { IfOk result (λ asked. (1 ≤ asked.1) × (asked.0 + asked.1 ≤ LAST_DAY + 1)) }
    ensures refused { IfErr result (λ fault. asked_agenda date.now days ≡ Unread fault) }
{
    let Some(first) = Day::of_text(date.as_bytes()) else {
        return Err(Fault::Plain(Code::Date));
    };
    if days < 1 || days > MOST_DAYS as u64 {
        return Err(Fault::Plain(Code::Days));
    }
    let count = days as u32;
    if first.number() + count > LAST_DAY + 1 {
        return Err(Fault::Plain(Code::Days));
    }
    Ok((first, count))
}

// So many days from a first one on, and how stamps are looked at.
#[derive(Drop)]
struct Days {
    as_of: AsOf,
    first: Day,
    count: u32,
    ghost within: { (1 ≤ count) × (first + count ≤ LAST_DAY + 1) },
}

impl Render for Days {
    ghost named = { λ d. None };

    ghost efforts = { λ d. false };

    ghost lines = { λ d scopes. days_shown d.as_of.profile scopes d.as_of.today d.first d.count };

    ghost examines = { λ d scopes. near_count d.as_of.profile d.first (d.first + d.count - 1) d.as_of.today scopes };

    ghost may = { λ d. AnyStamps };

    fn file(&self) -> Option<&[u8]> {
        None
    }

    fn profile(&self) -> Option<Profile> {
        Some(self.as_of.profile)
    }

    fn with_effort(&self) -> bool {
        false
    }

    fn lines(
        &self,
        alloc: Global,
        meter: &mut Meter,
        inherits: &Inherits<'_>,
        files: &[ParsedFile],
    ) -> Result<Vec<Line>, Fault> {
        let agenda = agenda_of(alloc, meter, inherits, files, self)?;
        agenda_lines(alloc, &agenda)
    }
}

fn days_text<T: Text>(
    alloc: Global,
    meter: &mut Meter,
    world: &mut World<T>,
    first: Day,
    count: u32,
    form: Form,
) -> Result<String, Fault>
    requires within { (1 ≤ count) × (first + count ≤ LAST_DAY + 1) }
    ensures value { GivesText result (agenda_in form first count world.old.world) }
    ensures read { OnOk result (ReadsDays first count world.old world.new meter.old meter.new) }
    ensures partial { OnErr result (ReadsSome AnyStamps world.old world.new meter.old meter.new) }
    ensures memory { IsOkUnless result memory_fault }
{
    let view = Days {
        as_of: as_of(world),
        first,
        count,
    };
    render_view(alloc, meter, world, &view, form)
}

// How an agenda of a world looks at stamps: in the world's profile, from its day.
fn as_of<T: Text>(world: &World<T>) -> AsOf
    ensures profile { result.profile ≡ world.now.world.profile }
    ensures today { result.today ≡ world.now.world.moment.day }
{
    AsOf {
        profile: world.profile(),
        today: world.moment().day,
    }
}

// The agenda of these days over the stamps that are near them, each of which is examined once, as the meter counts. Want of
// memory is the only refusal, and then some may have been counted.
fn agenda_of(
    alloc: Global,
    meter: &mut Meter,
    inherits: &Inherits<'_>,
    files: &[ParsedFile],
    days: &Days,
) -> Result<Agenda, Fault>
    requires dated { AreDated files.now inherits.now }
    ensures value { IfOk result (IsDays days.now.as_of inherits.now days.now.first days.now.count) }
    ensures counts { OnOk result (ExaminesNear days.now.as_of inherits.now days.now.first days.now.count meter.old meter.new) }
    ensures partial { OnErr result (Examines meter.old meter.new) }
    ensures memory { IsOkUnless result memory_fault }
{
    let (first, count) = (days.first, days.count);
    let stamps = DatedStamps { inherits, files };
    let last = last_of(first, count);
    let near = stamps.near(alloc, meter, &days.as_of, first, last)?;
    Agenda::new(alloc, near, &days.as_of, first, count)
}

fn last_of(first: Day, count: u32) -> Day
    requires within { (1 ≤ count) × (first + count ≤ LAST_DAY + 1) }
    ensures value { result + 1 ≡ first + count }
{
    Day::of_number(first.number() as u64 + count as u64 - 1).unwrap()
}

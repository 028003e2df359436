//! What the object of a row says of its heading beside the heading line.
ghost use Rattle.std.specs.Prelude.{◌≡◌, ◌<◌, ◌++◌, length, reverse, slice_get, OnOk};
ghost use Rattle.org_base.specs.Results.{Gives, GivesItems};
ghost use Rattle.org_client.specs.HeadingMembers.{details_members_of, effort_member, path_member_of, planning_members, stamp_member, title_of, titles_above, titles_at};
ghost use Rattle.org_client.specs.KeptHeadings.{StandsIn};
ghost use Rattle.org_client.specs.Members.{Puts};
ghost use Rattle.org_entry.specs.Planning.{entry_planning};
ghost use Rattle.org_inherit.specs.Special.{stamp_span};
ghost use Rattle.org_outline.specs.Levels.{levels};
ghost use Rattle.org_outline.specs.Tree.{ancestors};

use crate::fields::between;
use crate::kept_headings::KeptHeadings;
use crate::members::Members;
use org_base::{Fault, Span, Texts};
use org_drawer::{Planning, effort_minutes};
use org_entry::Entry;
use org_inherit::Heading;
use org_outline::Outline;
use org_stamp::PlanningKeyword;
use std::alloc::{AllocError, Global};

/// Puts the stamps of the planning line as they are written, the effort in minutes, and the titles of the headings above,
/// the topmost first; what isn't there is left out.
pub(crate) fn put_details(
    alloc: Global,
    to: &mut Members<'_>,
    kept: &KeptHeadings<'_, '_>,
    heading: &Heading<'_, '_>,
) -> Result<(), Fault>
    requires there { StandsIn kept.now heading.now }
    ensures ok { Puts result to.old to.new (details_members_of to.old.only heading.now) }
{
    put_planning(to, kept, heading)?;
    put_effort(to, heading.entry)?;
    put_path(alloc, to, heading)
}

// Puts the stamps of the planning line, which is read once or may be kept.
#[tactic(auto, using(crate::proofs::StandLemmas::planning_there))]
fn put_planning(
    to: &mut Members<'_>,
    kept: &KeptHeadings<'_, '_>,
    heading: &Heading<'_, '_>,
) -> Result<(), AllocError>
    requires there { StandsIn kept.now heading.now }
    ensures ok { Puts result to.old to.new (planning_members to.old.only heading.now.entry.now) }
{
    let planning = kept.planning(heading.file, heading.place);
    put_stamps(to, heading.entry, &planning)
}

fn put_stamps(
    to: &mut Members<'_>,
    entry: &Entry,
    planning: &Option<Planning>,
) -> Result<(), AllocError>
    requires own { planning.now ≡ entry_planning entry.now }
    ensures ok { Puts result to.old to.new (planning_members to.old.only entry.now) }
{
    put_stamp(to, entry, planning, "scheduled", PlanningKeyword::Scheduled)?;
    put_stamp(to, entry, planning, "deadline", PlanningKeyword::Deadline)?;
    put_stamp(to, entry, planning, "closed", PlanningKeyword::Closed)
}

// Puts what stands between the brackets of the stamp under a keyword.
fn put_stamp(
    to: &mut Members<'_>,
    entry: &Entry,
    planning: &Option<Planning>,
    name: &str,
    word: PlanningKeyword,
) -> Result<(), AllocError>
    requires own { planning.now ≡ entry_planning entry.now }
    ensures ok { Puts result to.old to.new (stamp_member to.old.only name.now word entry.now) }
{
    match part_under(planning, word) {
        Some(part) => to.text(name, between(entry.part(part))),
        None => Ok(()),
    }
}

// The part of an entry's text that the stamp under a keyword takes, if there is one.
fn part_under(planning: &Option<Planning>, word: PlanningKeyword) -> Option<Span>
    ensures value { result ≡ stamp_span word planning.now }
{
    match planning {
        Some(planning) => planning.part(word),
        None => None,
    }
}

fn put_effort(to: &mut Members<'_>, entry: &Entry) -> Result<(), AllocError>
    ensures ok { Puts result to.old to.new (effort_member to.old.only entry.now) }
{
    let Some(text) = entry.details.property(b"Effort") else {
        return Ok(());
    };
    match effort_minutes(text) {
        Some(minutes) => to.number("effort", minutes),
        None => Ok(()),
    }
}

fn put_path(alloc: Global, to: &mut Members<'_>, heading: &Heading<'_, '_>) -> Result<(), Fault>
    ensures ok { Puts result to.old to.new (path_member_of to.old.only heading.now) }
{
    let titles = titles_above(alloc, heading.inherit.outline(), heading.place)?;
    if titles.count() > 0 {
        to.texts("path", &titles)?;
    }
    Ok(())
}

// The titles of the headings above one, the topmost first.
pub(crate) fn titles_above(alloc: Global, outline: &Outline, place: usize) -> Result<Texts, Fault>
    requires within { place < length outline.now }
    ensures value { Gives result (titles_above outline.now place) }
{
    let places = places_above(alloc, outline, place)?;
    titles_at(alloc, outline, places.as_slice())
}

// The places of the headings above one, the topmost first.
fn places_above(alloc: Global, outline: &Outline, place: usize) -> Result<Vec<usize>, AllocError>
    requires within { place < length outline.now }
    ensures value { GivesItems result (reverse (ancestors (levels outline.now) place)) }
{
    let mut places = Vec::new(alloc);
    for above in outline.ancestors(place) {
        places.push(above)?;
    }
    places.reverse();
    Ok(places)
}

// The titles of the headings at some places.
fn titles_at(alloc: Global, outline: &Outline, places: &[usize]) -> Result<Texts, Fault>
    ensures value { Gives result (titles_at outline.now places.now) }
{
    let mut titles = Texts::new(alloc);
    for place in places {
        push_title(&mut titles, outline, *place)?;
    }
    Ok(titles)
}

// Puts the title of the entry at a place after others, if it is a heading.
#[tactic(auto, using(crate::proofs::AbsentLemmas::own_title))]
fn push_title(titles: &mut Texts, outline: &Outline, place: usize) -> Result<(), Fault>
    ensures ok { OnOk result (titles.new ≡ titles.old ++ title_of (slice_get outline.now place)) }
{
    if place >= outline.count() {
        return Ok(());
    }
    let entry = outline.entry(place);
    match &entry.head {
        Some(head) => titles.push(entry.part(head.title))?,
        None => {}
    }
    Ok(())
}

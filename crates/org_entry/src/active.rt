//! The active stamps of an entry: what agendas are made of.
ghost use Rattle.std.specs.Prelude.{◌≡◌, ◌≤◌, insert, length, OnOk};
ghost use Rattle.org_base.specs.Results.{Adds};
ghost use Rattle.org_entry.specs.Active.{active_stamps, plain_stamps, put, stamp_at, stamps_under, with_line, with_planned};
ghost use Rattle.org_entry.specs.declared.active.EntryStamp.{EntryStamp as AnyStamp};

use crate::entry::Entry;
use crate::keyword::is_open;
use org_base::Span;
use org_drawer::Planning;
use org_settings::Settings;
use org_stamp::{Found, Stamp};
use std::alloc::AllocError;

/// As what a stamp stands under its heading (Org manual 9.6, "Timestamps"; "Deadlines and Scheduling").
#[derive(Clone, Copy, Debug, PartialEq, Eq)]
pub enum Role {
    /// In the title or the text.
    Plain,
    /// In the planning line, as the day from which the task is to be done.
    Scheduled,
    /// In the planning line, as the day by which the task is to be done.
    Deadline,
}

/// An active stamp of an entry.
#[derive(Clone, Copy, Debug, PartialEq, Eq)]
pub struct EntryStamp {
    /// Its place in bytes of the section.
    pub at: usize,
    pub role: Role,
    pub stamp: Stamp,
    /// Whether its heading has no done keyword.
    pub is_open: bool,
}

/// Writes the active stamps of an entry, but for CLOSED, by their places in the section, over what stood there; none where
/// it has no head. Whether the entry is hidden is not asked. Out of memory is the only refusal, and then some of them may
/// stand there.
pub fn write_active(
    own: &mut Vec<EntryStamp>,
    settings: &Settings,
    entry: &Entry,
) -> Result<(), AllocError>
    ensures ok { OnOk result (own.new.items ≡ active_stamps settings.now entry.now) }
{
    match &entry.head {
        Some(head) => write_under(own, is_open(settings, entry, head), entry),
        None => {
            own.clear();
            Ok(())
        }
    }
}

/// Writes the active stamps of an entry, as those of a heading that is open or isn't: as [`write_active`] does, whatever
/// the entry's own head says.
pub fn write_under(own: &mut Vec<EntryStamp>, opens: bool, entry: &Entry) -> Result<(), AllocError>
    ensures ok { OnOk result (own.new.items ≡ stamps_under opens entry.now) }
{
    own.clear();
    push_plain(own, opens, entry.details.stamps())?;
    match entry.planning() {
        Some(planning) => put_planning(own, opens, &planning),
        None => Ok(()),
    }
}

fn push_plain(own: &mut Vec<EntryStamp>, opens: bool, stamps: &[Found]) -> Result<(), AllocError>
    ensures ok { Adds result own.old own.new (plain_stamps opens stamps.now) }
{
    for found in stamps {
        own.push(stamp_at(opens, Role::Plain, found.at, found.stamp))?;
    }
    Ok(())
}

fn put_planning(
    own: &mut Vec<EntryStamp>,
    opens: bool,
    planning: &Planning,
) -> Result<(), AllocError>
    ensures ok { OnOk result (own.new.items ≡ with_line opens planning.now own.old.items) }
{
    put_planned(own, opens, Role::Scheduled, planning.scheduled)?;
    put_planned(own, opens, Role::Deadline, planning.deadline)
}

fn put_planned(
    own: &mut Vec<EntryStamp>,
    opens: bool,
    role: Role,
    found: Option<(Stamp, Span)>,
) -> Result<(), AllocError>
    ensures ok { OnOk result (own.new.items ≡ with_planned opens role found own.old.items) }
{
    let Some((stamp, span)) = found else {
        return Ok(());
    };
    if !stamp.active {
        return Ok(());
    }
    put(own, stamp_at(opens, role, span.at as usize, stamp))
}

fn stamp_at(opens: bool, role: Role, at: usize, stamp: Stamp) -> EntryStamp
    ensures { result ≡ stamp_at opens role at stamp }
{
    EntryStamp {
        at,
        role,
        stamp,
        is_open: opens,
    }
}

// Puts a stamp before the first that stands after it.
fn put(own: &mut Vec<EntryStamp>, stamp: EntryStamp) -> Result<(), AllocError>
    ensures ok { OnOk result (own.new.items ≡ put stamp own.old.items) }
{
    let place = place_for(own.as_slice(), stamp.at);
    own.insert(place, stamp)?;
    Ok(())
}

// How many stamps stand up to a place.
fn place_for(own: &[EntryStamp], at: usize) -> usize
    ensures within { result ≤ length own.now }
    ensures value { (s : AnyStamp) → s.at ≡ at → insert own.now result s ≡ put s own.now }
{
    for (place, stamp) in own.iter().enumerate() {
        if stamp.at > at {
            return place;
        }
    }
    own.len()
}

//! The sections of a day.
ghost use Rattle.std.specs.Prelude.{◌≡◌, ◌<◌};
ghost use Rattle.org_day.specs.Placed.{is_by_the_clock};
ghost use Rattle.org_day.specs.Sections.{is_of_habit, is_to_do, rank_of, section_of, timed_or};

use crate::stand::{Kind, Stand};

/// A part of a day, in the order in which they are shown.
#[derive(Clone, Copy, Debug, PartialEq, Eq)]
pub enum Section {
    AllDay,
    ByTheClock,
    Due,
    Late,
    Planned,
    DueSoon,
    Habits,
}

impl Section {
    /// Its place among them.
    pub fn rank(self) -> u8
        ensures value { result ≡ rank_of self }
        ensures few { result < 7 }
    {
        match self {
            Section::AllDay => 0,
            Section::ByTheClock => 1,
            Section::Due => 2,
            Section::Late => 3,
            Section::Planned => 4,
            Section::DueSoon => 5,
            Section::Habits => 6,
        }
    }
}

impl Section {
    /// Whether each of its rows is a line of its own.
    pub(crate) fn is_by_the_clock(self) -> bool
        ensures value { result ≡ is_by_the_clock self }
    {
        match self {
            Section::ByTheClock => true,
            Section::AllDay
            | Section::Due
            | Section::Late
            | Section::Planned
            | Section::DueSoon
            | Section::Habits => false,
        }
    }
}

/// The section in which a row belongs by itself.
pub fn section_of(stand: &Stand) -> Section
    ensures value { result ≡ section_of stand.now }
{
    if is_of_habit(stand) {
        return Section::Habits;
    }
    match stand.kind {
        Kind::LatePlanned(_) | Kind::LateDue(_) => Section::Late,
        Kind::DueIn(_) => Section::DueSoon,
        Kind::Due => timed_or(stand, Section::Due),
        Kind::Planned => timed_or(stand, Section::Planned),
        Kind::Stamp | Kind::Range(..) => timed_or(stand, Section::AllDay),
    }
}

fn timed_or(stand: &Stand, section: Section) -> Section
    ensures value { result ≡ timed_or stand.now section }
{
    if stand.hours.is_some() {
        Section::ByTheClock
    } else {
        section
    }
}

// Whether a row says when a habit is to be done.
fn is_of_habit(stand: &Stand) -> bool
    ensures value { result ≡ is_of_habit stand.now }
{
    stand.is_habit && is_to_do(stand.kind)
}

fn is_to_do(kind: Kind) -> bool
    ensures value { result ≡ is_to_do kind }
{
    match kind {
        Kind::Stamp | Kind::Range(..) => false,
        Kind::Planned | Kind::Due | Kind::LatePlanned(_) | Kind::LateDue(_) | Kind::DueIn(_) =>
            true,
    }
}

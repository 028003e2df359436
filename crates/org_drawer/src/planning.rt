//! Planning lines.
ghost use Rattle.std.specs.Prelude.{◌≡◌, ◌<◌, ◌^◌, length, IfSome};
ghost use Rattle.std.specs.Option.{option_map};
ghost use Rattle.org_drawer.specs.Planning.{AreInside, planning_of, stamp_under, with_pair};

use org_base::Span;
use org_stamp::{Pair, PlanningKeyword, Stamp, next_pair};

/// What the planning line of a heading says (Org Syntax, "Planning"): for each keyword its last stamp, with the stamp's
/// part of the line in bytes. A range counts as its first stamp.
#[derive(Clone, Copy, Debug, PartialEq, Eq)]
pub struct Planning {
    pub scheduled: Option<(Stamp, Span)>,
    pub deadline: Option<(Stamp, Span)>,
    pub closed: Option<(Stamp, Span)>,
}

impl Planning {
    /// The part of the line that the stamp under a keyword takes, if there is one.
    pub fn part(self, word: PlanningKeyword) -> Option<Span>
        ensures value { result ≡ option_map (λ s. s.1) (stamp_under word self) }
    {
        match word {
            PlanningKeyword::Scheduled => part_of(self.scheduled),
            PlanningKeyword::Deadline => part_of(self.deadline),
            PlanningKeyword::Closed => part_of(self.closed),
        }
    }
}

// The part of the line that a stamp takes.
fn part_of(found: Option<(Stamp, Span)>) -> Option<Span>
    ensures value { result ≡ option_map (λ s. s.1) found }
{
    match found {
        Some((_, part)) => Some(part),
        None => None,
    }
}

/// What a planning line says; None exactly where the line is none. Whether it stands directly under a heading isn't asked.
pub fn read_planning(line: &[u8]) -> Option<Planning>
    requires { length line.now < 2 ^ 32 }
    ensures value { result ≡ planning_of line.now }
    ensures inside { IfSome result (λ planning. AreInside line.now planning) }
{
    let first = next_pair(line, 0)?;
    let mut at = first.end;
    let none = Planning {
        scheduled: None,
        deadline: None,
        closed: None,
    };
    let mut planning = with_pair(none, first);
    while let Some(pair) = next_pair(line, at) {
        at = pair.end;
        planning = with_pair(planning, pair);
    }
    Some(planning)
}

// The same with one more pair, which counts before those of its keyword so far.
fn with_pair(planning: Planning, pair: Pair) -> Planning
    requires at { pair.at < 2 ^ 32 }
    requires len { pair.len < 2 ^ 32 }
    ensures value { result ≡ with_pair planning pair }
{
    let part = Span {
        at: pair.at as u32,
        len: pair.len as u32,
    };
    let found = Some((pair.stamp, part));
    match pair.word {
        PlanningKeyword::Scheduled => Planning {
            scheduled: found,
            ..planning
        },
        PlanningKeyword::Deadline => Planning {
            deadline: found,
            ..planning
        },
        PlanningKeyword::Closed => Planning {
            closed: found,
            ..planning
        },
    }
}

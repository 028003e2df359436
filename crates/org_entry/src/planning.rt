//! What the planning line of an entry says.
ghost use Rattle.std.specs.Prelude.{◌≡◌, ◌+◌, ◌<◌, ◌^◌, length, IfSome};
ghost use Rattle.std.specs.Option.{option_map};
ghost use Rattle.org_drawer.specs.Planning.{planning_of};
ghost use Rattle.org_entry.specs.Planning.{moved, moved_stamp};

use org_base::Span;
use org_drawer::{Planning, read_planning};
use org_stamp::Stamp;

// A stamp's part so much further.
fn moved_stamp(at: usize, found: Option<(Stamp, Span)>) -> Option<(Stamp, Span)>
    requires fits { IfSome found (λ s. at + s.1.at < 2 ^ 32) }
    ensures value { result ≡ option_map (moved_stamp at) found }
{
    match found {
        Some((stamp, span)) => Some((
            stamp,
            Span {
                at: at as u32 + span.at,
                len: span.len,
            },
        )),
        None => None,
    }
}

// What a planning line says that stands at a place.
pub(crate) fn planning_at(at: usize, line: &[u8]) -> Option<Planning>
    requires fits { at + length line.now < 2 ^ 32 }
    ensures value { result ≡ option_map (moved at) (planning_of line.now) }
{
    let planning = read_planning(line)?;
    Some(Planning {
        scheduled: moved_stamp(at, planning.scheduled),
        deadline: moved_stamp(at, planning.deadline),
        closed: moved_stamp(at, planning.closed),
    })
}

//! Sets of days: ids by days.
ghost use Rattle.std.specs.Prelude.{OnOk, OnErr, ◌≤◌, ◌<◌, ◌^◌, true, false, IsTrue};
ghost use Rattle.std.specs.BTreeSet.{IsUnchanged};
ghost use Rattle.org_index.specs.DaySet.{IsGathered, IsSet, Keeps, Adds};

use std::alloc::AllocError;
use std::collections::BTreeSet;

// Adds the ids that the set of days has on the days, and no others, also such as are there.
fn gather_all(
    found: &mut Vec<u32>,
    day_set: &BTreeSet<(u32, u32)>,
    from: u32,
    to: u32,
) -> Result<(), AllocError>
    requires days { from ≤ to }
    requires at_most { to < 2 ^ 28 }
    ensures { OnOk result (IsGathered found.old.items day_set.now from to found.new.items) }
{
    for (_, id) in day_set.range((from, 0)..(to + 1, 0)) {
        found.push(*id)?;
    }
    Ok(())
}

// Adds the ids that the set of days has on the days.
pub(crate) fn gather(
    found: &mut Vec<u32>,
    day_set: &BTreeSet<(u32, u32)>,
    from: u32,
    to: u32,
) -> Result<(), AllocError>
    requires days { from ≤ to }
    requires at_most { to < 2 ^ 28 }
    ensures keeps { OnOk result (Keeps found.old.items found.new.items) }
    ensures adds { OnOk result (Adds day_set.now from to found.new.items) }
{
    gather_all(found, day_set, from, to)
}

// The same from the first day on, if it is asked.
pub(crate) fn gather_if(
    found: &mut Vec<u32>,
    day_set: &BTreeSet<(u32, u32)>,
    asked: bool,
    to: u32,
) -> Result<(), AllocError>
    requires at_most { to < 2 ^ 28 }
    ensures keeps { OnOk result (Keeps found.old.items found.new.items) }
    ensures adds { OnOk result (IsTrue asked → Adds day_set.now 0 to found.new.items) }
{
    if asked {
        gather(found, day_set, 0, to)
    } else {
        Ok(())
    }
}

// Sets the id on the day, if there is one.
pub(crate) fn put_id(
    day_set: &mut BTreeSet<(u32, u32)>,
    day: Option<u32>,
    id: u32,
) -> Result<(), AllocError>
    ensures ok { OnOk result (IsSet true day id day_set.old day_set.new) }
    ensures err { OnErr result (IsUnchanged day_set.old day_set.new) }
{
    if let Some(day) = day {
        day_set.insert((day, id))?;
    }
    Ok(())
}

// Takes the id from the day, if there is one.
pub(crate) fn clear(day_set: &mut BTreeSet<(u32, u32)>, day: Option<u32>, id: u32)
    ensures { IsSet false day id day_set.old day_set.new }
{
    if let Some(day) = day {
        day_set.remove(&(day, id));
    }
}

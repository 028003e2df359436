//! The stamps of files that are near some days.
ghost use Rattle.std.specs.Prelude.{◌≡◌, [], OnOk};
ghost use Rattle.std.specs.List.Sorted.{IsStrictlySortedBy};
ghost use Rattle.std.specs.Ordering.{nat_cmp};
ghost use Rattle.org_base.specs.Results.{Adds};
ghost use Rattle.org_agenda.specs.Facts.{HasOwnHead, stamps_at};
ghost use Rattle.org_agenda.specs.Headings.{HaveHeads};
ghost use Rattle.org_agenda.specs.Near.{is_reminding};
ghost use Rattle.org_near.specs.Near.{HoldAskedIn, asked_in, asked_of, asked_of_file, is_asked};

use org_agenda::{HeadingFacts, HeadingStamp, heading_at, write_stamps};
use org_entry::{EntryStamp, Role};
use org_index::Reach;
use org_inherit::Inherit;
use org_stamp_index::NearQuery;
use std::alloc::{AllocError, Global};

// The stamps that are near the days, as far as they are found, and those of one heading.
#[derive(Drop)]
pub(crate) struct NearStamps {
    pub(crate) found: Vec<HeadingStamp>,
    own: Vec<HeadingStamp>,
    active: Vec<EntryStamp>,
}

impl NearStamps {
    // No stamps.
    pub(crate) fn new(alloc: Global) -> NearStamps
        ensures value { result.found.items ≡ [] }
    {
        NearStamps {
            found: Vec::new(alloc),
            own: Vec::new(alloc),
            active: Vec::new(alloc),
        }
    }

    // Puts those of a file after others: of the headings at these places, beside which none has any.
    pub(crate) fn push_file(
        &mut self,
        file: usize,
        inherit: &Inherit<'_>,
        places: &[usize],
        asked: &NearQuery,
    ) -> Result<(), AllocError>
        requires heads { HaveHeads inherit.now.settings inherit.now.entries }
        requires once { IsStrictlySortedBy nat_cmp places.now }
        requires all { HoldAskedIn asked.now places.now file inherit.now }
        ensures ok { Adds result self.old.found self.new.found (asked_of_file asked.now inherit.now file) }
    {
        for heading in places {
            self.push_place(file, inherit, *heading, asked)?;
        }
        Ok(())
    }

    // Puts those of the heading at a place after others, if there is one.
    fn push_place(
        &mut self,
        file: usize,
        inherit: &Inherit<'_>,
        place: usize,
        asked: &NearQuery,
    ) -> Result<(), AllocError>
        requires heads { HaveHeads inherit.now.settings inherit.now.entries }
        ensures ok { Adds result self.old.found self.new.found (asked_in asked.now inherit.now file place) }
    {
        if let Some(facts) = heading_at(inherit, file, place) {
            self.push_heading(&facts, asked)?;
        }
        Ok(())
    }

    // Puts those of a heading after others.
    fn push_heading(
        &mut self,
        facts: &HeadingFacts<'_, '_>,
        asked: &NearQuery,
    ) -> Result<(), AllocError>
        requires head { HasOwnHead facts.now }
        ensures ok { Adds result self.old.found self.new.found (asked_of asked.now (stamps_at facts.now)) }
    {
        write_stamps(&mut self.own, &mut self.active, facts)?;
        push_near(&mut self.found, self.own.as_slice(), asked)
    }
}

// Puts those of some stamps that are near after others.
fn push_near(
    sources: &mut Vec<HeadingStamp>,
    some: &[HeadingStamp],
    asked: &NearQuery,
) -> Result<(), AllocError>
    ensures ok { Adds result sources.old sources.new (asked_of asked.now some.now) }
{
    for source in some {
        if is_near(source, asked) {
            sources.push(*source)?;
        }
    }
    Ok(())
}

// Whether a stamp is near the days.
fn is_near(source: &HeadingStamp, asked: &NearQuery) -> bool
    ensures { result ≡ is_asked asked.now source.now }
{
    let (from, to) = (asked.from.number(), asked.to.number());
    let reach = Reach::of(&source.stamp, asked.profile);
    reach.touches(from, to) || (is_reminding(source) && reach.warns(from, to, asked.today.number()))
}

// Whether it stands in the planning line of a heading without a done keyword.
fn is_reminding(source: &HeadingStamp) -> bool
    ensures { result ≡ is_reminding source.now }
{
    match source.role {
        Role::Plain => false,
        Role::Scheduled | Role::Deadline => source.owner.is_open,
    }
}

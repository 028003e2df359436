//! Which stamps an agenda looks at.
ghost use Rattle.std.specs.Prelude.{◌≡◌, ◌≤◌, ℕ, List, IfOk, OnErr, OnOk, IsOkUnless, length};
ghost use Rattle.org_base.specs.Codes.{memory_fault};
ghost use Rattle.org_base.specs.declared.profile.Profile.{Profile as AnyProfile};
ghost use Rattle.org_index.specs.Ticks.{Examines, examined};
ghost use Rattle.org_agenda.specs.Days.{GiveAllRows};
ghost use Rattle.org_agenda.specs.declared.source.HeadingStamp.{HeadingStamp as AnySource};
ghost use Rattle.org_agenda.specs.declared.as_of.AsOf.{AsOf as AnyStandpoint};

use crate::as_of::AsOf;
use crate::source::HeadingStamp;
use org_base::{Fault, Meter, Tick};
use org_cal::Day;
use std::alloc::Global;

/// Which stamps an agenda of some days looks at.
pub trait Stamps {
    // All stamps, in order.
    ghost sources: { Self → List AnySource };

    // What has to hold of it in a profile.
    ghost stands: { Self → AnyProfile → Type 0 };

    // How many stamps are examined for the days from one to another, as they are looked at.
    ghost examines: { Self → AnyStandpoint → ℕ → ℕ → ℕ };

    /// The stamps to look at for the days from one to another, in order: on each of these days they give the rows that
    /// all stamps give. Each stamp that is examined is counted. Out of memory is the only refusal, and then some may
    /// have been counted.
    fn near(
        &self,
        alloc: Global,
        meter: &mut Meter,
        as_of: &AsOf,
        from: Day,
        to: Day,
    ) -> Result<Vec<HeadingStamp>, Fault>
        requires stands { stands self.now as_of.now.profile }
        requires order { from ≤ to }
        ensures rows { IfOk result (λ found. GiveAllRows as_of.now (sources self.now) from to found.items) }
        ensures counts { OnOk result (meter.new ≡ examined (examines self.now as_of.now from to) meter.old) }
        ensures partial { OnErr result (Examines meter.old meter.new) }
        ensures memory { IsOkUnless result memory_fault };
}

/// All stamps of some headings.
#[derive(Clone, Copy, Debug)]
pub struct AllStamps<'a> {
    pub sources: &'a [HeadingStamp],
}

impl<'a> Stamps for AllStamps<'a> {
    ghost sources = { λ s. s.sources.now };

    ghost stands = { λ s p. Unit {0} };

    ghost examines = { λ s seen from to. length s.sources.now };

    fn near(
        &self,
        alloc: Global,
        meter: &mut Meter,
        as_of: &AsOf,
        from: Day,
        to: Day,
    ) -> Result<Vec<HeadingStamp>, Fault> {
        let _ = (as_of.today, from, to);
        let sources = Vec::from_slice(alloc, self.sources)?;
        for _ in 0..self.sources.len() {
            meter.tick(Tick::Examine);
        }
        Ok(sources)
    }
}

//! The stamps of files, found by days.
ghost use Rattle.std.specs.Prelude.{◌≡◌};
ghost use Rattle.org_agenda.specs.Bound.{near_count};
ghost use Rattle.org_agenda.specs.Sources.{sources_of};
ghost use Rattle.org_near.specs.Stamps.{AreDated};

use crate::near::NearStamps;
use org_agenda::{AsOf, HeadingStamp, Stamps};
use org_base::{Fault, Meter};
use org_cal::Day;
use org_inherit::Inherits;
use org_stamp_index::{NearQuery, ParsedFile};
use std::alloc::Global;

/// The stamps of files' headings, found by days: what the headings of each file inherit, and beside it, in the same order, what
/// the file says.
#[derive(Drop)]
pub struct DatedStamps<'a> {
    pub inherits: &'a Inherits<'a>,
    pub files: &'a [ParsedFile],
}

impl<'a> Stamps for DatedStamps<'a> {
    ghost sources = { λ s. sources_of 0 s.inherits.now };

    ghost stands = { λ s p. AreDated s.files.now s.inherits.now };

    ghost examines = { λ s seen from to. near_count seen.profile from to seen.today s.inherits.now };

    fn near(
        &self,
        alloc: Global,
        meter: &mut Meter,
        as_of: &AsOf,
        from: Day,
        to: Day,
    ) -> Result<Vec<HeadingStamp>, Fault> {
        let asked = NearQuery {
            profile: as_of.profile,
            today: as_of.today,
            from,
            to,
        };
        let mut near = NearStamps::new(alloc);
        for (file, dated) in self.files.iter().enumerate() {
            let places = dated.near(alloc, meter, &asked)?;
            near.push_file(file, self.inherits.get(file), places.as_slice(), &asked)?;
        }
        Ok(near.found)
    }
}

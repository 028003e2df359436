//! The rows of headings whose lines have the others as notes.
ghost use Rattle.std.specs.Prelude.{◌≡◌, IfOk, OnOk};
ghost use Rattle.org_day.specs.Leads.{HasLeads, Notes, is_earlier, is_late, lead_at, lead_rank};

use crate::section::section_of;
use crate::stand::{Kind, Stand};
use std::alloc::{AllocError, Global};
use std::collections::BTreeMap;

/// A row of a heading: a number that is smaller where it comes first, and its place.
#[derive(Clone, Copy, PartialEq, Eq)]
pub(crate) struct Lead {
    pub(crate) rank: u8,
    pub(crate) place: usize,
}

impl Lead {
    // That of the row at a place.
    fn at(stand: &Stand, place: usize) -> Lead
        ensures value { result ≡ lead_at stand.now place }
    {
        Lead {
            rank: lead_rank(stand),
            place,
        }
    }

    // Whether it comes before another, which stands at a smaller place.
    fn is_earlier(&self, other: &Lead) -> bool
        ensures value { result ≡ is_earlier self.now other.now }
    {
        self.rank < other.rank
    }
}

// Twice the rank of its section, and one more where it isn't late: a habit that is late says so.
fn lead_rank(stand: &Stand) -> u8
    ensures value { result ≡ lead_rank stand.now }
{
    let rank = section_of(stand).rank() * 2;
    if is_late(stand.kind) { rank } else { rank + 1 }
}

fn is_late(kind: Kind) -> bool
    ensures value { result ≡ is_late kind }
{
    match kind {
        Kind::LatePlanned(_) | Kind::LateDue(_) => true,
        Kind::Stamp | Kind::Range(..) | Kind::Planned | Kind::Due | Kind::DueIn(_) => false,
    }
}

/// Of each heading the first of its rows, by section and by place.
pub(crate) fn leads_of(alloc: Global, stands: &[Stand]) -> Result<BTreeMap<usize, Lead>, AllocError>
    ensures value { IfOk result (λ leads. HasLeads leads stands.now) }
{
    let mut leads = BTreeMap::new(alloc);
    for place in 0..stands.len() {
        note_lead(&mut leads, &stands[place], place)?;
    }
    Ok(leads)
}

fn note_lead(
    leads: &mut BTreeMap<usize, Lead>,
    stand: &Stand,
    place: usize,
) -> Result<(), AllocError>
    ensures value { OnOk result (Notes leads.old leads.new stand.now place) }
{
    let lead = Lead::at(stand, place);
    let is_first = match leads.get(&stand.heading) {
        Some(found) => lead.is_earlier(found),
        None => true,
    };
    if is_first {
        leads.insert(stand.heading, lead)?;
    }
    Ok(())
}

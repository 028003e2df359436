//! Rows in their sections, the notes of each line behind it.
ghost use Rattle.std.specs.Prelude.{◌≡◌, IfOk, slice_get, unwrap_or};
ghost use Rattle.std.specs.BTreeMap.{get};
ghost use Rattle.std.specs.List.Sorted.{IsPermutation};
ghost use Rattle.std.specs.Ordering.{nat_cmp};
ghost use Rattle.org_day.specs.Leads.{HasLeads};
ghost use Rattle.org_day.specs.Placed.{line_by, placed_all, placed_in};
ghost use Rattle.org_day.specs.Results.{GivesItems};

use crate::lead::{Lead, leads_of};
use crate::order::{Order, order_of};
use crate::section::section_of;
use crate::stand::Stand;
use std::alloc::{AllocError, Global};
use std::collections::BTreeMap;

/// A row in its section: the rank of the section, where its line stands there, the place of the row whose line it is in, whether
/// it is a note of that line, and its own place. They are compared in this order.
#[derive(Clone, Copy, Debug, PartialEq, Eq, PartialOrd, Ord)]
pub struct Placed {
    pub rank: u8,
    pub order: Order,
    pub line: usize,
    pub is_note: bool,
    pub place: usize,
}

/// The rows of a day by sections: each line with its notes behind it.
pub fn placed_rows(alloc: Global, stands: &[Stand]) -> Result<Vec<Placed>, AllocError>
    ensures each { IfOk result (λ placed. IsPermutation (placed_all stands.now) placed.items) }
{
    let leads = leads_of(alloc, stands)?;
    let mut placed = rows_in_lines(alloc, stands, &leads)?;
    placed.sort()?;
    Ok(placed)
}

// The rows in the order of the agenda.
fn rows_in_lines(
    alloc: Global,
    stands: &[Stand],
    leads: &BTreeMap<usize, Lead>,
) -> Result<Vec<Placed>, AllocError>
    requires leads { HasLeads leads.now stands.now }
    ensures value { GivesItems result (placed_all stands.now) }
{
    let mut placed = Vec::new(alloc);
    for place in 0..stands.len() {
        let own = &stands[place];
        let line = line_of(own, place, leads);
        placed.push(placed_at(stands, own, place, line))?;
    }
    Ok(placed)
}

// The place of the row in whose line a row stands: its own where it has a time.
fn line_of(stand: &Stand, place: usize, leads: &BTreeMap<usize, Lead>) -> usize
    ensures value { result ≡ line_by stand.now place (get nat_cmp leads.now stand.now.heading) }
{
    if section_of(stand).is_by_the_clock() {
        return place;
    }
    match leads.get(&stand.heading) {
        Some(lead) => lead.place,
        None => place,
    }
}

// A row in the line of the row at another place.
fn placed_at(stands: &[Stand], own: &Stand, place: usize, line: usize) -> Placed
    ensures value { result ≡ placed_in (unwrap_or (slice_get stands.now line) own.now) line place }
{
    let first = match stands.get(line) {
        Some(first) => first,
        None => own,
    };
    placed_in(first, line, place)
}

fn placed_in(first: &Stand, line: usize, place: usize) -> Placed
    ensures value { result ≡ placed_in first.now line place }
{
    let section = section_of(first);
    Placed {
        rank: section.rank(),
        order: order_of(first, section),
        line,
        is_note: place != line,
        place,
    }
}

//! Bars in lanes.
ghost use Rattle.std.specs.Prelude.{◌≡◌, ◌<◌, ◌≤◌, IfOk, OnOk, length, slice_index, vec_len};
ghost use Rattle.org_look.specs.FreeLanes.{free_after, free_lane, lane_of, lanes_of};
ghost use Rattle.org_look.specs.Lanes.{AreApart, Grows, IfLane};

use crate::span::Span;
use std::alloc::{AllocError, Global};

/// A lane for each bar: the first one that is free on its days, or the number of lanes where none is.
pub fn lanes_of(alloc: Global, spans: &[Span], most: usize) -> Result<Vec<usize>, AllocError>
    ensures first { IfOk result (λ lanes. lanes.items ≡ lanes_of most spans.now) }
    ensures count { IfOk result (λ lanes. vec_len lanes ≡ length spans.now) }
    ensures apart { IfOk result (λ lanes. AreApart spans.now lanes.items most) }
{
    let mut free = Vec::new(alloc);
    let mut lanes = Vec::new(alloc);
    for span in spans {
        let lane = take_lane(&mut free, span, most)?;
        lanes.push(lane)?;
    }
    Ok(lanes)
}

// Takes the first lane that is free where a bar begins, by the first free days of lanes.
fn take_lane(free: &mut Vec<usize>, span: &Span, most: usize) -> Result<usize, AllocError>
    ensures first { IfOk result (λ lane. lane ≡ lane_of most free.old.items span.now) }
    ensures next { OnOk result (free.new.items ≡ free_after most free.old.items span.now) }
    ensures free { IfLane result most (λ lane. slice_index free.old.items lane ≤ span.now.first) }
    ensures after { IfLane result most (λ lane. span.now.last < slice_index free.new.items lane) }
    ensures grows { OnOk result (Grows free.old.items free.new.items) }
{
    let lane = free_lane(free.as_slice(), span.first);
    let next = span.last + 1;
    if lane < free.len() {
        free[lane] = next;
        return Ok(lane);
    }
    if lane >= most {
        return Ok(most);
    }
    free.push(next)?;
    Ok(lane)
}

// The first lane that is free from a day on, by the first free days of lanes; their number where none is.
fn free_lane(free: &[usize], day: usize) -> usize
    ensures first { result ≡ free_lane free.now day }
    ensures within { result ≤ length free.now }
    ensures free { result < length free.now → slice_index free.now result ≤ day }
{
    for (lane, first) in free.iter().enumerate() {
        if *first <= day {
            return lane;
        }
    }
    free.len()
}

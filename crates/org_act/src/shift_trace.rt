//! Shifting dates of headings, with what Org logs of it.

use crate::act::Refusal;
use crate::lines::heading_at;
use crate::planning::Planning;
use crate::trace::{Trace, stamp_on, traced_planning};
use org_amend::TypedDate;
use org_base::{Code, Fault};
use org_cal::Day;
use org_stamp::{PlanningKeyword, Stamp, read_single};
use std::alloc::Global;

/// How far the dates of headings go on.
#[derive(Clone, Copy, Debug)]
pub struct DateShift<'a> {
    /// Whose dates they are.
    pub keyword: PlanningKeyword,
    /// How far, as `+1w` or `-3d`.
    pub distance: &'a str,
}

/// A text whose headings on some lines get dates that far from those that they have, at the same times, one after the other, with
/// what is logged of it. Where one is refused, all are; it is refused with `NoDate` where a heading has none.
pub fn traced_shifts(
    alloc: Global,
    text: &str,
    lines: &[u64],
    shift: &DateShift<'_>,
    trace: &Trace<'_>,
) -> Result<String, Refusal> {
    let mut new = String::from_str(alloc, text)?;
    for line in lines {
        match traced_shift(alloc, new.as_str(), *line, shift, trace) {
            Ok(next) => new = next,
            Err(why) => return Err(why),
        }
    }
    Ok(new)
}

// The same of one heading.
fn traced_shift(
    alloc: Global,
    text: &str,
    line: u64,
    shift: &DateShift<'_>,
    trace: &Trace<'_>,
) -> Result<String, Refusal> {
    if heading_at(text.as_bytes(), line).is_none() {
        return Err(Refusal::Fault(Fault::Plain(Code::Heading)));
    }
    let act = Planning {
        line,
        keyword: shift.keyword,
        date: Some(shifted_date(stamp_on(text, line, shift.keyword), shift.distance)?),
    };
    traced_planning(alloc, text, line, &act, trace)
}

// The date that far from that of a stamp.
fn shifted_date(stamp: &str, distance: &str) -> Result<TypedDate, Refusal> {
    match read_single(stamp.as_bytes(), 0) {
        Some((stamp, _)) => date_from(&stamp, distance),
        None => Err(Refusal::NoDate),
    }
}

fn date_from(stamp: &Stamp, distance: &str) -> Result<TypedDate, Refusal> {
    match Day::of_word(distance.as_bytes(), stamp.day) {
        Some(day) => Ok(TypedDate {
            day,
            time: stamp.time,
            end_time: stamp.end_time,
            repeater: None,
            delay: None,
        }),
        None => Err(Refusal::Fault(Fault::Plain(Code::Date))),
    }
}

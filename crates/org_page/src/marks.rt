//! The full hours of a day, and the minute that is now.
ghost use Rattle.org_page.specs.Drafts.{KeepsTitles};

use crate::draft::Lent::{Open, Pair, Tag, Text, Time, With};
use crate::draft::{Draft, with, with_property};
use std::alloc::{AllocError, Global};

/// A mark beside the boxes of a day: of a full hour, or of the minute that is now.
#[derive(Clone, Copy, PartialEq, Eq)]
pub(crate) enum Mark {
    Hour(u16),
    Now(u16),
}

impl Mark {
    // Whether it stands before a box that begins in this minute: hours before what begins with them, now after it.
    fn is_before(self, minute: u16) -> bool {
        match self {
            Mark::Hour(own) => own <= minute,
            Mark::Now(own) => own < minute,
        }
    }
}

/// The marks of the full hours from one to another, with that of now, if it is between them, in the order of time.
pub(crate) fn marks_of(
    alloc: Global,
    first: u16,
    last: u16,
    now: u16,
) -> Result<Vec<Mark>, AllocError> {
    let mut marks = Vec::new(alloc);
    for hour in first / 60..=last.min(MOST) / 60 {
        let minute = hour * 60;
        marks.push(Mark::Hour(minute))?;
        if minute <= now && now < minute + 60 && now < last {
            marks.push(Mark::Now(now))?;
        }
    }
    Ok(marks)
}

// The last minute that has a mark.
const MOST: u16 = 24 * 60;

/// Puts the marks from one on that stand before a box that begins in this minute; gives the place of the first one after them.
pub(crate) fn put_marks(
    draft: &mut Draft,
    marks: &[Mark],
    from: usize,
    minute: u16,
) -> Result<usize, AllocError>
    ensures titles { KeepsTitles result draft.old draft.new }
{
    for place in from..marks.len() {
        if place < marks.len() {
            if !marks[place].is_before(minute) {
                return Ok(place);
            }
            put_mark(draft, marks[place])?;
        }
    }
    Ok(marks.len())
}

fn put_mark(draft: &mut Draft, mark: Mark) -> Result<(), AllocError>
    ensures titles { KeepsTitles result draft.old draft.new }
{
    match mark {
        Mark::Hour(minute) => put_hour(draft, minute),
        Mark::Now(minute) => put_now(draft, minute),
    }
}

fn put_hour(draft: &mut Draft, minute: u16) -> Result<(), AllocError>
    ensures titles { KeepsTitles result draft.old draft.new }
{
    let givens = [
        with("class", "hour"),
        with_property("--from", u64::from(minute)),
        with("aria-hidden", "true"),
    ];
    draft.put(&[Open("li", &givens), Time(minute % MOST), Tag("/li")])
}

fn put_now(draft: &mut Draft, minute: u16) -> Result<(), AllocError>
    ensures titles { KeepsTitles result draft.old draft.new }
{
    draft.put(&[
        Pair(
            "li",
            with("class", "now"),
            with_property("--from", u64::from(minute)),
        ),
        Tag("span"),
        Time(minute),
        With("span", "class", "hidden"),
        Text(" now"),
        Tag("/span"),
        Tag("/span"),
        Tag("/li"),
    ])
}

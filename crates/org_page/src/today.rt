//! Today by its hours.
ghost use Rattle.std.specs.Prelude.{◌∷◌, []};
ghost use Rattle.org_page.specs.Days.{boxes_titles, today_titles};
ghost use Rattle.org_page.specs.Drafts.{AddsTitles, KeepsTitles};
ghost use Rattle.org_page.specs.Rows.{row_title, rows_titles};

use crate::coming::put_day_of;
use crate::day::{Boxed, Today};
use crate::draft::Lent::{Open, Pair, Tag, Text, Time, With};
use crate::draft::{Draft, Given, Value, with, with_word};
use crate::heading::{put_heading, put_sign, put_start, put_time_begin};
use crate::marks::{Mark, marks_of, put_marks};
use crate::row::{Row, Stand, class_of, color_class};
use crate::rows::{Form, put_listed};
use std::alloc::AllocError;

/// Puts today: rows without hours above, the others by their hours.
pub(crate) fn put_today(draft: &mut Draft, today: &Today) -> Result<(), AllocError>
    ensures titles { AddsTitles result draft.old draft.new (today_titles today.now) }
{
    draft.put(&[
        Tag("section"),
        With("h2", "id", "today"),
        Text("Today"),
        Tag("/h2"),
    ])?;
    put_whole(draft, today.whole.as_slice(), "All day")?;
    put_day(draft, today)?;
    put_whole(draft, today.beside.as_slice(), "Beside these")?;
    draft.put(&[Tag("/section")])
}

// Puts rows one below the other, if there are any.
fn put_whole(draft: &mut Draft, rows: &[Row], name: &str) -> Result<(), AllocError>
    ensures titles { AddsTitles result draft.old draft.new (rows_titles rows.now) }
{
    let begin = Pair("ul", with("class", "whole"), with("aria-label", name));
    put_listed(draft, begin, rows, Form::Today)
}

/// Puts a row of today that has no box.
pub(crate) fn put_row(draft: &mut Draft, row: &Row) -> Result<(), AllocError>
    ensures titles { AddsTitles result draft.old draft.new (row_title row.now ∷ []) }
{
    draft.put(&[With("li", "class", color_class(row.color))])?;
    put_front(draft, row)?;
    put_heading(draft, row)?;
    draft.put(&[Tag("/li")])
}

// Puts a row's day of a range, or its time, and its sign.
fn put_front(draft: &mut Draft, row: &Row) -> Result<(), AllocError>
    ensures titles { KeepsTitles result draft.old draft.new }
{
    if let Stand::Range(day, of) = row.stand {
        return put_day_of(draft, day, of);
    }
    put_start(draft, row)?;
    put_sign(draft, row)
}

// Puts boxes and the marks of hours in the order of time.
fn put_day(draft: &mut Draft, today: &Today) -> Result<(), AllocError>
    ensures titles { AddsTitles result draft.old draft.new (boxes_titles today.now.boxes.items) }
{
    let boxes = today.boxes.as_slice();
    let frame = Frame::of(boxes);
    put_day_begin(draft, &frame)?;
    let marks = marks_of(draft.alloc(), frame.first, frame.last, today.minute)?;
    put_boxes(draft, boxes, marks.as_slice())?;
    draft.put(&[Tag("/ol"), Tag("/div")])
}

fn put_day_begin(draft: &mut Draft, frame: &Frame) -> Result<(), AllocError>
    ensures titles { KeepsTitles result draft.old draft.new }
{
    let (first, last, lanes) = (frame.first, frame.last, frame.lanes);
    let style = format!(in draft.alloc(); "--first:{first};--last:{last};--most:{lanes}")?;
    draft.put(&[
        Open("div", &SCROLL),
        Pair("ol", with("class", "hours"), with("style", style.as_str())),
    ])
}

// The attributes of the part of a page in which a day with many lanes scrolls.
static SCROLL: [Given<'static>; 4] = [
    Given {
        name: "class",
        value: Value::Plain("scroll"),
    },
    Given {
        name: "role",
        value: Value::Plain("region"),
    },
    Given {
        name: "aria-label",
        value: Value::Plain("Today by its hours"),
    },
    Given {
        name: "tabindex",
        value: Value::Plain("0"),
    },
];

// From which full hour to which the hours of a day go, by their minutes, and how many lanes its boxes take.
#[derive(Clone, Copy)]
struct Frame {
    first: u16,
    last: u16,
    lanes: usize,
}

impl Frame {
    // From 8 o'clock, or where the first box begins, to 18 o'clock, or where the last one ends.
    fn of(boxes: &[Boxed]) -> Frame {
        let mut frame = Frame {
            first: FIRST,
            last: LAST,
            lanes: 1,
        };
        for boxed in boxes {
            frame = Frame {
                first: frame.first.min(boxed.from),
                last: frame.last.max(boxed.to),
                lanes: frame.lanes.max(boxed.lanes),
            };
        }
        Frame {
            first: frame.first / 60 * 60,
            last: (frame.last.min(DAY) + 59) / 60 * 60,
            lanes: frame.lanes,
        }
    }
}

const FIRST: u16 = 8 * 60;

const LAST: u16 = 18 * 60;

const DAY: u16 = 24 * 60;

fn put_boxes(draft: &mut Draft, boxes: &[Boxed], marks: &[Mark]) -> Result<(), AllocError>
    ensures titles { AddsTitles result draft.old draft.new (boxes_titles boxes.now) }
{
    let mut next = 0;
    for boxed in boxes {
        next = put_marks(draft, marks, next, boxed.from)?;
        put_box(draft, boxed)?;
    }
    let _ = put_marks(draft, marks, next, u16::MAX)?;
    Ok(())
}

fn put_box(draft: &mut Draft, boxed: &Boxed) -> Result<(), AllocError>
    ensures titles { AddsTitles result draft.old draft.new (row_title boxed.now.row ∷ []) }
{
    put_box_begin(draft, boxed)?;
    put_hours(draft, &boxed.row)?;
    put_sign(draft, &boxed.row)?;
    put_heading(draft, &boxed.row)?;
    draft.put(&[Tag("/li")])
}

fn put_box_begin(draft: &mut Draft, boxed: &Boxed) -> Result<(), AllocError>
    ensures titles { KeepsTitles result draft.old draft.new }
{
    let (from, to) = (boxed.from, boxed.to);
    let (lane, lanes) = (boxed.lane, boxed.lanes);
    let style = format!(in draft.alloc(); "--from:{from};--to:{to};--lane:{lane};--lanes:{lanes}")?;
    draft.put(&[Pair(
        "li",
        with_word("class", class_of(&ENTRIES, boxed.row.color)),
        with("style", style.as_str()),
    )])
}

// The classes of the files' colors on boxes.
const ENTRIES: [&str; 6] = [
    "entry c0", "entry c1", "entry c2", "entry c3", "entry c4", "entry c5",
];

// Puts from when to when a row goes, with a space behind it.
fn put_hours(draft: &mut Draft, row: &Row) -> Result<(), AllocError>
    ensures titles { KeepsTitles result draft.old draft.new }
{
    let Some(hours) = row.time else {
        return Ok(());
    };
    put_time_begin(draft, hours.start)?;
    match hours.end {
        Some(end) => draft.put(&[Text("–"), Time(end), Tag("/time"), Text(" ")]),
        None => draft.put(&[Tag("/time"), Text(" ")]),
    }
}

//! A day by its half hours.

use crate::fill::{cut, fill_text};
use crate::lanes::lanes_of;
use crate::overlap::{HALF_HOURS, lane_counts};
use crate::sheet::{Sheet, Tone};
use crate::sign::Signs;
use crate::span::Span;
use std::alloc::{AllocError, Global};

/// A row with a time: the half hours that it touches, its text, and its colour.
#[derive(Debug, Drop)]
pub struct Timed {
    pub span: Span,
    pub label: String,
    pub tone: Tone,
}

/// How a day is drawn: in how many columns, with which signs, and the minute of the day that is now, if it is the day's.
#[derive(Clone, Copy, Debug)]
pub struct DayLook {
    pub columns: usize,
    pub signs: Signs,
    pub now: Option<u16>,
}

// The columns in front of the lanes, and the fewest of a lane.
const FRONT: usize = 8;

const LEAST_LANE: usize = 12;

// The half hours that are shown where no row asks for more, from 8 to 18 o'clock.
const FIRST: usize = 16;

const END: usize = 36;

/// Appends a day's half hours, each in a line, those from 8 to 18 o'clock and as far as rows go. Rows that touch a common half
/// hour stand beside one another in lanes of equal width. Gives the places of rows that have no lane.
pub fn push_hours(
    alloc: Global,
    out: &mut Sheet,
    rows: &[Timed],
    look: &DayLook,
) -> Result<Vec<usize>, AllocError> {
    let spans = spans_of(alloc, rows)?;
    let room = look.columns.saturating_sub(FRONT);
    let most = (room / LEAST_LANE).max(1);
    let lanes = lanes_of(alloc, spans.as_slice(), most)?;
    let counts = lane_counts(alloc, spans.as_slice(), lanes.as_slice(), most)?;
    let hours = Hours {
        rows,
        lanes: lanes.as_slice(),
        counts: counts.as_slice(),
        room,
        look,
    };
    hours.push(alloc, out)?;
    without_lane(alloc, lanes.as_slice(), most)
}

fn spans_of(alloc: Global, rows: &[Timed]) -> Result<Vec<Span>, AllocError> {
    rows.iter().map(|row| row.span).collect(alloc)
}

fn without_lane(alloc: Global, lanes: &[usize], most: usize) -> Result<Vec<usize>, AllocError> {
    let mut places = Vec::new(alloc);
    for (place, lane) in lanes.iter().enumerate() {
        if *lane >= most {
            places.push(place)?;
        }
    }
    Ok(places)
}

// The rows of a day with their lanes, and the lanes of each half hour.
#[derive(Clone, Copy)]
struct Hours<'a, 'b, 'c, 'd> {
    rows: &'a [Timed],
    lanes: &'b [usize],
    counts: &'c [usize],
    room: usize,
    look: &'d DayLook,
}

impl Hours<'_, '_, '_, '_> {
    fn push(&self, alloc: Global, out: &mut Sheet) -> Result<(), AllocError> {
        for half_hour in 0..HALF_HOURS {
            if self.is_shown(half_hour) {
                self.push_now(out, half_hour)?;
                self.push_half_hour(alloc, out, half_hour)?;
            }
        }
        Ok(())
    }

    fn is_shown(&self, half_hour: usize) -> bool {
        let before = self
            .counts
            .iter()
            .take(half_hour.saturating_add(1))
            .any(|count| *count > 0);
        let after = self.counts.iter().skip(half_hour).any(|count| *count > 0);
        (half_hour >= FIRST || before) && (half_hour < END || after)
    }

    // Appends the line of the moment, in the half hour that holds it.
    fn push_now(&self, out: &mut Sheet, half_hour: usize) -> Result<(), AllocError> {
        let Some(now) = self.look.now else {
            return Ok(());
        };
        if usize::from(now / 30) != half_hour {
            return Ok(());
        }
        let (sign, line) = match self.look.signs {
            Signs::Drawn => ('▶', '╌'),
            Signs::Ascii => ('>', '-'),
        };
        let first = out.text.len();
        write!(out.text, " {:02}:{:02} {sign}", now / 60, now % 60)?;
        for _column in 4..self.room {
            out.text.push(line)?;
        }
        out.text.push_str(" now")?;
        out.stain(first, Tone::Strong)?;
        out.text.push('\n')
    }

    fn push_half_hour(
        &self,
        alloc: Global,
        out: &mut Sheet,
        half_hour: usize,
    ) -> Result<(), AllocError> {
        if half_hour % 2 == 0 {
            write!(out.text, " {:02}:00  ", half_hour / 2)?;
        } else {
            out.text.push_str("        ")?;
        }
        match self.counts.get(half_hour) {
            Some(count) if *count > 0 => self.push_lanes(alloc, out, half_hour, *count)?,
            _ => self.push_empty(out, half_hour)?,
        }
        out.trim();
        out.text.push('\n')
    }

    fn push_empty(&self, out: &mut Sheet, half_hour: usize) -> Result<(), AllocError> {
        if half_hour % 2 > 0 {
            return Ok(());
        }
        let dot = match self.look.signs {
            Signs::Drawn => '┈',
            Signs::Ascii => '.',
        };
        let first = out.text.len();
        for _column in 0..self.room {
            out.text.push(dot)?;
        }
        out.stain(first, Tone::Faint)
    }

    fn push_lanes(
        &self,
        alloc: Global,
        out: &mut Sheet,
        half_hour: usize,
        count: usize,
    ) -> Result<(), AllocError> {
        let width = self.room / count.max(1);
        for lane in 0..count {
            let row = self.row_at(half_hour, lane);
            let text = self.text_at(alloc, half_hour, row)?;
            let text = cut(
                alloc,
                text.as_str(),
                width.saturating_sub(1),
                self.look.signs,
            )?;
            let strip = fill_text(alloc, text.as_str(), width.max(1), self.look.signs)?;
            out.push_strip(&strip.in_tone(tone_of(row))?)?;
        }
        Ok(())
    }

    // The row that a lane has in a half hour.
    fn row_at(&self, half_hour: usize, lane: usize) -> Option<&Timed> {
        for (row, own) in self.rows.iter().zip(self.lanes) {
            if *own == lane && row.span.first <= half_hour && half_hour <= row.span.last {
                return Some(row);
            }
        }
        None
    }

    // What a lane has in a half hour: a row where it begins, and a stroke where it goes on.
    fn text_at(
        &self,
        alloc: Global,
        half_hour: usize,
        row: Option<&Timed>,
    ) -> Result<String, AllocError> {
        let mut text = String::new(alloc);
        let Some(row) = row else {
            return Ok(text);
        };
        text.push_str(stroke(self.look.signs))?;
        if row.span.first == half_hour {
            text.push(' ')?;
            text.push_str(row.label.as_str())?;
        }
        Ok(text)
    }
}

fn tone_of(row: Option<&Timed>) -> Tone {
    match row {
        Some(row) => row.tone,
        None => Tone::Plain,
    }
}

fn stroke(signs: Signs) -> &'static str {
    match signs {
        Signs::Drawn => "┃",
        Signs::Ascii => "|",
    }
}

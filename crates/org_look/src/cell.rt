//! Cells of days.
ghost use Rattle.std.specs.Prelude.{◌≡◌, ◌≤◌, []};
ghost use Rattle.org_look.specs.CellLines.{label_at, line_of_cell, note_at, others_text};
ghost use Rattle.org_look.specs.Cells.{content_of, foot_of};
ghost use Rattle.org_look.specs.Cuts.{filled_text, is_narrow, row_text};
ghost use Rattle.org_look.specs.Gives.{GivesStrip, GivesWide};

use crate::fill::{cut, fill_front, fill_text};
use crate::sheet::Tone;
use crate::sign::Signs;
use crate::strip::Strip;
use std::alloc::{AllocError, Global};

/// How the lines of a cell are shared out: the lanes of bars, the rows that are shown, the number of all others, the notes at
/// the foot, and all lines of the week below its days' numbers.
#[derive(Clone, Copy, Debug, PartialEq, Eq)]
pub struct Shape {
    pub lanes: usize,
    pub shown: usize,
    pub left: usize,
    pub notes: usize,
    pub height: usize,
}

/// What a line of a cell shows: a row or a note by its place, the number of all others, or nothing.
#[derive(Clone, Copy, Debug, PartialEq, Eq)]
pub enum Content {
    Row(usize),
    Others,
    Note(usize),
    Blank,
}

impl Shape {
    /// What a line of the cell shows.
    pub fn content(&self, place: usize) -> Content
        ensures value { result ≡ content_of self.now place }
    {
        if place < self.lanes {
            return self.foot(place);
        }
        let own = place - self.lanes;
        if own < self.shown {
            Content::Row(own)
        } else if own == self.shown && 0 < self.left {
            Content::Others
        } else {
            self.foot(place)
        }
    }

    fn foot(&self, place: usize) -> Content
        ensures value { result ≡ foot_of self.now place }
    {
        if place < self.height && self.height - place <= self.notes {
            Content::Note(self.notes - (self.height - place))
        } else {
            Content::Blank
        }
    }

    /// How many lines the cell takes below its number.
    pub fn lines(&self) -> usize {
        let others = usize::from(0 < self.left);
        self.lanes
            .saturating_add(self.shown)
            .saturating_add(others)
            .saturating_add(self.notes)
    }
}

/// How many rows stand on a day without being of it, and their colour.
#[derive(Debug, Drop)]
pub struct Note {
    pub text: String,
    pub tone: Tone,
}

/// The cell of a day: its number with its colour, the labels of its rows with theirs, and the notes at its foot.
#[derive(Debug, Drop)]
pub struct Cell {
    pub number: String,
    pub tone: Tone,
    pub labels: Vec<String>,
    pub tones: Vec<Tone>,
    pub notes: Vec<Note>,
    pub shape: Shape,
}

impl Cell {
    /// A cell of no day.
    pub fn empty(alloc: Global) -> Cell
        ensures { result.labels.items ≡ [] }
    {
        Cell {
            number: String::new(alloc),
            tone: Tone::Plain,
            labels: Vec::new(alloc),
            tones: Vec::new(alloc),
            notes: Vec::new(alloc),
            shape: Shape {
                lanes: 0,
                shown: 0,
                left: 0,
                notes: 0,
                height: 0,
            },
        }
    }

    /// The number of the day, in so many columns.
    pub fn head(&self, alloc: Global, columns: usize, signs: Signs) -> Result<Strip, AllocError>
        requires room { 2 ≤ columns }
        ensures wide { GivesWide result columns }
    {
        fill_text(alloc, self.number.as_str(), columns, signs)?.in_tone(self.tone)
    }

    /// A line of the cell in so many columns.
    pub fn strip(
        &self,
        alloc: Global,
        place: usize,
        columns: usize,
        signs: Signs,
    ) -> Result<Strip, AllocError>
        requires room { 2 ≤ columns }
        ensures text { GivesStrip result (line_of_cell signs columns self.now place) }
        ensures wide { GivesWide result columns }
    {
        match self.shape.content(place) {
            Content::Row(row) => self.row(alloc, row, columns, signs),
            Content::Note(note) => self.note(alloc, note, columns, signs),
            Content::Others => others_strip(alloc, self.shape.left, columns, signs),
            Content::Blank => fill_text(alloc, "", columns, signs),
        }
    }

    fn row(
        &self,
        alloc: Global,
        place: usize,
        columns: usize,
        signs: Signs,
    ) -> Result<Strip, AllocError>
        requires room { 2 ≤ columns }
        ensures text { GivesStrip result (row_text signs columns (label_at self.now place)) }
        ensures wide { GivesWide result columns }
    {
        let label = match self.labels.get(place) {
            Some(label) => label.as_str(),
            None => "",
        };
        let tone = self.tones.get(place).copied().unwrap_or(Tone::Plain);
        row_strip(alloc, label, columns, signs)?.in_tone(tone)
    }

    fn note(
        &self,
        alloc: Global,
        place: usize,
        columns: usize,
        signs: Signs,
    ) -> Result<Strip, AllocError>
        requires room { 2 ≤ columns }
        ensures text { GivesStrip result (filled_text signs columns (note_at self.now place)) }
        ensures wide { GivesWide result columns }
    {
        match self.notes.get(place) {
            Some(note) => fill_text(alloc, note.text.as_str(), columns, signs)?.in_tone(note.tone),
            None => fill_text(alloc, "", columns, signs),
        }
    }
}

/// Whether a cell of so many columns has no room for a space behind a row, nor for the sign of a cut.
pub fn is_narrow(columns: usize) -> bool
    ensures value { result ≡ is_narrow columns }
{
    columns <= 10
}

// A label, with a space behind it; in a narrow cell as much of it as there is room for.
fn row_strip(alloc: Global, label: &str, columns: usize, signs: Signs) -> Result<Strip, AllocError>
    requires room { 2 ≤ columns }
    ensures value { GivesStrip result (row_text signs columns label.now) }
    ensures wide { GivesWide result columns }
{
    if is_narrow(columns) {
        return fill_front(alloc, label, columns);
    }
    let label = cut(alloc, label, columns - 1, signs)?;
    fill_text(alloc, label.as_str(), columns, signs)
}

fn others_strip(
    alloc: Global,
    left: usize,
    columns: usize,
    signs: Signs,
) -> Result<Strip, AllocError>
    requires room { 2 ≤ columns }
    ensures text { GivesStrip result (filled_text signs columns (others_text left)) }
    ensures wide { GivesWide result columns }
{
    let text = format!(in alloc; "+{left} more")?;
    fill_text(alloc, text.as_str(), columns, signs)?.in_tone(Tone::Faint)
}

//! The columns of a day.

use crate::note::note_of;
use crate::page::{DayHead, DayLook};
use crate::placed::Placed;
use crate::stand::{Kind, Stand};
use crate::words::{DayRows, Words};
use std::alloc::{AllocError, Global};
use unicode_width::UnicodeWidthStr;

/// How much a line has room for.
#[derive(Clone, Copy, PartialEq, Eq)]
pub(crate) enum Breadth {
    Narrow,
    Middle,
    Wide,
}

/// How many columns a line has, and its parts.
#[derive(Clone, Copy)]
pub(crate) struct Columns {
    pub(crate) breadth: Breadth,
    pub(crate) whole: usize,
    pub(crate) when: usize,
    pub(crate) category: usize,
    pub(crate) keyword: usize,
    pub(crate) priority: usize,
    pub(crate) path: usize,
    pub(crate) effort: usize,
    pub(crate) tags: usize,
}

// The fewest and the most columns for which lines are made, and where more stands in them.
const LEAST: usize = 60;

const MIDDLE: usize = 72;

const WIDE: usize = 100;

const MOST: usize = 132;

// The fewest columns of lines that are made for a wide terminal, and the most of a title that they are made for.
const LEAST_WIDE: usize = 88;

const LONGEST_TITLE: usize = 60;

impl Columns {
    /// Those of a day on a terminal.
    pub(crate) fn of(
        alloc: Global,
        rows: &DayRows,
        placed: &[Placed],
        head: &DayHead<'_>,
        look: &DayLook,
    ) -> Result<Columns, AllocError> {
        let outer = look.columns.max(LEAST).min(MOST);
        let breadth = breadth_of(outer);
        let widest = Widest::of(rows.words.as_slice());
        let when = when_columns(rows.stands.as_slice(), breadth);
        let mut columns = widest.columns(breadth, outer, when);
        if breadth == Breadth::Wide {
            let title = title_columns(alloc, rows, placed, head, look)?;
            let parts = [
                columns.before_title(),
                title.min(LONGEST_TITLE),
                columns.behind(),
            ];
            columns.whole = sum_of(parts.as_slice()).max(LEAST_WIDE).min(outer);
        }
        Ok(columns)
    }

    /// The columns in front of a title that has all before it.
    fn before_title(&self) -> usize {
        let parts = [
            2,
            self.when,
            2,
            gap(self.category, 2),
            gap(self.keyword, 1),
            gap(self.priority, 1),
        ];
        sum_of(parts.as_slice())
    }

    /// The columns behind a title, where they are the same in each line.
    pub(crate) fn behind(&self) -> usize {
        let parts = [gap(self.path, 2), gap(self.effort, 2), gap(self.tags, 2)];
        sum_of(parts.as_slice())
    }

    /// Whether what is behind titles stands in columns of its own.
    pub(crate) fn is_fixed(&self) -> bool {
        self.path > 0 || self.effort > 0
    }
}

// The columns of a part with those between it and the next one.
pub(crate) fn gap(columns: usize, between: usize) -> usize {
    if columns == 0 {
        0
    } else {
        columns.saturating_add(between)
    }
}

fn sum_of(parts: &[usize]) -> usize {
    let mut sum: usize = 0;
    for part in parts {
        sum = sum.saturating_add(*part);
    }
    sum
}

fn breadth_of(columns: usize) -> Breadth {
    if columns < MIDDLE {
        Breadth::Narrow
    } else if columns < WIDE {
        Breadth::Middle
    } else {
        Breadth::Wide
    }
}

// The columns of when a row is: one more where a row with an end has a mark behind it.
fn when_columns(stands: &[Stand], breadth: Breadth) -> usize {
    match breadth {
        Breadth::Narrow => 7,
        Breadth::Middle | Breadth::Wide => {
            if stands.iter().any(has_end_and_mark) {
                13
            } else {
                12
            }
        }
    }
}

fn has_end_and_mark(stand: &Stand) -> bool {
    let is_marked = matches!(stand.kind, Kind::Planned | Kind::Due);
    is_marked && stand.hours.is_some_and(|hours| hours.end.is_some())
}

// The columns of the widest words of all rows, each at most as many as it may take.
#[derive(Clone, Copy)]
struct Widest {
    category: usize,
    keyword: usize,
    priority: usize,
    path: usize,
    effort: usize,
    tags: usize,
}

impl Widest {
    fn of(words: &[Words]) -> Widest {
        let mut widest = Widest {
            category: 0,
            keyword: 0,
            priority: 0,
            path: 0,
            effort: 0,
            tags: 0,
        };
        for row in words {
            widest.note(row);
        }
        widest
    }

    fn note(&mut self, row: &Words) {
        self.category = wider(self.category, row.category.as_str(), 10);
        self.keyword = wider(self.keyword, row.keyword.as_str(), 6);
        self.priority = wider(self.priority, row.priority.as_str(), 2);
        self.path = wider(self.path, row.path.as_str(), 28);
        self.effort = wider(self.effort, row.effort.as_str(), 7);
        self.tags = wider(self.tags, row.tags.as_str(), 24);
    }

    fn columns(&self, breadth: Breadth, whole: usize, when: usize) -> Columns {
        let is_narrow = breadth == Breadth::Narrow;
        let is_wide = breadth == Breadth::Wide;
        let priority = gap(self.priority, 1);
        let effort = if self.effort == 0 {
            0
        } else {
            self.effort.max(5)
        };
        Columns {
            breadth,
            whole,
            when,
            category: if is_narrow { 0 } else { self.category },
            keyword: if is_narrow {
                self.keyword.min(4)
            } else {
                self.keyword
            },
            priority,
            path: if is_wide { self.path } else { 0 },
            effort: if is_wide { effort } else { 0 },
            tags: match breadth {
                Breadth::Narrow => 0,
                Breadth::Middle => self.tags.min(14),
                Breadth::Wide => self.tags,
            },
        }
    }
}

// The columns of a text, or those of others where these are more, and no more than are named.
fn wider(others: usize, text: &str, most: usize) -> usize {
    others.max(text.width().min(most))
}

// The columns of the widest title with its note.
fn title_columns(
    alloc: Global,
    rows: &DayRows,
    placed: &[Placed],
    head: &DayHead<'_>,
    look: &DayLook,
) -> Result<usize, AllocError> {
    let mut widest: usize = 0;
    for (place, row) in placed.iter().enumerate() {
        if !row.is_note {
            let note = note_of(alloc, rows, line_at(placed, place), head, look.signs)?;
            let title = title_at(rows, row.place).width();
            widest = widest.max(title.saturating_add(note.as_str().width()));
        }
    }
    Ok(widest)
}

fn title_at(rows: &DayRows, place: usize) -> &str {
    match rows.words.as_slice().get(place) {
        Some(words) => words.title(),
        None => "",
    }
}

/// The rows of the line that begins at a place: itself, and the notes behind it.
pub(crate) fn line_at(placed: &[Placed], place: usize) -> &[Placed] {
    let behind = match placed.get(place..) {
        Some(behind) => behind,
        None => return &[],
    };
    let mut count: usize = 0;
    for row in behind {
        if count > 0 && !row.is_note {
            break;
        }
        count = count.saturating_add(1);
    }
    match behind.split_at_checked(count) {
        Some((line, _)) => line,
        None => behind,
    }
}

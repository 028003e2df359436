//! Rows as pictures show them.
ghost use Rattle.std.specs.Prelude.{◌≡◌, ◌+◌, ◌^◌, ◌<◌, IfOk, map, string_bytes};
ghost use Rattle.org_look.specs.Entries.{is_own, left_count, own_labels, shown_count};

use crate::sheet::Tone;
use std::alloc::{AllocError, Global};

/// How a row stands on its day.
#[derive(Clone, Copy, Debug, PartialEq, Eq)]
pub enum Stand {
    /// It is of the day.
    Own,
    /// The day is one of a range: which one, from 1, and of how many.
    Range(u32, u32),
    /// Its day has passed, so it stands on today without being of that day.
    Late,
    /// Its deadline comes near, so it stands on today.
    Soon,
}

/// A row of a day: how it stands there, what is shown of it, and in which colour.
#[derive(Debug, Drop)]
pub struct Entry {
    pub stand: Stand,
    pub label: String,
    pub tone: Tone,
}

impl Entry {
    // Whether the cell of the day holds it.
    fn is_own(&self) -> bool
        ensures { result ≡ is_own self.now }
    {
        match self.stand {
            Stand::Own => true,
            Stand::Range(..) | Stand::Late | Stand::Soon => false,
        }
    }
}

/// The labels of the rows that the cell of a day holds.
pub fn own_labels(alloc: Global, entries: &[Entry]) -> Result<Vec<String>, AllocError>
    ensures value { IfOk result (λ labels. map string_bytes labels.items ≡ own_labels entries.now) }
{
    let mut labels = Vec::new(alloc);
    for entry in entries {
        if entry.is_own() {
            let label = copy(alloc, entry.label.as_str())?;
            labels.push(label)?;
        }
    }
    Ok(labels)
}

/// The colours of these rows.
pub(crate) fn own_tones(alloc: Global, entries: &[Entry]) -> Result<Vec<Tone>, AllocError> {
    let mut tones = Vec::new(alloc);
    for entry in entries {
        if entry.is_own() {
            tones.push(entry.tone)?;
        }
    }
    Ok(tones)
}

// A text of its own.
pub(crate) fn copy(alloc: Global, text: &str) -> Result<String, AllocError>
    ensures { IfOk result (λ copy. string_bytes copy ≡ text.now) }
{
    let mut copy = String::new(alloc);
    copy.push_str(text)?;
    Ok(copy)
}

/// What a cell shows: of how many rows, and the number of all others and of bars that have no line.
#[derive(Clone, Copy, Debug, PartialEq, Eq)]
pub struct Share {
    pub shown: usize,
    pub left: usize,
}

impl Share {
    /// The share of a cell that has so many rows, so many bars without a line, and room for so many lines.
    pub fn of(count: usize, bars: u32, room: usize) -> Share
        requires fits { count < 2 ^ 63 }
        ensures rows { result.shown ≡ shown_count count bars room }
        ensures others { result.left ≡ left_count count bars room }
    {
        let shown = if bars == 0 && count <= room {
            count
        } else {
            count.min(room.saturating_sub(1))
        };
        Share {
            shown,
            left: count - shown + bars as usize,
        }
    }
}

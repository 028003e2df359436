//! Changes of a text, as the protocol tells them.
ghost use Rattle.orgls_text.specs.Documents.{change_behind, changed, with_range};
ghost use Rattle.orgls_text.specs.Outcomes.{Becomes, Leaves};

use crate::offset::offset_of;
use crate::position::{Position, PositionEncoding};
use org_base::{Code, Fault};
use org_text::{Text, Whole};
use std::alloc::Global;

/// A part of a text, from the first position up to the second.
#[derive(Clone, Copy, Debug, PartialEq, Eq)]
pub struct Range {
    pub start: Position,
    pub end: Position,
}

impl Range {
    /// In front of a text.
    pub fn front() -> Range {
        let front = Position {
            line: 0,
            character: 0,
        };
        Range {
            start: front,
            end: front,
        }
    }
}

/// A change: what stands in the range is replaced by the text, and all where there is no range.
#[derive(Debug, Drop)]
pub struct ContentChange {
    pub range: Option<Range>,
    pub text: String,
}

// The text behind some changes, each made in what those before it leave. `Range` where one ends before it begins, and `Size`
// where one leaves too much.
pub(crate) fn behind_changes(
    alloc: Global,
    encoding: PositionEncoding,
    text: &Whole,
    changes: &[ContentChange],
) -> Result<Whole, Fault>
    ensures value { Becomes (changed encoding changes.now text.now) result }
{
    let mut new = text.share()?;
    for change in changes {
        make(alloc, encoding, &mut new, change)?;
    }
    Ok(new)
}

// Makes a change.
fn make(
    alloc: Global,
    encoding: PositionEncoding,
    text: &mut Whole,
    change: &ContentChange,
) -> Result<(), Fault>
    ensures value { Leaves (change_behind encoding change.now text.old) text.new result }
{
    match change.range {
        None => {
            *text = Whole::of(alloc, change.text.as_str())?;
            Ok(())
        }
        Some(range) => replace(encoding, text, range, change.text.as_str()),
    }
}

// Replaces what stands in a range.
fn replace(
    encoding: PositionEncoding,
    text: &mut Whole,
    range: Range,
    ins: &str,
) -> Result<(), Fault>
    ensures value { Leaves (with_range encoding text.old range ins.now) text.new result }
{
    if range.start.is_beyond(range.end) {
        return Err(Fault::Plain(Code::Range));
    }
    // For the proof alone: its contract says that the text is UTF-8.
    let _len = text.len();
    let bytes = text.piece_at(0);
    let start = offset_of(bytes, encoding, range.start);
    let end = offset_of(bytes, encoding, range.end);
    text.edit(start as u64, end.saturating_sub(start) as u64, ins)
}

//! Bars, and the places that they take.
ghost use Rattle.std.specs.Prelude.{◌^◌, ◌<◌, ◌≤◌};

use crate::sheet::Tone;

/// Places that a bar takes, from 0: days of a week, or half hours or minutes of a day.
#[derive(Clone, Copy, Debug)]
pub struct Span {
    pub first: usize,
    pub last: usize,
    pub ghost forward: { first ≤ last },
    pub ghost within: { last < 2 ^ 16 },
}

/// A range within one week: its days, whether it comes from the week before and goes on in the next, its label, and its colour.
#[derive(Debug, Drop)]
pub struct Bar {
    pub span: Span,
    pub is_begun: bool,
    pub goes_on: bool,
    pub label: String,
    pub tone: Tone,
    pub ghost week: { span.last < 7 },
}

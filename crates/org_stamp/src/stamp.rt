//! Stamps and their places.

use crate::mark::{Delay, Repeater};
use org_cal::{Day, TimeOfDay};

/// A timestamp or a range of two (Org manual 9.6, "Timestamps"). The name of the day isn't kept.
#[derive(Clone, Copy, Debug, PartialEq, Eq)]
pub struct Stamp {
    /// In `<>`, and not in `[]`.
    pub active: bool,
    pub day: Day,
    /// The time of day, or the start of a time range.
    pub time: Option<TimeOfDay>,
    /// The end of a time range, which may lie before its start.
    pub end_time: Option<TimeOfDay>,
    pub repeater: Option<Repeater>,
    pub delay: Option<Delay>,
    /// Of a range the second day and its start; whatever else the second stamp has is dropped (profile).
    pub last: Option<(Day, Option<TimeOfDay>)>,
}

/// A stamp of a line: the place of its first byte, its length in bytes, and what it says.
#[derive(Clone, Copy, Debug, PartialEq, Eq)]
pub struct Found {
    pub at: usize,
    pub len: usize,
    pub stamp: Stamp,
}

//! Days as pictures show them.

use crate::entry::Entry;
use crate::sheet::Tone;

/// A day of a picture: its number in a cell, its name above a list, its number in its month, whether it is today and one of
/// the month that is shown, and its rows.
#[derive(Debug, Drop)]
pub struct GridDay {
    pub number: String,
    pub name: String,
    pub of_month: u8,
    pub is_today: bool,
    pub is_of_month: bool,
    pub entries: Vec<Entry>,
}

impl GridDay {
    /// The colour of its number.
    pub fn tone(&self) -> Tone {
        if self.is_today {
            Tone::Today
        } else if self.is_of_month {
            Tone::Strong
        } else {
            Tone::Faint
        }
    }
}

//! How rows stand on their day.

/// Why a row is shown. Late rows have the days that passed, warnings those to come, and a day of a range its number and how many
/// there are.
#[derive(Clone, Copy, Debug, PartialEq, Eq)]
pub enum Kind {
    Stamp,
    Range(u32, u32),
    Planned,
    Due,
    LatePlanned(u32),
    LateDue(u32),
    DueIn(u32),
}

/// Minutes of the day at which a row begins and ends.
#[derive(Clone, Copy, Debug, PartialEq, Eq)]
pub struct Hours {
    pub start: u16,
    pub end: Option<u16>,
}

impl Hours {
    /// The minute at which it is over; an end that isn't behind the start is on the next day.
    pub(crate) fn over(&self) -> u32 {
        match self.end {
            None => u32::from(self.start),
            Some(end) if end > self.start => u32::from(end),
            Some(end) => u32::from(end) + MINUTES_PER_DAY,
        }
    }
}

const MINUTES_PER_DAY: u32 = 1440;

/// How a row stands on its day: the number of its heading, why it is shown, its time, whether it is a habit, and how urgent it
/// is by its priority, where a smaller number is more urgent.
#[derive(Clone, Copy, Debug, PartialEq, Eq)]
pub struct Stand {
    pub heading: usize,
    pub kind: Kind,
    pub hours: Option<Hours>,
    pub is_habit: bool,
    pub urgency: u8,
}

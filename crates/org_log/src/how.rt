//! How a change is logged.

/// How a change is logged (Org manual 9.6, "Tracking TODO state changes").
#[derive(Clone, Copy, Debug, PartialEq, Eq)]
pub enum How {
    /// By its time.
    Time,
    /// By its time and a note.
    Note,
}

// What one keyword asks for: where it is entered, and where it is left for one that asks for nothing.
#[derive(Clone, Copy, PartialEq, Eq)]
pub(crate) struct Marks {
    pub(crate) entering: Option<How>,
    pub(crate) leaving: Option<How>,
}

// Those of a keyword that asks for nothing.
pub(crate) const NO_MARKS: Marks = Marks {
    entering: None,
    leaving: None,
};

impl Marks {
    // Whether anything is asked for.
    pub(crate) fn are_some(&self) -> bool {
        self.entering.is_some() || self.leaving.is_some()
    }
}

//! The signs of a day.

/// Which signs a day is drawn with: those of Unicode, or those that any terminal has.
#[derive(Clone, Copy, Debug, PartialEq, Eq)]
pub enum Signs {
    Drawn,
    Ascii,
}

impl Signs {
    /// Where a text is cut.
    pub(crate) fn cut_sign(self) -> &'static str {
        self.either("…", "~")
    }

    /// In front of what is planned.
    pub(crate) fn planned_sign(self) -> &'static str {
        self.either("□", "o")
    }

    /// In front of what is done.
    pub(crate) fn done_sign(self) -> &'static str {
        self.either("✓", "x")
    }

    /// Between two times.
    pub(crate) fn until_sign(self) -> &'static str {
        self.either("–", "-")
    }

    /// In front of a note.
    pub(crate) fn note_sign(self) -> &'static str {
        self.either(" · ", " - ")
    }

    /// What the line of now is drawn of.
    pub(crate) fn level_sign(self) -> &'static str {
        self.either("─", "-")
    }

    fn either(self, drawn: &'static str, ascii: &'static str) -> &'static str {
        match self {
            Signs::Drawn => drawn,
            Signs::Ascii => ascii,
        }
    }
}

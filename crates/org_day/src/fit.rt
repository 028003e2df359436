//! How many lines of each section are shown.

use crate::placed::Placed;
use crate::section::Section;

// How many sections there are.
pub(crate) const SECTIONS: usize = 7;

/// How many lines each section has, and how many of them are shown, by their ranks.
#[derive(Clone, Copy)]
pub(crate) struct Counts {
    pub(crate) all: [usize; SECTIONS],
    pub(crate) shown: [usize; SECTIONS],
}

// The sections of which lines may be left out, those first of which the first are.
const SHORTENED: [usize; 4] = [6, 5, 4, 3];

// How many lines of them stay.
const LEAST_SHOWN: usize = 3;

impl Counts {
    /// Those of rows, of which as many lines are shown as a terminal of so many has room for.
    pub(crate) fn of(placed: &[Placed], lines: Option<usize>, has_now: bool) -> Counts {
        let mut all: [usize; SECTIONS] = [0; SECTIONS];
        for row in placed {
            if !row.is_note {
                if let Some(count) = all.get_mut(usize::from(row.rank)) {
                    *count = count.saturating_add(1);
                }
            }
        }
        let mut counts = Counts { all, shown: all };
        if let Some(lines) = lines {
            for _line in 0..placed.len() {
                if counts.lines_of(has_now) < lines {
                    break;
                }
                let Some(place) = counts.longest() else {
                    break;
                };
                counts.leave_one(place);
            }
        }
        counts
    }

    /// How many lines of a section there are.
    pub(crate) fn all_of(&self, section: Section) -> usize {
        self.all
            .get(usize::from(section.rank()))
            .copied()
            .unwrap_or(0)
    }

    /// How many lines of a section are shown.
    pub(crate) fn shown_of(&self, section: Section) -> usize {
        self.shown
            .get(usize::from(section.rank()))
            .copied()
            .unwrap_or(0)
    }

    // The lines that are written: the title, and of each section its name with a blank line, its rows, and how many others.
    fn lines_of(&self, has_now: bool) -> usize {
        let mut lines: usize = 1;
        for place in 0..SECTIONS {
            let (all, shown) = (self.all[place], self.shown[place]);
            if all > 0 {
                let own = 2 + usize::from(has_now && place == 1) + usize::from(shown < all);
                lines = lines.saturating_add(shown).saturating_add(own);
            }
        }
        lines
    }

    // The section with the most lines among those that may be shortened.
    fn longest(&self) -> Option<usize> {
        let mut longest = None;
        let mut most = LEAST_SHOWN;
        for place in SHORTENED.iter() {
            let shown = self.shown.get(*place).copied().unwrap_or(0);
            if shown > most {
                most = shown;
                longest = Some(*place);
            }
        }
        longest
    }

    fn leave_one(&mut self, place: usize) {
        if let Some(shown) = self.shown.get_mut(place) {
            *shown = shown.saturating_sub(1);
        }
    }
}

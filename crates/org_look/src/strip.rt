//! Texts of a known width.
ghost use Rattle.std.specs.Prelude.{◌≡◌, string_bytes};
ghost use Rattle.org_look.specs.Widths.{columns_of};

use crate::sheet::{Sheet, Stain};
use std::alloc::Global;
use unicode_width::UnicodeWidthStr;

/// A text of one line, the columns of a terminal that it takes, and the parts of it that have a colour.
#[derive(Debug, Drop)]
pub struct Strip {
    pub text: String,
    pub columns: usize,
    pub stains: Vec<Stain>,
    pub ghost is_wide: { columns_of (string_bytes text) ≡ columns },
}

impl Strip {
    /// A text with its width, without a colour.
    pub fn of(alloc: Global, text: String) -> Strip
        ensures value { result.text ≡ text }
    {
        let columns = text.as_str().width();
        Strip {
            text,
            columns,
            stains: Vec::new(alloc),
        }
    }

    /// What stands on a sheet, with its width and its colours.
    pub fn of_sheet(sheet: Sheet) -> Strip
        ensures value { result.text ≡ sheet.text }
    {
        let columns = sheet.text.as_str().width();
        Strip {
            text: sheet.text,
            columns,
            stains: sheet.stains,
        }
    }
}

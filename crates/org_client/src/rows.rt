//! Rows, and the files that they are of.
ghost use Rattle.std.specs.Prelude.{◌≡◌, map, slice_get, IsOkUnless};
ghost use Rattle.org_base.specs.Codes.{memory_fault};
ghost use Rattle.org_base.specs.Results.{Gives, GivesItems};
ghost use Rattle.org_client.specs.LinePlaces.{line_of, line_place_in, line_place_of};
ghost use Rattle.org_client.specs.Report.{report_of, starts_of};
ghost use Rattle.org_client.specs.ViewRows.{heading_of};

use crate::clocks::ClockRow;
use crate::file_set::FileSet;
use crate::kept_headings::KeptHeadings;
use crate::line_starts::{LinePlace, LineStarts};
use crate::row_ids::RowIds;
use org_base::{Fault, Texts};
use org_cal::Day;
use org_clocktable::{Of, TableRow};
use org_inherit::Inherits;
use org_layout::ShownRow;
use org_store::Place;
use org_text::Text;
use org_trace::LogRow;
use std::alloc::Global;
use std::marker::Model;

/// Files, what their headings inherit, and what is asked of rows beside their views.
#[derive(Drop)]
pub struct LoadReport<'a, 'b, T: Text> {
    pub file_set: &'a FileSet<T>,
    pub inherits: &'a Inherits<'b>,
    /// The properties that are asked for.
    pub properties: Texts,
    // What is kept of long headings.
    pub(crate) kept: KeptHeadings<'a, 'b>,
    // Of each file; none where no row needs them.
    starts: Vec<LineStarts>,
    // The short ids of rows, where they have any.
    ids: RowIds,
}

impl<'a, 'b, T: Text> Model for LoadReport<'a, 'b, T> {
    ghost use Rattle.std.specs.Prelude.{◌≡◌};
    ghost use Rattle.org_client.specs.Report.{ReportView};

    ghost Value = { ReportView };

    ghost view = { λ r. record { files = r.file_set.now.files; scopes = r.inherits.now; properties = r.properties; starts = r.starts.items; ids = r.ids } };

    ghost invariant = { λ r. r.kept ≡ r.inherits.now };
}

impl<'a, 'b, T: Text> LoadReport<'a, 'b, T> {
    /// Files of which rows are shown. Where rows have their stamps' lines each file is passed over once for them.
    pub fn new(
        alloc: Global,
        file_set: &'a FileSet<T>,
        inherits: &'a Inherits<'b>,
        properties: Texts,
        has_lines: bool,
    ) -> Result<LoadReport<'a, 'b, T>, Fault>
        ensures value { Gives result (report_of file_set.now.files inherits.now properties has_lines) }
        ensures memory { IsOkUnless result memory_fault }
    {
        let starts = if has_lines {
            all_starts(alloc, file_set)?
        } else {
            Vec::new(alloc)
        };
        let kept = KeptHeadings::new(alloc, inherits)?;
        Ok(LoadReport {
            file_set,
            inherits,
            properties,
            kept,
            starts,
            ids: RowIds::none(alloc),
        })
    }

    /// The same with short ids of rows.
    pub fn with_ids(mut self, ids: RowIds) -> LoadReport<'a, 'b, T> {
        self.ids = ids;
        self
    }

    /// The short ids of rows.
    pub fn ids(&self) -> &RowIds
        ensures value { result.now ≡ self.now.ids }
    {
        &self.ids
    }

    // The line of a file's byte, and the byte of that line, where lines are known.
    pub(crate) fn line_place(&self, file: usize, at: u64) -> Option<LinePlace>
        ensures value { result ≡ line_place_in self.now.starts file at }
    {
        match u32::try_from(at) {
            Ok(at) => self.place_of(file, at),
            Err(_) => None,
        }
    }

    /// The number of the line of a file's byte, where lines are known.
    pub fn line_of(&self, file: usize, at: u32) -> Option<usize>
        ensures value { result ≡ line_of (slice_get self.now.starts file) at }
    {
        match self.place_of(file, at) {
            Some(place) => Some(place.line),
            None => None,
        }
    }

    fn place_of(&self, file: usize, at: u32) -> Option<LinePlace>
        ensures value { result ≡ line_place_of (slice_get self.now.starts file) at }
    {
        self.starts.get(file)?.place(at)
    }
}

fn all_starts<T: Text>(alloc: Global, file_set: &FileSet<T>) -> Result<Vec<LineStarts>, Fault>
    ensures value { GivesItems result (map starts_of file_set.now.files) }
    ensures memory { IsOkUnless result memory_fault }
{
    let mut all = Vec::new(alloc);
    for place in 0..file_set.count() {
        let starts = file_set.file(place).line_starts(alloc)?;
        all.push(starts)?;
    }
    Ok(all)
}

/// A row of a clock table, with the first and the last day of its step.
#[derive(Clone, Copy, Debug, PartialEq, Eq)]
pub struct ShownSum {
    pub first: Day,
    pub last: Day,
    pub row: TableRow,
}

/// A clock line that is listed, and where it begins in its file.
#[derive(Clone, Copy, Debug, PartialEq, Eq)]
pub struct ShownClock {
    pub row: ClockRow,
    pub place: Place,
}

/// A row of any view.
#[derive(Clone, Copy, Debug, PartialEq, Eq)]
pub enum ViewRow {
    /// Of a list or of a day.
    Row(ShownRow),
    /// Of a clock table.
    Sum(ShownSum),
    /// A clock line.
    Clock(ShownClock),
    /// Of a log.
    Log(LogRow),
}

impl ViewRow {
    /// The places of the file and of the heading that it is of, if it is of one.
    pub fn heading(&self) -> Option<(usize, usize)>
        ensures value { result ≡ heading_of self.now }
    {
        match self {
            ViewRow::Row(shown) => Some((shown.row.file, shown.row.heading)),
            ViewRow::Sum(shown) => match shown.row.of {
                Of::Heading(file, place, _) => Some((file, place)),
                Of::All | Of::File(_) => None,
            },
            ViewRow::Clock(shown) => Some((shown.row.file, shown.row.heading)),
            ViewRow::Log(row) => Some((row.file, row.heading)),
        }
    }
}

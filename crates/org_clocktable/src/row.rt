//! Rows of clock tables.

/// What a row is of.
#[derive(Clone, Copy, Debug, PartialEq, Eq)]
pub enum Of {
    /// All files of the table.
    All,
    /// A file, by its place among them, from 0.
    File(usize),
    /// A heading, by the places of its file and of its entry, with its level.
    Heading(usize, usize, u32),
}

/// A row of a clock table, with its sums in minutes.
#[derive(Clone, Copy, Debug, PartialEq, Eq)]
pub struct TableRow {
    pub of: Of,
    pub clock: u64,
    pub effort: u64,
}

//! Limits that several crates speak of.

/// How many files an engine has at most.
pub const MOST_FILES: usize = 256;

/// How many days an agenda has at most.
pub const MOST_DAYS: u32 = 366;

//! Limits of an engine.

/// The serial after which no change is made.
pub const LAST_SERIAL: u64 = 1_000_000_000_000_000_000;

/// The most sessions; they are numbered from 1.
pub const MOST_SESSIONS: u64 = 64;

//! Why a file of views isn't read.

use std::alloc::{AllocError, AllocFailed};

/// Why a file of views isn't read.
#[derive(Clone, Copy, Debug, PartialEq, Eq)]
pub enum Refusal {
    Memory,
    /// The line of this number is none of such a file, and why.
    Line(usize, &'static str),
}

// Why a line is none of a file of views.
#[derive(Clone, Copy)]
pub(crate) enum BadLine {
    Memory,
    Because(&'static str),
}

impl BadLine {
    /// The same of a file, by the number of the line.
    pub(crate) fn at(self, number: usize) -> Refusal {
        match self {
            BadLine::Memory => Refusal::Memory,
            BadLine::Because(why) => Refusal::Line(number, why),
        }
    }
}

impl From<AllocError> for BadLine {
    fn from(_refused: AllocError) -> BadLine {
        BadLine::Memory
    }
}

impl<T: Drop> From<AllocFailed<T>> for BadLine {
    fn from(_refused: AllocFailed<T>) -> BadLine {
        BadLine::Memory
    }
}

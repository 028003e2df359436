//! Why a change can't be taken back.

use orgq_messages::{Problem, say_of};
use std::alloc::{AllocError, Global};

/// Why what an act changed isn't kept, or what was kept can't be read.
#[derive(Clone, Copy, Debug)]
pub enum Unkept {
    /// Memory was refused.
    Memory,
    /// This.
    Because(&'static str),
}

impl From<AllocError> for Unkept {
    fn from(_refused: AllocError) -> Unkept {
        Unkept::Memory
    }
}

impl From<Problem> for Unkept {
    fn from(problem: Problem) -> Unkept {
        match problem {
            Problem::Environment(variable) => Unkept::Because(variable.why()),
            _ => Unkept::Memory,
        }
    }
}

impl Unkept {
    /// What is said of it.
    pub fn why(self) -> &'static str {
        match self {
            Unkept::Memory => "out of memory",
            Unkept::Because(why) => why,
        }
    }
}

/// Says that an act which was done can't be taken back, and why.
pub fn say_unkept<R: AllocGlobal + Eprint>(rt: &R, name: &str, why: Unkept) {
    match unkept_text(rt.alloc(), why) {
        Ok(text) => say_of(rt, name, text.as_str()),
        Err(_) => say_of(rt, name, UNKEPT),
    }
}

const UNKEPT: &str = "orgq undo can't take this change back";

fn unkept_text(alloc: Global, why: Unkept) -> Result<String, AllocError> {
    let why = why.why();
    format!(in alloc; "{UNKEPT}: {why}")
}

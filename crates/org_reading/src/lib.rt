//! Laws alone: what the page of the definitions shows folded is what it stands for.
//!
//! `tests/reading.py` puts a definition of one line into the only one that names it, and writes what it shows to
//! `specs/Folded.antt`. At every input that is what the definition of the sources is.
//!
//! ```
//! /// Each definition is what the page of the definitions shows in its place.
//! pub fn folds_hold()
//!     ensures { FoldsHold }
//! {}
//! ```
//!
//! Lines of `org_reading/src/laws.rt`. Tests: none: a law is proved and has nothing to run.
#![tactic(auto)]

pub mod laws;

//! Standard output.

use crate::exit::{STOPPED, UNTOLD};
use crate::standard_error::say;
use std::io::{Write, writer};

/// Prints the bytes that say what was changed, and gives the status. Nothing is asked of memory.
pub fn print_changed<R: Print + Eprint>(rt: &R, bytes: &[u8]) -> u8 {
    let mut out = writer(rt);
    if out.write_all(bytes).is_ok() && out.flush().is_ok() {
        return 0;
    }
    let _ = eprintln!(rt; "orgq: {UNPRINTED}");
    UNTOLD
}

const UNPRINTED: &str = "the change was made, and its lines could not be printed: output failed";

/// Prints bytes, and gives the status where they were printed.
pub fn print_all<R: AllocGlobal + Print + Eprint>(rt: &R, bytes: &[u8], status: u8) -> u8 {
    let mut out = writer(rt);
    if out.write_all(bytes).is_ok() && out.flush().is_ok() {
        return status;
    }
    say(rt, "output failed");
    STOPPED
}

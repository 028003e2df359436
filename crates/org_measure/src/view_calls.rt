//! Calls that no stream reaches one by one: a column that is filled, and a stream that is opened.

use crate::outline_calls::refused_if;
use org_base::Fault;
use org_layout::pad;
use org_wire::{Counted, Input, Next, Protocol, read_command};
use std::alloc::Global;

/// A column filled. Where it is refused, what was written stays.
pub fn pads(alloc: Global) -> Result<bool, Fault> {
    let mut out = String::from_str(alloc, "a")?;
    match pad(&mut out, "bc", 4) {
        Ok(()) => Ok(out.as_str() == "abc  "),
        Err(_) => refused_if(out.as_str() == "a"),
    }
}

/// A stream opened, and its first command read.
pub fn opens_a_stream(alloc: Global) -> Result<bool, Fault> {
    let bytes: &[u8] = b"version\n";
    let mut reader = Counted::new(bytes);
    let mut input = Input::new(alloc, &mut reader, Protocol::Second)?;
    match read_command(&mut input) {
        Next::Given(_) => Ok(true),
        Next::Refused(fault) => Err(fault),
        _ => Ok(false),
    }
}

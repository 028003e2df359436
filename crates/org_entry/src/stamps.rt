//! The active stamps of a section.
ghost use Rattle.std.specs.Prelude.{◌≡◌, ◌+◌, ◌<◌, ◌^◌, ◌++◌, length, OnOk};
ghost use Rattle.org_entry.specs.Entry.{if_active, active_at};

use crate::rare_list::RareList;
use org_stamp::{Found, stamps_in};
use std::alloc::AllocError;

// Puts the active stamps of bytes that stand at a place of the section at the end.
pub(crate) fn push_active(
    stamps: &mut RareList<Found>,
    at: usize,
    bytes: &[u8],
) -> Result<(), AllocError>
    requires fits { at + length bytes.now < 2 ^ 32 }
    ensures ok { OnOk result (stamps.new ≡ stamps.old ++ active_at at bytes.now) }
{
    for found in stamps_in(bytes) {
        push_if_active(stamps, at, found)?;
    }
    Ok(())
}

// Puts a stamp at the end, so much further, if it is active.
fn push_if_active(stamps: &mut RareList<Found>, at: usize, found: Found) -> Result<(), AllocError>
    requires fits { at + found.at < 2 ^ 32 }
    ensures ok { OnOk result (stamps.new ≡ stamps.old ++ if_active at found) }
{
    if found.stamp.active {
        stamps.push(Found {
            at: at + found.at,
            len: found.len,
            stamp: found.stamp,
        })?;
    }
    Ok(())
}

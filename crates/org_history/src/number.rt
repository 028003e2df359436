//! Numbers as bytes.
ghost use Rattle.std.specs.Prelude.{◌≡◌, ◌++◌, OnOk};
ghost use Rattle.std.specs.Option.{option_map};
ghost use Rattle.org_history.specs.Bytes.{number_at, number_bytes};

use std::alloc::AllocError;

// Appends the eight bytes of a number, the lowest first.
pub(crate) fn push_number(bytes: &mut Vec<u8>, number: u64) -> Result<(), AllocError>
    ensures ok { OnOk result (bytes.new.items ≡ bytes.old.items ++ number_bytes number) }
{
    bytes.extend_from_slice(&number.to_le_bytes())?;
    Ok(())
}

// The number at the front of some bytes, and those behind it.
pub(crate) fn number_at(bytes: &[u8]) -> Option<(u64, &[u8])>
    ensures value { option_map (λ x. (x.0, x.1.now)) result ≡ number_at bytes.now }
{
    if bytes.len() < 8 {
        return None;
    }
    let (front, rest) = bytes.split_at(8);
    let number = u64::from_le_bytes([
        front[0], front[1], front[2], front[3], front[4], front[5], front[6], front[7],
    ]);
    Some((number, rest))
}

//! What is summed of a heading, and its sum.
ghost use Rattle.std.specs.Prelude.{◌≡◌, ◌||◌, not};
ghost use Rattle.org_base.specs.Results.{Adds};
ghost use Rattle.org_ids.specs.Letters.{sum_of};
ghost use Rattle.org_ids.specs.Names.{is_whole, with_text};

use crate::names::MOST_BYTES;
use sha2::{Digest, Sha256};
use std::alloc::AllocError;

/// The first 60 bits of the SHA-256 of bytes.
pub fn sum_of(bytes: &[u8]) -> u64
    ensures value { result ≡ sum_of bytes.now }
{
    let digest = Sha256::digest(bytes);
    let first = [
        digest[0], digest[1], digest[2], digest[3], digest[4], digest[5], digest[6], digest[7],
    ];
    u64::from_be_bytes(first) / 16
}

/// Whether the text of a heading's section is summed behind its name: where that isn't whole, or another heading of the file
/// has it.
pub fn has_text(name: &[u8], is_repeated: bool) -> bool
    ensures value { result ≡ (is_repeated || not (is_whole name.now)) }
{
    is_repeated || name.len() >= MOST_BYTES
}

/// Appends what is summed of a heading: its name, and behind it the text of its section, where that is summed.
pub fn push_summed(
    out: &mut Vec<u8>,
    name: &[u8],
    is_repeated: bool,
    section: &[u8],
) -> Result<(), AllocError>
    ensures value { Adds result out.old out.new (with_text name.now is_repeated section.now) }
{
    out.extend_from_slice(name)?;
    if has_text(name, is_repeated) {
        let sign: &[u8] = if name.len() < MOST_BYTES {
            b"\n="
        } else {
            b"\n+"
        };
        out.extend_from_slice(sign)?;
        out.extend_from_slice(section)?;
    }
    Ok(())
}

//! Texts in pieces beside strings.
use crate::sequence::next;
use org_base::Fault;
use org_pieces::Pieces;
use org_text::Text;
use std::alloc::Global;
use std::test::Fail;

const FRONT: &str = "* one\n";

// The bytes with a part replaced, if they have that part.
fn splice_all(
    alloc: Global,
    bytes: &[u8],
    at: usize,
    end: usize,
    ins: &[u8],
) -> Result<Vec<u8>, Fault> {
    let mut after = Vec::new(alloc);
    if at <= end && end <= bytes.len() {
        after.extend_from_slice(&bytes[..at])?;
        after.extend_from_slice(ins)?;
        after.extend_from_slice(&bytes[end..])?;
    }
    Ok(after)
}

// Edits the text and the bytes at a place that the seed gives. Where memory is refused both are as before.
fn edits_both(
    alloc: Global,
    seed: u64,
    text: &mut Pieces,
    bytes: &mut Vec<u8>,
) -> Result<(), Fault> {
    let len = bytes.len();
    let at = (seed >> 33) as usize % (len + 1);
    let end = at + (seed >> 9) as usize % (len - at + 1).min(50);
    let ins = if seed % 3 == 0 {
        ""
    } else {
        "* a heading\nwith a line\n"
    };
    let after = splice_all(alloc, bytes, at, end, ins.as_bytes())?;
    text.edit(at as u64, (end - at) as u64, ins)?;
    *bytes = after;
    Ok(())
}

fn is_text_of(text: &Pieces, bytes: &[u8]) -> bool {
    match text.copy_out() {
        Ok(copy) => copy.as_bytes() == bytes,
        Err(_) => true,
    }
}

// Edits a shared text too, and looks whether the other still has its bytes.
fn edits_apart(
    alloc: Global,
    seed: u64,
    text: &mut Pieces,
    bytes: &mut Vec<u8>,
) -> Result<bool, Fault> {
    let shared = text.share()?;
    let before = Vec::from_slice(alloc, bytes)?;
    edits_both(alloc, seed, text, bytes)?;
    Ok(is_text_of(&shared, &before))
}

fn goes_with_bytes(alloc: Global, rounds: u32) -> Result<bool, Fault> {
    let mut text = Pieces::of(alloc, "")?;
    let mut bytes = Vec::new(alloc);
    let mut seed = 1;
    for _ in 0..rounds {
        seed = next(seed);
        if edits_apart(alloc, seed, &mut text, &mut bytes) == Ok(false)
            || !is_text_of(&text, &bytes)
        {
            return Ok(false);
        }
    }
    Ok(text.len() > 0)
}

#[test]
fn edited_beside_bytes(rt: HostRuntime) -> Result<(), Fail> {
    assert!(rt; goes_with_bytes(rt.alloc(), 600)?);
    Ok(())
}

fn many_bytes(alloc: Global) -> Result<String, Fault> {
    let mut bytes = String::with_capacity(alloc, 65_000)?;
    for _byte in 0..65_000 {
        bytes.push_str("x")?;
    }
    Ok(bytes)
}

// Puts so many bytes behind the front of a text.
fn put_many(alloc: Global, text: &mut Pieces) -> Result<(), Fault> {
    let ins = many_bytes(alloc)?;
    text.edit(FRONT.len() as u64, 0, ins.as_str())
}

// What a short text holds, and in how many pieces, once 65,000 bytes came into it and all but ten of them went.
fn held_behind_a_large_edit(alloc: Global) -> Result<(u64, u32), Fault> {
    let mut text = Pieces::of(alloc, FRONT)?;
    put_many(alloc, &mut text)?;
    text.edit(FRONT.len() as u64, 64_990, "")?;
    Ok((text.block_bytes(), text.count()))
}

#[test]
fn held_by_what_is_said(rt: HostRuntime) -> Result<(), Fail> {
    let (held, pieces) = held_behind_a_large_edit(rt.alloc())?;
    assert!(rt; held >= 16 && held <= 64 && pieces == 1);
    Ok(())
}

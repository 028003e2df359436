//! A text in shared blocks, for files that are edited.
//!
//! `Pieces` meets `Text`, so it is seen as the list of its bytes. It is a sequence of spans of blocks that never
//! change. A cut leaves spans of one block; what is put in is a block of its own, joined with small neighbours. An edit
//! makes as many new nodes as the logarithm of the number of pieces, and a share takes one count.
//!
//! Two neighbours have at least 1,024 bytes together, so what is typed byte by byte is in blocks of some hundred bytes,
//! and a stroke copies 2 KiB at most. A block has at most four times the bytes of each piece in it, and at most 65,536:
//! what a text holds is bounded by what it says. A text of up to 64 KiB that is added is kept as it came.
//!
//! ```
//! let mut text = Pieces::of(alloc, FRONT)?;
//! // ..
//! text.edit(FRONT.len() as u64, 64_990, "")?;
//! Ok((text.block_bytes(), text.count()))
//! ```
//!
//! Lines of `org_tests/src/pieces.rt`. Tests: `org_tests/src/pieces.rt`.
#![tactic(auto)]

mod change;
mod cuts;
mod piece;
mod pieces;

pub use pieces::Pieces;

//! Pieces of a text between separators.
ghost use Rattle.std.specs.Prelude.{◌≡◌, ◌≤◌, length, IfOk, OnOk};
ghost use Rattle.org_settings.specs.Pieces.{is_between, pieces, words, GainsPiece};
ghost use Rattle.org_base.specs.Results.{lent_in};

use std::alloc::{AllocError, Global};

// Whether the byte is white space, a line feed or the other separator.
fn is_between(also: u8, byte: u8) -> bool
    ensures value { result ≡ is_between also byte }
{
    matches!(byte, b' ' | b'\t' | b'\r' | b'\n') || byte == also
}

// Puts a part of the text at the end of the pieces, if it isn't empty.
fn push_piece<'a>(
    found: &mut Vec<&'a [u8]>,
    text: &'a [u8],
    from: usize,
    to: usize,
) -> Result<(), AllocError>
    requires order { from ≤ to }
    requires within { to ≤ length text.now }
    ensures ok { OnOk result (GainsPiece found.old.items found.new.items text.now from to) }
{
    if from < to {
        found.push(&text[from..to])?;
    }
    Ok(())
}

// The longest runs of the text without white space, line feeds and the byte.
pub(crate) fn pieces<'a>(
    alloc: Global,
    text: &'a [u8],
    also: u8,
) -> Result<Vec<&'a [u8]>, AllocError>
    ensures value { IfOk result (λ v. lent_in v.items ≡ pieces also text.now) }
{
    let mut found = Vec::new(alloc);
    let mut start = 0;
    for (i, byte) in text.iter().enumerate() {
        if is_between(also, *byte) {
            push_piece(&mut found, text, start, i)?;
            start = i + 1;
        }
    }
    push_piece(&mut found, text, start, text.len())?;
    Ok(found)
}

// The words of the text.
pub(crate) fn words<'a>(alloc: Global, text: &'a [u8]) -> Result<Vec<&'a [u8]>, AllocError>
    ensures value { IfOk result (λ v. lent_in v.items ≡ words text.now) }
{
    pieces(alloc, text, b' ')
}

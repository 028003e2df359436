//! The keywords of a file, as lines of text.
ghost use Rattle.std.specs.Prelude.{◌≡◌, ◌++◌, None};
ghost use Rattle.org_base.specs.Results.{GivesItems};
ghost use Rattle.org_engine.specs.KeywordLines.{bar_before, gap_before, gap_between, keyword_lines, last_end, line_end};

use org_settings::Settings;
use std::alloc::{AllocError, Global};

// Whether a keyword is a done one, and the place of the first of its sequence.
#[derive(Clone, Copy)]
struct Kind {
    is_done: bool,
    first: usize,
}

// A line for each sequence of keywords: its keywords in their order with a space between, and a bar before the done ones.
pub(crate) fn keyword_lines(alloc: Global, settings: &Settings) -> Result<Vec<u8>, AllocError>
    ensures value { GivesItems result (keyword_lines None settings.now.keywords) }
{
    let mut out = Vec::new(alloc);
    let mut last = None;
    for place in 0..settings.keyword_count() {
        let next = Kind {
            is_done: settings.is_done(place),
            first: settings.first_of_sequence(place),
        };
        out.extend_from_slice(gap_before(last, next))?;
        out.extend_from_slice(settings.keyword_word(place))?;
        last = Some(next);
    }
    out.extend_from_slice(last_end(last))?;
    Ok(out)
}

// What stands before a keyword, after one of this kind or none.
fn gap_before(last: Option<Kind>, next: Kind) -> &'static [u8]
    ensures value { result.now ≡ gap_before last next }
{
    match last {
        None => bar_before(next.is_done),
        Some(last) => {
            if last.first == next.first {
                gap_between(last.is_done, next.is_done)
            } else {
                line_break(last.is_done, next.is_done)
            }
        }
    }
}

// The bar before done keywords that begin a line.
fn bar_before(is_done: bool) -> &'static [u8]
    ensures value { result.now ≡ bar_before is_done }
{
    if is_done {
        b"| ".as_slice()
    } else {
        b"".as_slice()
    }
}

// What stands between two keywords of one sequence.
fn gap_between(was_done: bool, is_done: bool) -> &'static [u8]
    ensures value { result.now ≡ gap_between was_done is_done }
{
    if is_done && !was_done {
        b" | ".as_slice()
    } else {
        b" ".as_slice()
    }
}

// What stands between the last keyword of a sequence and the first of the next one.
fn line_break(was_done: bool, is_done: bool) -> &'static [u8]
    ensures value { result.now ≡ line_end was_done ++ bar_before is_done }
{
    match (was_done, is_done) {
        (true, true) => b"\n| ".as_slice(),
        (true, false) => b"\n".as_slice(),
        (false, true) => b" |\n| ".as_slice(),
        (false, false) => b" |\n".as_slice(),
    }
}

// The end of the last line, if there is one.
fn last_end(last: Option<Kind>) -> &'static [u8]
    ensures value { result.now ≡ last_end last }
{
    match last {
        None => b"".as_slice(),
        Some(last) => line_break(last.is_done, false),
    }
}

//! Places of lines that look like stamps and are none.
ghost use Rattle.std.specs.Prelude.{◌≡◌, ◌≤◌, true, length, drop};
ghost use Rattle.org_check.specs.Looks.{looks_like_stamp};
ghost use Rattle.org_check.specs.Marks.{class_stamp_marks, place_marks, unread_marks};
ghost use Rattle.org_check.specs.Said.{Says};
ghost use Rattle.org_check.specs.UnreadStamps.{IsNextClose};

use crate::findings::{Findings, Found};
use crate::here::Here;
use crate::kind::Kind;
use crate::quotes::Quotes;
use crate::stamp_kind::{Candidate, unread_kind};
use crate::unread::next_look;
use crate::unread_kinds::StampKind;
use crate::unread_lines::has_stamps;
use org_stamp::{first_close, next_close, stamp_at};
use std::alloc::AllocError;

// Puts the places of a line at which stamps are looked for and that look like one and are none.
pub(crate) fn push_unread_stamps(
    found: &mut Findings,
    here: Here,
    line: &[u8],
) -> Result<(), AllocError>
    ensures said { Says result found.old found.new (class_stamp_marks here.class here.at line.now) }
{
    if has_stamps(here.class) {
        push_unread(found, here, line)
    } else {
        Ok(())
    }
}

// The same of a line at which stamps are looked for; in most nothing looks like one.
#[tactic(auto, using(crate::proofs::SaidLemmas::no_looks))]
fn push_unread(found: &mut Findings, here: Here, line: &[u8]) -> Result<(), AllocError>
    ensures said { Says result found.old found.new (unread_marks here.at line.now) }
{
    match next_look(line, 0) {
        None => Ok(()),
        Some(_) => push_looks(found, here, line),
    }
}

// Puts each place that looks like a stamp and is none.
fn push_looks(found: &mut Findings, here: Here, line: &[u8]) -> Result<(), AllocError>
    ensures said { Says result found.old found.new (unread_marks here.at line.now) }
{
    let mut quotes = Quotes::new(here.class);
    let mut close = first_close(line);
    let mut from = 0;
    while from < line.len() {
        let Some(place) = next_look(line, from) else {
            return Ok(());
        };
        close = next_close(line, place, close);
        push_if_none(found, here, line, Candidate { place, close }, &mut quotes)?;
        from = place + 1;
    }
    Ok(())
}

// Puts what looks like a stamp, if it is none.
fn push_if_none(
    found: &mut Findings,
    here: Here,
    line: &[u8],
    candidate: Candidate,
    quotes: &mut Quotes,
) -> Result<(), AllocError>
    requires within { candidate.place ≤ length line.now }
    requires close { IsNextClose line.now candidate.place candidate.close }
    requires looks { looks_like_stamp (drop candidate.place line.now) ≡ true }
    ensures said { Says result found.old found.new (place_marks here.at candidate.place line.now) }
{
    let Candidate { place, close } = candidate;
    if stamp_at(line, place, close).is_some() {
        return Ok(());
    }
    let one = Found {
        kind: Kind::Stamp(kind_at(line, candidate, quotes)),
        place,
        shown: here.part(place, shown_len(line, candidate, quotes)),
        cause: None,
    };
    found.push(here, one)
}

// How much of a text is shown that looks like a stamp: up to the next closing bracket, or to the end of the line.
fn shown_len(line: &[u8], candidate: Candidate, quotes: &mut Quotes) -> usize {
    let Candidate { place, close } = candidate;
    if close < line.len() {
        close.saturating_sub(place).saturating_add(1)
    } else {
        quotes.whole(line).end.saturating_sub(place)
    }
}

// Why what looks like a stamp is none.
fn kind_at(line: &[u8], candidate: Candidate, quotes: &mut Quotes) -> StampKind {
    let place = candidate.place;
    if quotes.holds(line, place) {
        return StampKind::QuotedStamp;
    }
    match line.get(place) {
        Some(b'[') if !quotes.whole(line).counts_inactive => StampKind::UnreadInactiveStamp,
        _ => unread_kind(line, candidate),
    }
}

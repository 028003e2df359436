//! An iterator over the lines of a part of a text.
ghost use Rattle.std.specs.Prelude.{map, ◌≡◌, ◌≢◌, ◌+◌, ◌-◌, ◌^◌, ◌<◌, ◌≤◌, ◌↔◌, ℕ, [], length, slice_index, IfOk, IfErr, IfSome, None, IsOk, IsOkUnless};
ghost use Rattle.std.specs.List.{slice_range, concat, All};
ghost use Rattle.std.specs.Str.{IsUtf8};
ghost use Rattle.std.specs.Cow.{cow_slice_items, IsBorrowedSlice};
ghost use Rattle.std.specs.Iterator.{at_most};
ghost use Rattle.org_base.specs.Results.{GivesItems};
ghost use Rattle.org_base.specs.Spans.{bytes_in};
ghost use Rattle.org_base.specs.declared.code.Code.TheVariants.{Memory};
ghost use Rattle.org_base.specs.declared.fault.Fault.TheVariants.{Plain};
ghost use Rattle.org_lines.specs.Cuts.{lines, cuts, starts, cuts_in, lines_in, IfUncut};
ghost use Rattle.org_lines.specs.Runs.{EndsIn, HasLongLine, IsFirstLine, IsRun, behind, IsLentWithin};

use memchr::memchr;
use org_base::{Fault, Span};
use org_text::Text;
use std::alloc::Global;
use std::borrow::CowSlice;
use std::marker::Model;

/// A line with its line feed, if it has one.
#[derive(Debug, Drop)]
pub struct Line<'a> {
    /// Where it stands in the text.
    pub span: Span,
    /// Its bytes: borrowed where they lie in one piece of the text, assembled otherwise.
    pub bytes: CowSlice<'a, u8>,
}

/// The lines of a span that are still to come. A line that can't be lent takes memory; where that is refused the
/// fault is the last item.
#[derive(Debug, Drop)]
pub struct Lines<'a, T: Text> {
    alloc: Global,
    text: &'a T,
    left: Span,
    // What the text lends of the lines that are left: the text is asked for a run once, and not for each line of it.
    run: &'a [u8],
}

impl<'a, T: Text> Model for Lines<'a, T> {
    ghost use Rattle.std.specs.Prelude.{List, ◌+◌, ◌≤◌, ◌<◌, ◌^◌, length};
    ghost use Rattle.org_lines.specs.Cuts.{Cut, cuts_in};
    ghost use Rattle.org_lines.specs.Runs.{IsRun};

    ghost Value = { List Cut };

    ghost view = { λ s. cuts_in (T.run_len s.text.now) (T.content s.text.now) s.left };

    ghost invariant = { λ s. record {
      within : s.left.at + s.left.len ≤ length (T.content s.text.now);
      fits : s.left.at + s.left.len < 2 ^ 32;
      run : IsRun (T.run_len s.text.now) (T.content s.text.now) s.left s.run.now;
    } };
}

impl<'a, T: Text> Lines<'a, T> {
    /// The lines of the span: its bytes cut after each line feed.
    pub fn new(alloc: Global, text: &'a T, span: Span) -> Lines<'a, T>
        requires { span.at + span.len ≤ length (T.content text.now) }
        ensures cuts { result ≡ cuts_in (T.run_len text.now) (T.content text.now) span }
        ensures lines { map (λ c. c.bytes) result ≡ lines_in (T.content text.now) span }
        ensures joined { concat (map (λ c. c.bytes) result) ≡ bytes_in (T.content text.now) span }
        ensures utf8 { IfUncut (T.content text.now) span (All IsUtf8 (map (λ c. c.bytes) result)) }
        ensures at_most { length result ≤ span.len }
    {
        // For the proof alone: its contract says that the text is not too long.
        let _len = text.len();
        Lines {
            alloc,
            text,
            left: span,
            run: run_at(text, span),
        }
    }
}

impl<'a, T: Text> Iterator for Lines<'a, T> {
    type Item = Result<Line<'a>, Fault>;

    ghost use Rattle.org_lines.specs.Coming.{LineComes};

    ghost next_gives = { LineComes };

    ghost remaining = { λ s. at_most (length s) };

    fn next(&mut self) -> Option<Result<Line<'a>, Fault>> {
        if self.left.len == 0 {
            return None;
        }
        match first_line(self.alloc, self.text, self.left, self.run) {
            Ok(bytes) => {
                let span = Span {
                    at: self.left.at,
                    len: bytes.as_slice().len() as u32,
                };
                self.run = run_behind(self.text, self.left, self.run, span.len);
                self.left = behind(self.left, span.len);
                Some(Ok(Line { span, bytes }))
            }
            Err(fault) => {
                self.left.len = 0;
                self.run = &[];
                Some(Err(fault))
            }
        }
    }
}

// What the text lends of a span, from its beginning on.
fn run_at<T: Text>(text: &T, span: Span) -> &[u8]
    requires within { span.at + span.len ≤ length (T.content text.now) }
    ensures { IsRun (T.run_len text.now) (T.content text.now) span result.now }
{
    let piece = text.piece_at(span.at as usize);
    &piece[..piece.len().min(span.len as usize)]
}

// What is left of a span after its first bytes.
fn behind(span: Span, len: u32) -> Span
    requires within { len ≤ span.len }
    requires fits { span.at + span.len < 2 ^ 32 }
    ensures { result ≡ behind span len }
{
    Span {
        at: span.at + len,
        len: span.len - len,
    }
}

// The run of what is left of a span after its first bytes: the rest of its own run, or the next one.
fn run_behind<'a, T: Text>(text: &'a T, span: Span, run: &'a [u8], len: u32) -> &'a [u8]
    requires len { len ≤ span.len }
    requires within { span.at + span.len ≤ length (T.content text.now) }
    requires fits { span.at + span.len < 2 ^ 32 }
    requires run { IsRun (T.run_len text.now) (T.content text.now) span run.now }
    ensures { IsRun (T.run_len text.now) (T.content text.now) (behind span len) result.now }
{
    let len_here = len as usize;
    if len_here < run.len() {
        &run[len_here..]
    } else if len == span.len {
        // Nothing is left, so the text isn't asked.
        &[]
    } else {
        run_at(text, behind(span, len))
    }
}

// The first line of what is left, lent where it lies in the run.
fn first_line<'a, T: Text>(
    alloc: Global,
    text: &'a T,
    left: Span,
    run: &'a [u8],
) -> Result<CowSlice<'a, u8>, Fault>
    requires some { 0 < left.len }
    requires within { left.at + left.len ≤ length (T.content text.now) }
    requires fits { left.at + left.len < 2 ^ 32 }
    requires run { IsRun (T.run_len text.now) (T.content text.now) left run.now }
    ensures line { IfOk result (λ line. IsFirstLine (T.content text.now) left (cow_slice_items line)) }
    ensures lent { IfOk result (IsLentWithin (T.run_len text.now left.at)) }
    ensures refused { IfErr result (λ _. HasLongLine (T.run_len text.now) (T.content text.now) left) }
    ensures memory { IsOkUnless result (Plain Memory) }
{
    if let Some(len) = len_in(run, left.len as usize) {
        return Ok(CowSlice::Borrowed(&run[..len]));
    }
    let at = left.at as usize;
    let len = first_len(text, at, at + left.len as usize);
    bytes_at(alloc, text, at, len)
}

// The length of the first line of what is left, where it ends in the run.
fn len_in(run: &[u8], left: usize) -> Option<usize>
    requires some { 0 < left }
    ensures { IfSome result (λ len. EndsIn run.now left len) }
{
    // An empty line needs no search.
    if !run.is_empty() && run[0] == b'\n' {
        return Some(1);
    }
    match memchr(b'\n', run) {
        Some(place) => Some(place + 1),
        None if run.len() == left => Some(left),
        None => None,
    }
}

/// The bytes of the span, lent, where they lie in one piece of the text.
#[tactic(auto, using(crate::proofs::RunLemmas::whole_run, crate::proofs::RunLemmas::short_run))]
pub fn lend<T: Text>(text: &T, span: Span) -> Option<&[u8]>
    requires { span.at + span.len ≤ length (T.content text.now) }
    ensures value { IfSome result (λ bytes. bytes.now ≡ bytes_in (T.content text.now) span) }
    ensures none { result ≡ None → T.run_len text.now span.at < span.len }
{
    let run = run_at(text, span);
    if run.len() < span.len as usize {
        return None;
    }
    Some(run)
}

/// Where the lines of the span begin.
pub fn line_starts<T: Text>(alloc: Global, text: &T, span: Span) -> Result<Vec<u32>, Fault>
    requires { span.at + span.len ≤ length (T.content text.now) }
    ensures starts { GivesItems result (starts span.at (lines_in (T.content text.now) span)) }
    ensures memory { IsOkUnless result (Plain Memory) }
{
    // For the proof alone: its contract says that the text is not too long.
    let _len = text.len();
    let mut out = Vec::new(alloc);
    let mut left = span;
    while left.len > 0 {
        out.push(left.at)?;
        let end = left.at as usize + left.len as usize;
        let len = first_len(text, left.at as usize, end) as u32;
        left = Span {
            at: left.at + len,
            len: left.len - len,
        };
    }
    Ok(out)
}

// The length of the first line from `at` on, no further than `end`.
fn first_len<T: Text>(text: &T, at: usize, end: usize) -> usize
    requires some { at < end }
    requires within { end ≤ length (T.content text.now) }
    ensures some { 0 < result }
    ensures within { at + result ≤ end }
    ensures one { (k : ℕ) → at ≤ k → k + 1 < at + result → slice_index (T.content text.now) k ≢ 10 }
    ensures ends { at + result < end → slice_index (T.content text.now) (at + result - 1) ≡ 10 }
{
    // An empty line needs no search.
    if text.piece_at(at)[0] == b'\n' {
        return 1;
    }
    let mut here = at;
    while here < end {
        let piece = text.piece_at(here);
        let piece = &piece[..piece.len().min(end - here)];
        match memchr(b'\n', piece) {
            Some(i) => return here + i + 1 - at,
            None => here += piece.len(),
        }
    }
    end - at
}

// The bytes from `at` on, lent where they lie in one piece.
fn bytes_at<'a, T: Text>(
    alloc: Global,
    text: &'a T,
    at: usize,
    len: usize,
) -> Result<CowSlice<'a, u8>, Fault>
    requires within { at + len ≤ length (T.content text.now) }
    requires fits { at + len < 2 ^ 32 }
    ensures bytes { IfOk result (λ b. cow_slice_items b ≡ slice_range (T.content text.now) at (at + len)) }
    ensures lent { IfOk result (λ b. IsBorrowedSlice b ↔ (len ≤ T.run_len text.now at)) }
    ensures lends_always { len ≤ T.run_len text.now at → IsOk result }
    ensures memory { IsOkUnless result (Plain Memory) }
{
    let piece = text.piece_at(at);
    if piece.len() >= len {
        return Ok(CowSlice::Borrowed(&piece[..len]));
    }
    let mut out = Vec::with_capacity(alloc, len)?;
    while out.len() < len {
        let piece = text.piece_at(at + out.len());
        let more = piece.len().min(len - out.len());
        out.extend_from_slice(&piece[..more])?;
    }
    Ok(CowSlice::Owned(out))
}

//! What is said of a finding.
ghost use Rattle.std.specs.Prelude.{◌≡◌, ◌++◌, ◌≤◌, ◌<◌, OnOk, codes, decimal, length};
ghost use Rattle.org_check.specs.Sentences.{begins_character, cause_text, move_text, moves, quote_end, quote_of, sentence_of, why_text};

use crate::beside_kinds::BesideKind;
use crate::draft::Draft;
use crate::finding::{Cause, Finding};
use crate::kind::Kind;
use std::alloc::AllocError;

// The most bytes of a text that a sentence quotes.
pub(crate) const LONGEST_QUOTE: usize = 80;

// Puts a sentence at the end that says what is wrong and names the remedy. The bytes are those of the finding's place, of a
// long one its front.
pub(crate) fn push_sentence(
    out: &mut Draft,
    finding: &Finding,
    bytes: &[u8],
) -> Result<(), AllocError>
    ensures ok { OnOk result (out.new ≡ out.old ++ sentence_of finding.now bytes.now) }
{
    let entry = finding.kind.entry();
    if entry.quotes {
        push_quote(out, bytes)?;
        out.push_str(": ")?;
    }
    out.push_str(entry.sentence)?;
    match finding.cause {
        Some(cause) => push_why(out, finding.kind, cause),
        None => Ok(()),
    }
}

// Puts what stands in the way of a finding of a kind, and where its line is to be moved, if that is said.
fn push_why(out: &mut Draft, kind: Kind, cause: Cause) -> Result<(), AllocError>
    ensures ok { OnOk result (out.new ≡ out.old ++ why_text kind cause) }
{
    if moves(kind) {
        push_move(out, cause)?;
    }
    push_cause(out, cause)
}

// Whether what stands in the way of a finding of the kind says where its line is to be moved.
fn moves(kind: Kind) -> bool
    ensures value { result ≡ moves kind }
{
    matches!(
        kind,
        Kind::Planning(_) | Kind::Beside(BesideKind::PlanningCase)
    )
}

// Puts where planning is to be moved.
fn push_move(out: &mut Draft, cause: Cause) -> Result<(), AllocError>
    ensures ok { OnOk result (out.new ≡ out.old ++ move_text cause) }
{
    match cause {
        Cause::Planning(_) => out.push_str("; write it at the end of the line under its heading"),
        _ => out.push_str("; write it directly under its heading"),
    }
}

// Puts a text, of a long one its front.
fn push_quote(out: &mut Draft, text: &[u8]) -> Result<(), AllocError>
    ensures ok { OnOk result (out.new ≡ out.old ++ quote_of text.now) }
{
    if text.len() <= LONGEST_QUOTE {
        return out.push(text);
    }
    out.push(&text[..quote_end(text)])?;
    out.push_str("...")
}

// Where the front of a long text ends that is shown: where no character is cut, if there is such a place.
fn quote_end(text: &[u8]) -> usize
    ensures value { result ≡ quote_end text.now }
    ensures at_most { result ≤ LONGEST_QUOTE }
{
    if begins_character(text, LONGEST_QUOTE) {
        LONGEST_QUOTE
    } else if begins_character(text, LONGEST_QUOTE - 1) {
        LONGEST_QUOTE - 1
    } else if begins_character(text, LONGEST_QUOTE - 2) {
        LONGEST_QUOTE - 2
    } else {
        LONGEST_QUOTE - 3
    }
}

fn begins_character(text: &[u8], at: usize) -> bool
    ensures value { result ≡ begins_character text.now at }
{
    match text.get(at) {
        Some(byte) => *byte < 0x80 || 0xC0 <= *byte,
        None => true,
    }
}

fn push_cause(out: &mut Draft, cause: Cause) -> Result<(), AllocError>
    ensures ok { OnOk result (out.new ≡ out.old ++ cause_text cause) }
{
    match cause {
        Cause::Blank(line) => push_line(out, "; line ", line, " is blank"),
        Cause::Drawer(line) => push_line(out, "; a drawer begins in line ", line, ""),
        Cause::Planning(line) => push_line(out, "; line ", line, " is the planning line"),
        Cause::Text(line) => push_line(out, "; line ", line, " stands between"),
        Cause::InDrawer(line) => push_line(
            out,
            "; take it out of the drawer that begins in line ",
            line,
            "",
        ),
        Cause::Other(line) => push_line(out, " (line ", line, ")"),
        Cause::NoHeading => out.push_str("; no heading stands above"),
    }
}

fn push_line(out: &mut Draft, before: &str, line: u32, after: &str) -> Result<(), AllocError>
    ensures ok { OnOk result (out.new ≡ out.old ++ (before.now ++ (decimal line ++ after.now))) }
{
    out.push_str(before)?;
    out.push_number(u64::from(line))?;
    out.push_str(after)
}

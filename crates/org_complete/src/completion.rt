//! Completing a heading.
ghost use Rattle.std.specs.Prelude.{◌≡◌, ◌+◌, ◌++◌, ◌<◌, ◌≤◌, ◌^◌, Err, Some, length, IfOk, IsSome, OnOk, IsOkUnless};
ghost use Rattle.std.specs.List.{prefix_len};
ghost use Rattle.std.specs.Str.{IsUtf8, IsCharBoundary};
ghost use Rattle.org_base.specs.Codes.{memory_fault};
ghost use Rattle.org_base.specs.Results.{Gives, IfRefused, Writes};
ghost use Rattle.org_base.specs.Words.{is_space};
ghost use Rattle.org_entry.specs.Entry.{heading_line};
ghost use Rattle.org_complete.specs.Completion.{completed, completed_at, gap_behind, keyword_span};
ghost use Rattle.org_complete.specs.Reading.{HasReadOne, IsPlaceIn, ReadsOwn, WasReadAt};
ghost use Rattle.org_complete.specs.Written.{CanWrite, IsBehind, IsCompletionAt, IsCompletionOf, IsPlanWritten, plan_end, plan_text, shift_end, shift_text};
ghost use Rattle.org_store.specs.Begun.{entry_there};
ghost use Rattle.org_text.specs.Replace.{max_bytes};

use crate::plan::{Plan, Shift, plan_of};
use org_base::{Code, Fault, Meter, Span};
use org_cal::Moment;
use org_class::{has_heading_at, leading_stars};
use org_entry::Entry;
use org_stamp::print_stamp;
use org_store::{File, OwnedChange};
use org_text::Text;
use std::alloc::{AllocError, Global};

/// What completing the heading on a line by a keyword at a moment changes of a file's text (Org manual 9.6, "Repeated
/// tasks"). Lines count from 1. Where the keyword is a done one, and an active `SCHEDULED` or `DEADLINE` of the heading has a
/// repeater, each such stamp shifts, and the keyword written is the first of the sequence that holds the given one; otherwise
/// that one is written and no stamp shifts. `+` shifts by one interval, `++` by so many that the stamp lies after the moment,
/// `.+` to one interval from the moment's day, or with hours from the moment itself. A shifted stamp is printed anew. Where the
/// heading has no keyword, it and a space are put after the stars and the white space that follows them. All else of the text
/// stays.
///
/// Refusals, in this order: `Heading` where no heading stands on the line; `Keyword` where the keyword is none of the
/// file's; `Hours` where a stamp that would shift has a repeater of hours and no time, or a time range; `Date` where one
/// would leave the years 1 to 9999. Out of memory may come at any time. Whether the text with the change is too long is seen
/// where it is made. No section is classified. Where the line is a heading's, its section is read, if it is still to be read,
/// and stays read, after a refusal too; the meter counts it then, and nothing else.
pub fn complete<T: Text>(
    alloc: Global,
    meter: &mut Meter,
    file: &mut File<T>,
    line: u64,
    keyword: &str,
    moment: Moment,
) -> Result<OwnedChange, Fault>
    ensures value { IfOk result (IsCompletionOf file.old.text line keyword.now moment) }
    ensures fault { IfRefused result (λ fault. completed file.old.text line keyword.now moment ≡ Err fault) }
    ensures read { HasReadOne file.old file.new meter.old meter.new }
    ensures exact { OnOk result (ReadsOwn line file.old file.new meter.old meter.new) }
    ensures refused { IfRefused result (λ _. ReadsOwn line file.old file.new meter.old meter.new) }
{
    let Some(place) = file.begun_by(line) else {
        return Err(Fault::Plain(Code::Heading));
    };
    if !has_heading_at(file.text(), file.start(place) as usize) {
        return Err(Fault::Plain(Code::Heading));
    }
    file.read(alloc, meter, place)?;
    complete_section(alloc, file, place, keyword, moment)
}

// What completing the heading of the section at a place changes, which was read.
fn complete_section<T: Text>(
    alloc: Global,
    file: &File<T>,
    place: u32,
    keyword: &str,
    moment: Moment,
) -> Result<OwnedChange, Fault>
    requires there { IsPlaceIn file.now place }
    requires read { WasReadAt file.now place }
    ensures value { IfOk result (IsCompletionAt file.now.text place keyword.now moment) }
    ensures fault { IfRefused result (λ fault. completed_at file.now.text place keyword.now moment ≡ Err fault) }
{
    let Some(entry) = file.entry(place) else {
        unreachable!();
    };
    let Some(head) = &entry.head else {
        return Err(Fault::Plain(Code::Heading));
    };
    // For the proof alone: its contract says that the text is UTF-8.
    let _text = text_of(file);
    let plan = plan_of(file.settings(), entry.planning(), keyword, moment)?;
    complete_entry(alloc, file, place, entry, head.keyword, plan)
}

// The text of a file, of which callers learn that it is UTF-8 and not too long.
fn text_of<T: Text>(file: &File<T>) -> &T
    ensures value { T.content result.now ≡ file.now.text }
    ensures utf8 { IsUtf8 file.now.text }
    ensures fits { length file.now.text ≤ max_bytes }
{
    let text = file.text();
    // For the proof alone: its contract says so.
    let _len = text.len();
    text
}

// What writing a plan into the entry of the section at a place changes, whose heading has this keyword. Out of memory is the
// only refusal.
fn complete_entry<T: Text>(
    alloc: Global,
    file: &File<T>,
    place: u32,
    entry: &Entry,
    old: Option<Span>,
    plan: Plan,
) -> Result<OwnedChange, Fault>
    requires there { IsPlaceIn file.now place }
    requires entry { entry.now ≡ entry_there file.now.text place }
    requires headed { IsSome entry.now.head }
    requires plan { CanWrite entry.now.text (keyword_span (heading_line entry.now) old) plan }
    ensures value { IfOk result (IsPlanWritten file.now.text place entry.now old plan) }
    ensures memory { IsOkUnless result memory_fault }
{
    // For the proof alone: its contract says that the text is UTF-8.
    let _text = text_of(file);
    let span = keyword_span(entry.line(), old);
    let mut ins = String::new(alloc);
    push_keyword(&mut ins, file.settings().keyword_word(plan.keyword), old)?;
    let end = push_shifts(alloc, &mut ins, entry, span, plan)?;
    let at = file.start(place) + span.at;
    let del = end - span.at;
    Ok(OwnedChange {
        at: at as u64,
        del: del as u64,
        ins,
    })
}

// How many bytes of white space stand at the front.
fn leading_spaces(text: &[u8]) -> usize
    ensures within { result ≤ length text.now }
    ensures value { result ≡ prefix_len is_space text.now }
{
    text.iter()
        .take_while(|b| matches!(**b, b' ' | b'\t' | b'\r'))
        .count()
}

// Where the keyword of a heading line stands, or goes.
fn keyword_span(line: &[u8], old: Option<Span>) -> Span
    requires fits { length line.now < 2 ^ 32 }
    ensures value { result ≡ keyword_span line.now old }
{
    if let Some(span) = old {
        return span;
    }
    let stars = leading_stars(line);
    Span {
        at: (stars + leading_spaces(&line[stars..])) as u32,
        len: 0,
    }
}

// Puts bytes that are text at the end.
fn push_bytes(out: &mut String, bytes: &[u8]) -> Result<(), AllocError>
    requires utf8 { IsUtf8 bytes.now }
    ensures ok { Writes result out.old out.new bytes.now }
{
    match str::from_utf8(bytes) {
        Ok(text) => {
            out.push_str(text)?;
            Ok(())
        }
        Err(_) => Ok(()),
    }
}

// Puts a keyword at the end, and a space after it where the heading has none so far.
fn push_keyword(out: &mut String, word: &[u8], old: Option<Span>) -> Result<(), AllocError>
    requires utf8 { IsUtf8 word.now }
    ensures ok { Writes result out.old out.new (word.now ++ gap_behind old) }
{
    push_bytes(out, word)?;
    match old {
        Some(_) => Ok(()),
        None => {
            out.push_str(" ")?;
            Ok(())
        }
    }
}

// Puts what follows the keyword's part of an entry's text at the end, up to the last stamp of a plan, with the stamps
// shifted; where that ends.
fn push_shifts(
    alloc: Global,
    out: &mut String,
    entry: &Entry,
    keyword: Span,
    plan: Plan,
) -> Result<u32, Fault>
    requires plan { CanWrite entry.now.text keyword plan }
    requires fits { length entry.now.text < 2 ^ 32 }
    ensures ok { Writes result out.old out.new (plan_text entry.now.text keyword plan) }
    ensures end { Gives result (plan_end keyword plan) }
    ensures memory { IsOkUnless result memory_fault }
{
    let (first, second) = plan.shifts;
    let end = push_shift(alloc, out, entry, keyword.at + keyword.len, first)?;
    push_shift(alloc, out, entry, end, second)
}

// Puts what stands in an entry's text from a place up to a stamp at the end, and the stamp shifted; where that ends.
fn push_shift(
    alloc: Global,
    out: &mut String,
    entry: &Entry,
    from: u32,
    shift: Option<Shift>,
) -> Result<u32, Fault>
    requires utf8 { IsUtf8 entry.now.text }
    requires fits { length entry.now.text < 2 ^ 32 }
    requires from { IsCharBoundary entry.now.text from }
    requires behind { IsBehind entry.now.text from shift }
    ensures ok { Writes result out.old out.new (shift_text entry.now.text from shift) }
    ensures end { Gives result (shift_end from shift) }
    ensures cut { IfOk result (λ end. IsCharBoundary entry.now.text end) }
    ensures memory { IsOkUnless result memory_fault }
{
    let Some(Shift { span, stamp }) = shift else {
        return Ok(from);
    };
    let kept = Span {
        at: from,
        len: span.at - from,
    };
    push_bytes(out, entry.part(kept))?;
    out.push_str(print_stamp(alloc, &stamp)?.as_str())?;
    Ok(span.at + span.len)
}

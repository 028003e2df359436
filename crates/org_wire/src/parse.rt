//! What a line says, read without memory.
ghost use Rattle.std.specs.Prelude.{◌≡◌, ◌≤◌, length};
ghost use Rattle.org_wire.specs.Lines.{cut_at};
ghost use Rattle.org_wire.specs.Stream.{add_line, at_line, complete_line, drop_line, edit_line, first_number, inherit_line, keywords_line, line_of, number_of, others_line, pin_line, pinned_line, profile_line, seen_of, text_line, unpin_line};
ghost use Rattle.org_wire.specs.Parsed.{IsWithin, said};

use crate::command::Command;
use crate::parsed::{BorrowedCommand, ParsedLine};
use crate::views::parse_question;
use crate::words::{
    are_words, cut, first_number, is_utf8, moment, name, number, one_word, read_base,
};
use org_base::Profile;

// What a line says, in the second protocol or in the first. Words are separated by exactly one space,
// and none is empty.
#[tactic(auto, unfolding(crate::specs::Stream::line_of))]
pub(crate) fn parse_line(second: bool, line: &[u8]) -> ParsedLine<'_>
    ensures value { line_of second line.now ≡ said result }
    ensures within { IsWithin (length line.now) result }
{
    if line == b"inherit".as_slice() {
        return ParsedLine::BorrowedCommand(BorrowedCommand::Inherit(None));
    }
    if line == b"version".as_slice() && second {
        return ParsedLine::Ready(Command::Version);
    }
    let Some((word, rest)) = cut(line, b' ') else {
        return parse_question(second, None, line);
    };
    if word == b"edit".as_slice() {
        return parse_edit(rest);
    }
    if word == b"complete".as_slice() {
        return parse_complete(rest);
    }
    if word == b"text".as_slice() {
        return parse_text(rest);
    }
    if word == b"drop".as_slice() {
        return parse_drop(rest);
    }
    if word == b"inherit".as_slice() {
        return parse_inherit(rest);
    }
    if word == b"at".as_slice() {
        return parse_at(rest);
    }
    if word == b"add".as_slice() {
        return parse_add(rest);
    }
    parse_others(second, line, word, rest)
}

// What a line says whose first word is none of those before: of profiles and pins, or a view.
fn parse_others<'a>(second: bool, line: &'a [u8], word: &[u8], rest: &'a [u8]) -> ParsedLine<'a>
    requires shorter { length rest.now ≤ length line.now }
    ensures value { others_line second line.now (record { before = word.now; after = rest.now }) ≡ said result }
    ensures within { IsWithin (length line.now) result }
{
    if word == b"profile".as_slice() {
        return parse_profile(rest);
    }
    if word == b"pin".as_slice() {
        return parse_pin(rest);
    }
    if word == b"unpin".as_slice() {
        return parse_unpin(rest);
    }
    if word == b"pinned".as_slice() {
        return parse_pinned(second, rest);
    }
    if word == b"keywords".as_slice() && second {
        return parse_keywords(rest);
    }
    parse_question(second, None, line)
}

// What stands after `pinned`.
fn parse_pinned(second: bool, rest: &[u8]) -> ParsedLine<'_>
    ensures value { pinned_line second (first_number (cut_at 32 rest.now)) ≡ said result }
    ensures within { IsWithin (length rest.now) result }
{
    match first_number(rest) {
        Some((session, line)) => parse_question(second, Some(session), line),
        None => ParsedLine::Bad,
    }
}

// What stands after `edit`.
fn parse_edit(rest: &[u8]) -> ParsedLine<'_>
    ensures value { edit_line (seen_of rest.now) ≡ said result }
    ensures within { IsWithin (length rest.now) result }
{
    let Some((seen, rest)) = read_base(rest) else {
        return ParsedLine::Bad;
    };
    let Some((at, rest)) = first_number(rest) else {
        return ParsedLine::Bad;
    };
    let Some((del, size)) = first_number(rest) else {
        return ParsedLine::Bad;
    };
    match number(size) {
        Some(size) => ParsedLine::Edit(seen, at, del, size),
        None => ParsedLine::Bad,
    }
}

// What stands after `complete`.
fn parse_complete(rest: &[u8]) -> ParsedLine<'_>
    ensures value { complete_line (seen_of rest.now) ≡ said result }
    ensures within { IsWithin (length rest.now) result }
{
    let Some((seen, rest)) = read_base(rest) else {
        return ParsedLine::Bad;
    };
    let Some((line, word)) = first_number(rest) else {
        return ParsedLine::Bad;
    };
    match one_word(word) {
        Some(keyword) => ParsedLine::BorrowedCommand(BorrowedCommand::Complete(
            seen, line, keyword,
        )),
        None => ParsedLine::Bad,
    }
}

// What stands after `profile`.
fn parse_profile(rest: &[u8]) -> ParsedLine<'_>
    ensures value { profile_line rest.now ≡ said result }
    ensures within { IsWithin (length rest.now) result }
{
    match rest {
        b"1" => ParsedLine::Ready(Command::Profile(Profile::One)),
        b"2" => ParsedLine::Ready(Command::Profile(Profile::Two)),
        _ => ParsedLine::Bad,
    }
}

// What stands after `pin`.
fn parse_pin(rest: &[u8]) -> ParsedLine<'_>
    ensures value { pin_line (number_of rest.now) ≡ said result }
    ensures within { IsWithin (length rest.now) result }
{
    match number(rest) {
        Some(session) => ParsedLine::Ready(Command::Pin(session)),
        None => ParsedLine::Bad,
    }
}

// What stands after `unpin`.
fn parse_unpin(rest: &[u8]) -> ParsedLine<'_>
    ensures value { unpin_line (number_of rest.now) ≡ said result }
    ensures within { IsWithin (length rest.now) result }
{
    match number(rest) {
        Some(session) => ParsedLine::Ready(Command::Unpin(session)),
        None => ParsedLine::Bad,
    }
}

// What stands after `drop`.
fn parse_drop(rest: &[u8]) -> ParsedLine<'_>
    ensures value { drop_line rest.now ≡ said result }
    ensures within { IsWithin (length rest.now) result }
{
    match name(rest) {
        Some(name) => ParsedLine::BorrowedCommand(BorrowedCommand::Drop(name)),
        None => ParsedLine::Bad,
    }
}

// What stands after `inherit`.
fn parse_inherit(rest: &[u8]) -> ParsedLine<'_>
    ensures value { inherit_line rest.now ≡ said result }
    ensures within { IsWithin (length rest.now) result }
{
    if is_utf8(rest) && are_words(b' ', rest) {
        ParsedLine::BorrowedCommand(BorrowedCommand::Inherit(Some(rest)))
    } else {
        ParsedLine::Bad
    }
}

// What stands after `text`.
fn parse_text(rest: &[u8]) -> ParsedLine<'_>
    ensures value { text_line rest.now ≡ said result }
    ensures within { IsWithin (length rest.now) result }
{
    match name(rest) {
        Some(name) => ParsedLine::BorrowedCommand(BorrowedCommand::Text(name)),
        None => ParsedLine::Bad,
    }
}

// What stands after `keywords`.
fn parse_keywords(rest: &[u8]) -> ParsedLine<'_>
    ensures value { keywords_line rest.now ≡ said result }
    ensures within { IsWithin (length rest.now) result }
{
    match name(rest) {
        Some(name) => ParsedLine::BorrowedCommand(BorrowedCommand::Keywords(name)),
        None => ParsedLine::Bad,
    }
}

// What stands after `add`.
fn parse_add(rest: &[u8]) -> ParsedLine<'_>
    ensures value { add_line (cut_at 32 rest.now) ≡ said result }
    ensures within { IsWithin (length rest.now) result }
{
    let Some((word, size)) = cut(rest, b' ') else {
        return ParsedLine::Bad;
    };
    let Some(name) = name(word) else {
        return ParsedLine::Bad;
    };
    match number(size) {
        Some(size) => ParsedLine::Add(name, size),
        None => ParsedLine::Bad,
    }
}

// What stands after `at`.
fn parse_at(rest: &[u8]) -> ParsedLine<'_>
    ensures value { at_line (cut_at 32 rest.now) ≡ said result }
    ensures within { IsWithin (length rest.now) result }
{
    let Some((date, time)) = cut(rest, b' ') else {
        return ParsedLine::Bad;
    };
    if one_word(date).is_none() || one_word(time).is_none() {
        return ParsedLine::Bad;
    }
    ParsedLine::Ready(Command::At(moment(date, time)))
}

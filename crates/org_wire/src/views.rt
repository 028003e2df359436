//! The view that a line asks for, read without memory.
ghost use Rattle.std.specs.Prelude.{◌≡◌, length};
ghost use Rattle.std.specs.Option.{option_copied};
ghost use Rattle.org_wire.specs.Lines.{cut_at};
ghost use Rattle.org_wire.specs.Stream.{agenda_line, clock_line, file_line, list_line, match_line, question_line, todo_line, view_line};
ghost use Rattle.org_wire.specs.Parsed.{IsWithin, said};

use crate::command::Request;
use crate::parsed::{BorrowedCommand, ParsedLine};
use crate::words::{are_words, cut, is_utf8, is_word, name, number, one_word};
use org_engine::Form;

// The question that a line asks of a world: for the text of a view, or in the second protocol for places.
pub(crate) fn parse_question(second: bool, session: Option<u64>, line: &[u8]) -> ParsedLine<'_>
    ensures value { question_line second session line.now ≡ said result }
    ensures within { IsWithin (length line.now) result }
{
    if second && line.starts_with(b"places ") {
        let form = Form::Places;
        return parse_view(Request { session, form }, &line[7..]);
    }
    let form = Form::Text;
    parse_view(Request { session, form }, line)
}

// The view that a line asks for.
fn parse_view(request: Request, line: &[u8]) -> ParsedLine<'_>
    ensures value { view_line request line.now ≡ said result }
    ensures within { IsWithin (length line.now) result }
{
    if line == b"todo".as_slice() {
        return ParsedLine::BorrowedCommand(BorrowedCommand::Todo(request, None, None));
    }
    if line == b"match".as_slice() {
        return ParsedLine::BorrowedCommand(BorrowedCommand::Match(request, None, ""));
    }
    if line == b"clock".as_slice() {
        return ParsedLine::BorrowedCommand(BorrowedCommand::Clock(request, ""));
    }
    let Some((word, rest)) = cut(line, b' ') else {
        return ParsedLine::Bad;
    };
    if word == b"todo".as_slice() {
        return parse_todo(request, None, rest);
    }
    if word == b"match".as_slice() {
        return parse_match(request, None, rest);
    }
    if word.starts_with(b"file=") {
        return parse_file(request, &word[5..], rest);
    }
    if word == b"clock".as_slice() {
        return parse_clock(request, rest);
    }
    if word == b"agenda".as_slice() {
        return parse_agenda(request, rest);
    }
    ParsedLine::Bad
}

// What stands after `file=NAME`.
fn parse_file<'a>(request: Request, wanted: &'a [u8], rest: &'a [u8]) -> ParsedLine<'a>
    ensures value { file_line request wanted.now rest.now ≡ said result }
    ensures within { IsWithin (length rest.now) result }
{
    match name(wanted) {
        Some(file) => parse_list(request, Some(file), rest),
        None => ParsedLine::Bad,
    }
}

// The list that a line asks for.
fn parse_list<'a>(request: Request, file: Option<&'a str>, line: &'a [u8]) -> ParsedLine<'a>
    ensures value { list_line request (option_copied file.entry) line.now ≡ said result }
    ensures within { IsWithin (length line.now) result }
{
    if line == b"todo".as_slice() {
        return ParsedLine::BorrowedCommand(BorrowedCommand::Todo(request, file, None));
    }
    if line == b"match".as_slice() {
        return ParsedLine::BorrowedCommand(BorrowedCommand::Match(request, file, ""));
    }
    let Some((word, rest)) = cut(line, b' ') else {
        return ParsedLine::Bad;
    };
    if word == b"todo".as_slice() {
        return parse_todo(request, file, rest);
    }
    if word == b"match".as_slice() {
        return parse_match(request, file, rest);
    }
    ParsedLine::Bad
}

// What stands after `todo`.
fn parse_todo<'a>(request: Request, file: Option<&'a str>, rest: &'a [u8]) -> ParsedLine<'a>
    ensures value { todo_line request (option_copied file.entry) rest.now ≡ said result }
    ensures within { IsWithin (length rest.now) result }
{
    if is_utf8(rest) && is_word(rest) && are_words(b'|', rest) {
        ParsedLine::BorrowedCommand(BorrowedCommand::Todo(request, file, Some(rest)))
    } else {
        ParsedLine::Bad
    }
}

// What stands after `match`.
fn parse_match<'a>(request: Request, file: Option<&'a str>, rest: &'a [u8]) -> ParsedLine<'a>
    ensures value { match_line request (option_copied file.entry) rest.now ≡ said result }
    ensures within { IsWithin (length rest.now) result }
{
    match str::from_utf8(rest) {
        Ok(text) => ParsedLine::BorrowedCommand(BorrowedCommand::Match(request, file, text)),
        Err(_) => ParsedLine::Bad,
    }
}

// What stands after `clock`.
fn parse_clock(request: Request, rest: &[u8]) -> ParsedLine<'_>
    ensures value { clock_line request rest.now ≡ said result }
    ensures within { IsWithin (length rest.now) result }
{
    match str::from_utf8(rest) {
        Ok(text) => ParsedLine::BorrowedCommand(BorrowedCommand::Clock(request, text)),
        Err(_) => ParsedLine::Bad,
    }
}

// What stands after `agenda`.
fn parse_agenda(request: Request, rest: &[u8]) -> ParsedLine<'_>
    ensures value { agenda_line request (cut_at 32 rest.now) ≡ said result }
    ensures within { IsWithin (length rest.now) result }
{
    let Some((word, days)) = cut(rest, b' ') else {
        return ParsedLine::Bad;
    };
    let Some(date) = one_word(word) else {
        return ParsedLine::Bad;
    };
    match number(days) {
        Some(days) => ParsedLine::BorrowedCommand(BorrowedCommand::Agenda(request, date, days)),
        None => ParsedLine::Bad,
    }
}

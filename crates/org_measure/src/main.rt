//! Parts of the engine at work on their own, so that `make bench` can time them, single calls for `make faults`, and an example
//! of the engine as a library. Its words say which:
//!
//!     org_measure stamps < TEXT             how many timestamps stand in the text, taken as one line
//!     org_measure occurrences UNIT near     of a million questions whether a stamp of 0001-01-01 that repeats by one
//!     org_measure occurrences UNIT far      unit (h, d, w, m, y) occurs on a day, how many are answered yes: on the first
//!                                           thousand days of the calendar in turn, or on the last thousand
//!     org_measure KIND PLACE COUNT READS < TEXT
//!                                           how many lines an ASCII text has after so many edits, each of which puts one
//!                                           byte in, read so many times: KIND is `whole` or `pieces`, PLACE `random`, or
//!                                           `typed`, one byte after the other from the middle on
//!     org_measure sequence ITEMS COUNT      the size of a sequence of so many items, of which so many were replaced
//!     org_measure stream DATE TIME          the replies to the commands of standard input, over texts in one string each
//!     org_measure example                   what the engine as a library does with a file: `example.rt`, to copy from
//!     org_measure append PATH LINE          puts the line at the end of the file by one replacement, as it is tried in
//!                                           `tests/save`: the exit status is 0 where it stands there, 4 without memory, and 5
//!                                           where nothing was changed
//!     org_measure calls                     single calls, and each again where it finds no memory: the exit status is 0 where
//!                                           none was refused, 9 where one was and all was well, and 1 where one gave something
//!                                           else, whose name is printed
#![tactic(auto)]

mod append;
mod calls;
mod day_calls;
mod engine_calls;
mod example;
mod outline_calls;
mod sequences;
mod streams;
mod text_calls;
mod texts;
mod view_calls;

ghost use Rattle.std.specs.Prelude.{◌≡◌, length};
ghost use Rattle.org_stamp.specs.Line.{stamps_of};

use crate::append::append;
use crate::calls::try_calls;
use crate::example::show_example;
use crate::sequences::size_after;
use crate::streams::answer;
use crate::texts::{Place, Work, lines_after};
use org_base::{Fault, Profile};
use org_cal::Day;
use org_pieces::Pieces;
use org_repeat::occurs_on;
use org_save::hold_streams;
use org_stamp::{Stamp, read_stamp, stamps_in};
use org_text::Whole;
use std::alloc::Global;
use std::env;
use std::io::{Input, Read};
use std::process::ExitCode;

// How many questions are asked.
const QUESTIONS: u64 = 1_000_000;

// Over how many days they go.
const DAYS: u64 = 1_000;

// The first of the calendar's last days.
const FIRST_FAR: u64 = 3_651_060;

// What is measured.
#[derive(Clone, Copy)]
enum Part<'a> {
    Stamps,
    Occurrences { unit: &'a str, is_far: bool },
    Edits { is_whole: bool, work: Work },
    Sequence { items: u32, count: u64 },
    Stream { date: &'a str, time: &'a str },
    Example,
}

fn main(rt: HostRuntime) -> ExitCode {
    let _held = hold_streams(&rt);
    let Ok(words) = env::args(&rt) else {
        return ExitCode::from(2);
    };
    let Ok(words) = words.collect::<Vec<String>>(rt.alloc()) else {
        return ExitCode::from(2);
    };
    if asks_calls(words.as_slice()) {
        return ExitCode::from(try_calls(&rt));
    }
    if let Some((path, line)) = append_asked(words.as_slice()) {
        return ExitCode::from(append(&rt, path, line));
    }
    let Some(part) = parse_part(words.as_slice()) else {
        let _ = eprintln!(rt; "org_measure: no such part, see the head of its source");
        return ExitCode::from(2);
    };
    if measure(&rt, part).is_none() {
        return ExitCode::from(3);
    }
    ExitCode::from(0)
}

fn asks_calls(words: &[String]) -> bool {
    words.len() == 2 && words[1].as_str() == "calls"
}

// The file and the line that is to stand at its end.
fn append_asked(words: &[String]) -> Option<(&str, &str)> {
    match words {
        [_, part, path, line] if part.as_str() == "append" => Some((path.as_str(), line.as_str())),
        _ => None,
    }
}

// Does a part of the work, and prints what came out; None where it can't be done.
fn measure<R: AllocGlobal + Input + Print>(rt: &R, part: Part<'_>) -> Option<()> {
    let count = match part {
        Part::Stamps => count_stamps(read_all(rt)?.as_slice()) as u64,
        Part::Occurrences { unit, is_far } => count_occurrences(unit, is_far),
        Part::Edits { is_whole, work } => {
            count_lines(rt.alloc(), &read_all(rt)?, is_whole, work)?
        }
        Part::Sequence { items, count } => size_after(rt.alloc(), items, count).ok()?,
        Part::Stream { date, time } => return answer(rt, date, time),
        Part::Example => return show_example(rt).ok(),
    };
    let _ = println!(rt; "{count}");
    Some(())
}

fn read_all<R: AllocGlobal + Input>(rt: &R) -> Option<Vec<u8>> {
    let mut bytes = Vec::new(rt.alloc());
    match rt.reader().read_to_end(&mut bytes) {
        Ok(_) => Some(bytes),
        Err(_) => None,
    }
}

// What the program's words say.
fn parse_part(words: &[String]) -> Option<Part<'_>> {
    if words.len() == 2 {
        return part_alone(words[1].as_str());
    }
    if words.len() == 5 {
        return edits_asked(words);
    }
    if words.len() != 4 {
        return None;
    }
    let (second, third) = (words[2].as_str(), words[3].as_str());
    match words[1].as_str() {
        "occurrences" => Some(Part::Occurrences {
            unit: second,
            is_far: third == "far",
        }),
        "sequence" => Some(Part::Sequence {
            items: second.parse().ok()?,
            count: third.parse().ok()?,
        }),
        "stream" => Some(Part::Stream {
            date: second,
            time: third,
        }),
        _ => None,
    }
}

// A part that needs no other word.
fn part_alone(word: &str) -> Option<Part<'static>> {
    match word {
        "stamps" => Some(Part::Stamps),
        "example" => Some(Part::Example),
        _ => None,
    }
}

fn edits_asked(words: &[String]) -> Option<Part<'_>>
    requires { length words.now ≡ 5 }
{
    Some(Part::Edits {
        is_whole: words[1].as_str() == "whole",
        work: Work {
            place: place_of(words[2].as_str())?,
            edits: words[3].as_str().parse().ok()?,
            reads: words[4].as_str().parse().ok()?,
        },
    })
}

fn place_of(word: &str) -> Option<Place> {
    match word {
        "random" => Some(Place::Random),
        "typed" => Some(Place::Typed),
        _ => None,
    }
}

fn count_lines(alloc: Global, text: &[u8], is_whole: bool, work: Work) -> Option<u64> {
    let text = str::from_utf8(text).ok()?;
    lines_of(alloc, text, is_whole, work).ok()
}

fn lines_of(alloc: Global, text: &str, is_whole: bool, work: Work) -> Result<u64, Fault> {
    if is_whole {
        lines_after::<Whole>(alloc, text, work)
    } else {
        lines_after::<Pieces>(alloc, text, work)
    }
}

// How many timestamps stand in the text, taken as one line.
fn count_stamps(text: &[u8]) -> usize
    ensures value { result ≡ length (stamps_of text.now) }
{
    stamps_in(text).count()
}

fn count_occurrences(unit: &str, is_far: bool) -> u64 {
    let Some(stamp) = daily_stamp(unit) else {
        return 0;
    };
    let first = if is_far { FIRST_FAR } else { 1 };
    let mut count = 0u64;
    for question in 0..QUESTIONS {
        if is_on(&stamp, first + question % DAYS) {
            count = count.saturating_add(1);
        }
    }
    count
}

// A stamp of the calendar's first day that repeats by one unit.
fn daily_stamp(unit: &str) -> Option<Stamp> {
    let text: &[u8] = match unit {
        "h" => b"<0001-01-01 Mon 0:00 +1h>",
        "d" => b"<0001-01-01 Mon +1d>",
        "w" => b"<0001-01-01 Mon +1w>",
        "m" => b"<0001-01-01 Mon +1m>",
        "y" => b"<0001-01-01 Mon +1y>",
        _ => return None,
    };
    let (stamp, _) = read_stamp(text, 0)?;
    Some(stamp)
}

fn is_on(stamp: &Stamp, number: u64) -> bool {
    match Day::of_number(number) {
        Some(day) => occurs_on(stamp, Profile::One, day),
        None => false,
    }
}

//! Each call that takes memory and that no stream reaches, or of which a stream shows less than its value does: once, and
//! once more where it finds no memory, for `tests/refused.sh`, which refuses growths of memory one by one.
//!
//! A part answers true where its call gave what it should. Where memory is refused it looks, without taking any, whether
//! what it was given is as before, and hands the refusal on; it answers false where one of the two isn't so.

use crate::day_calls::{indexes_a_stamp, reads_a_table, rows_of_a_day, sums_of_clocks};
use crate::engine_calls::{changes, keeps, works};
use crate::outline_calls::{gathers, pushes_entries, replaces_entries, tests_an_expression};
use crate::text_calls::{assembles_a_line, copies_texts, cuts_lines, edits};
use crate::view_calls::{opens_a_stream, pads};
use org_base::{Code, Fault};
use org_pieces::Pieces;
use org_text::Whole;
use std::alloc::Global;

// A call, or a few that belong together.
#[derive(Clone, Copy, Debug)]
enum Call {
    Texts,
    Whole,
    Pieces,
    Lines,
    LongLine,
    Expression,
    Entries,
    Outline,
    Inherits,
    Changes,
    Pins,
    Work,
    Index,
    Day,
    Sums,
    Table,
    Column,
    Stream,
}

const CALLS: [Call; 18] = [
    Call::Texts,
    Call::Whole,
    Call::Pieces,
    Call::Lines,
    Call::LongLine,
    Call::Expression,
    Call::Entries,
    Call::Outline,
    Call::Inherits,
    Call::Changes,
    Call::Pins,
    Call::Work,
    Call::Index,
    Call::Day,
    Call::Sums,
    Call::Table,
    Call::Column,
    Call::Stream,
];

// The exit statuses: no memory was refused; one call gave something else; memory was refused, and all was well.
const AMPLE: u8 = 0;

const WRONG: u8 = 1;

const REFUSED: u8 = 9;

// How a call went.
#[derive(Clone, Copy, PartialEq, Eq)]
enum Answer {
    AsWanted,
    NoMemory,
    Other,
}

/// Tries each call, prints the name of one that went wrong, and answers the exit status.
pub fn try_calls<R: AllocGlobal + Print>(rt: &R) -> u8 {
    let mut status = AMPLE;
    for call in CALLS {
        let (answer, is_refused) = try_twice(rt.alloc(), call);
        if is_refused {
            status = REFUSED;
        }
        if answer != Answer::AsWanted {
            let _ = println!(rt; "{call:?}");
            return WRONG;
        }
    }
    status
}

// A call, and once more where it found no memory: the last answer, and whether it was asked for twice.
fn try_twice(alloc: Global, call: Call) -> (Answer, bool) {
    match answer_of(alloc, call) {
        Answer::NoMemory => (answer_of(alloc, call), true),
        answer => (answer, false),
    }
}

fn answer_of(alloc: Global, call: Call) -> Answer {
    match run_call(alloc, call) {
        Ok(true) => Answer::AsWanted,
        Err(Fault::Plain(Code::Memory)) => Answer::NoMemory,
        _ => Answer::Other,
    }
}

fn run_call(alloc: Global, call: Call) -> Result<bool, Fault> {
    match call {
        Call::Texts => copies_texts(alloc),
        Call::Whole => edits::<Whole>(alloc),
        Call::Pieces => edits::<Pieces>(alloc),
        Call::Lines => cuts_lines(alloc),
        Call::LongLine => assembles_a_line(alloc),
        Call::Expression => tests_an_expression(alloc),
        Call::Entries => pushes_entries(alloc),
        Call::Outline => replaces_entries(alloc),
        Call::Inherits => gathers(alloc),
        Call::Changes => changes(alloc),
        Call::Pins => keeps(alloc),
        Call::Work => works(alloc),
        Call::Index => indexes_a_stamp(alloc),
        Call::Day => rows_of_a_day(alloc),
        Call::Sums => sums_of_clocks(alloc),
        Call::Table => reads_a_table(alloc),
        Call::Column => pads(alloc),
        Call::Stream => opens_a_stream(alloc),
    }
}

//! The engine as a library: what a plug-in of an editor does with a file, in the order in which it does it.
//!
//! Copy from here. A file is added, its agenda is asked for, a key is typed, a change that comes too late is refused, a
//! task is completed. Texts are kept in pieces (`Pieces`), so that a key costs the way down to its place, and not the
//! text.
//!
//! Tests: `org_measure/stdout`, which is what it prints.

use org_base::Fault;
use org_cal::Moment;
use org_engine::{Engine, Form, View};
use org_pieces::Pieces;
use std::alloc::Global;

// Who changes files: any number from 1 to 64. Two editors take two numbers.
const SESSION: u64 = 1;

const NAME: &str = "home.org";

const TEXT: &str = "* TODO Water the plants
SCHEDULED: <2024-02-28 Wed +1w>
* Dentist <2024-02-28 Wed 08:15>
";

/// Does it, and prints what comes of it. Any refusal but that of the change that comes too late ends it.
pub fn show_example<R: AllocGlobal + Print>(rt: &R) -> Result<(), Fault> {
    let mut engine = new_engine(rt.alloc())?;
    let opened = engine.add(NAME, TEXT.as_bytes())?;
    show_agenda(rt, &mut engine, Form::Text)?;
    show_agenda(rt, &mut engine, Form::Places)?;
    let typed = type_key(&mut engine, opened)?;
    show_late_change(rt, &mut engine, opened);
    complete_first(&mut engine, typed)?;
    show_agenda(rt, &mut engine, Form::Text)?;
    show_text(rt, &engine)
}

// An engine without files, which answers for this moment until `set_moment` names another.
fn new_engine(alloc: Global) -> Result<Engine<Pieces>, Fault> {
    let moment = Moment::read(b"2024-02-28", b"07:30")?;
    Ok(Engine::new(alloc, moment, 0))
}

// The agenda of one day: its text, or where each of its lines leads.
fn show_agenda<R: Print>(rt: &R, engine: &mut Engine<Pieces>, form: Form) -> Result<(), Fault> {
    let view = engine.query(View::Agenda("2024-02-28", 1), form, None)?;
    let _ = print!(rt; "{view}");
    Ok(())
}

// Puts `[#A] ` in front of the first title, in the text that this program has seen; gives the serial of the new text.
fn type_key(engine: &mut Engine<Pieces>, seen: u64) -> Result<u64, Fault> {
    engine.edit(SESSION, NAME, seen, 7, 0, b"[#A] ".as_slice())
}

// A change of a text that is no longer the file's is refused, and the refusal says which one is. Then the text is asked
// for again (`text_of`), and the change made anew.
fn show_late_change<R: Print>(rt: &R, engine: &mut Engine<Pieces>, seen: u64) {
    if let Err(Fault::Stale(serial)) = type_key(engine, seen) {
        let _ = println!(rt; "stale: the text has serial {serial}");
    }
}

// Completes the task on the first line. Its stamp repeats, so it moves on by a week.
fn complete_first(engine: &mut Engine<Pieces>, seen: u64) -> Result<u64, Fault> {
    engine.complete(SESSION, NAME, seen, 1, "DONE")
}

fn show_text<R: Print>(rt: &R, engine: &Engine<Pieces>) -> Result<(), Fault> {
    let text = engine.text_of(NAME)?;
    let _ = print!(rt; "{text}");
    Ok(())
}

//! An act on a file, and what is printed of it.
ghost use Rattle.std.specs.Prelude.{◌≡◌, string_bytes};
ghost use Rattle.org_act.specs.Changes.{LiesIn};
ghost use Rattle.orgq_acts.specs.Amending.{Ends, Stays};

use crate::heading::HeadingText;
use crate::refusals::say_unamended;
use crate::told::shown_lines;
use org_act::{Act, Amended, OwnedChange, Refusal, Unamended, amend, with_change};
use org_base::{Code, Fault};
use org_save::{Saved, Store};
use orgq_messages::{out_of_memory, print_all, print_changed, say_of, unamended_status};
use orgq_undo::{Unkept, keep, say_unkept};
use std::alloc::{AllocError, Global};
use std::fs::File;
use std::rt::{Env, Files};
use std::time::Clock;

/// How an act ended: the exit status, and how the text was written, if it was.
#[derive(Clone, Copy, Debug)]
pub struct Ending {
    pub status: u8,
    pub saved: Option<Saved>,
}

/// Does an act as `carry_out` does; but where the heading's file has already what the act makes of it, nothing is written, and
/// that is said.
pub fn carry_out_change<
    R: AllocGlobal + Clock + Env + Files<File = File> + Print + Eprint,
    S: Store,
    A: Act,
>(rt: &R, store: &mut S, heading: &HeadingText, act: &A) -> Ending {
    match stands_already(rt.alloc(), heading, act) {
        Ok(false) => carry_out(rt, store, heading, act),
        Ok(true) => {
            say_of(rt, heading.name.as_str(), ALREADY);
            Ending {
                status: try_out(rt, heading, act),
                saved: None,
            }
        }
        Err(_) => Ending {
            status: out_of_memory(rt),
            saved: None,
        },
    }
}

/// What is said where a file has already the text that acts make of it.
pub const ALREADY: &str = "it stands so already; nothing was written";

// Whether an act leaves the heading's text as it is; one that is refused doesn't.
fn stands_already<A: Act>(
    alloc: Global,
    heading: &HeadingText,
    act: &A,
) -> Result<bool, AllocError> {
    let text = heading.text.as_str();
    match act.plan(alloc, text) {
        Ok(change) => Ok(
            with_change(alloc, text.as_bytes(), &change)?.as_slice() == text.as_bytes(),
        ),
        Err(_) => Ok(false),
    }
}

/// Does an act to a heading's file that had the text which was read, prints the heading's line as it was and as it is, or its
/// line and that of its clock, or says why the act wasn't done. What is printed is made before anything is written.
pub fn carry_out<
    R: AllocGlobal + Clock + Env + Files<File = File> + Print + Eprint,
    S: Store,
    A: Act,
>(rt: &R, store: &mut S, heading: &HeadingText, act: &A) -> Ending
    ensures ok { Ends result (A.amended act.now) heading.now (S.events store.old) (S.events store.new) }
    ensures whole { Stays (A.amended act.now) heading.now (S.events store.old) (S.events store.new) }
{
    match planned_lines(rt.alloc(), heading, act) {
        Ok(lines) => carry_out_shown(rt, store, heading, act, lines.as_slice()),
        Err(why) => Ending {
            status: report_unamended(rt, heading, why),
            saved: None,
        },
    }
}

/// The same with the lines that are printed of it.
pub fn carry_out_shown<
    R: AllocGlobal + Clock + Env + Files<File = File> + Print + Eprint,
    S: Store,
    A: Act,
>(rt: &R, store: &mut S, heading: &HeadingText, act: &A, lines: &[u8]) -> Ending
    ensures ok { Ends result (A.amended act.now) heading.now (S.events store.old) (S.events store.new) }
    ensures whole { Stays (A.amended act.now) heading.now (S.events store.old) (S.events store.new) }
{
    let kept = keep_act(rt, heading, act);
    match amend(rt.alloc(), store, heading.text.as_str(), act) {
        Ok(
            Amended {
                change: _change,
                saved,
            },
        ) => Ending {
            status: print_kept(rt, heading.name.as_str(), lines, kept),
            saved: Some(saved),
        },
        Err(why) => Ending {
            status: report_unamended(rt, heading, why),
            saved: None,
        },
    }
}

// Keeps what an act is about to change, so that it can be taken back.
fn keep_act<R: AllocGlobal + Clock + Env + Files<File = File>, A: Act>(
    rt: &R,
    heading: &HeadingText,
    act: &A,
) -> Result<(), Unkept> {
    match act.plan(rt.alloc(), heading.text.as_str()) {
        Ok(change) => keep_change(rt, heading, &change),
        Err(_) => Ok(()),
    }
}

/// Keeps a change that is about to be made in a heading's file, so that it can be taken back.
pub fn keep_change<R: AllocGlobal + Clock + Env + Files<File = File>>(
    rt: &R,
    heading: &HeadingText,
    change: &OwnedChange,
) -> Result<(), Unkept> {
    let minute = heading.moment.minute().number();
    keep(
        rt,
        heading.name.as_str(),
        heading.text.as_str(),
        change,
        minute,
    )
}

/// Prints what was changed in a file, and gives the status; where it can't be taken back, that is said.
pub fn print_kept<R: AllocGlobal + Print + Eprint>(
    rt: &R,
    name: &str,
    lines: &[u8],
    kept: Result<(), Unkept>,
) -> u8 {
    let status = print_changed(rt, lines);
    if let Err(why) = kept {
        say_unkept(rt, name, why);
    }
    status
}

/// The text that an act makes of a heading's file, and what is printed of the change.
#[derive(Debug, Drop)]
pub struct PlannedText {
    pub text: String,
    pub lines: Vec<u8>,
}

/// What an act makes of a heading's file, or why it is refused.
pub fn planned_text<A: Act>(
    alloc: Global,
    heading: &HeadingText,
    act: &A,
) -> Result<PlannedText, Unamended> {
    let lines = planned_lines(alloc, heading, act)?;
    let text = changed_text(alloc, heading, act)?;
    Ok(PlannedText { text, lines })
}

/// The text that an act makes of a heading's file, or why it is refused.
pub fn changed_text<A: Act>(
    alloc: Global,
    heading: &HeadingText,
    act: &A,
) -> Result<String, Unamended> {
    let text = heading.text.as_str();
    let change = match act.plan(alloc, text) {
        Ok(change) => change,
        Err(why) => return Err(Unamended::Refused(why)),
    };
    let Ok(bytes) = with_change(alloc, text.as_bytes(), &change) else {
        return Err(Unamended::Refused(Refusal::Fault(Fault::Plain(Code::Memory))));
    };
    match String::from_utf8(bytes) {
        Ok(text) => Ok(text),
        Err(_) => Err(Unamended::Refused(Refusal::Misread)),
    }
}

// What is printed of the change that an act makes, or why it is refused.
fn planned_lines<A: Act>(
    alloc: Global,
    heading: &HeadingText,
    act: &A,
) -> Result<Vec<u8>, Unamended> {
    let planned = act.plan(alloc, heading.text.as_str());
    match planned {
        Ok(change) => match shown_lines(alloc, heading, &change) {
            Ok(lines) => Ok(lines),
            Err(_) => Err(Unamended::Refused(Refusal::Fault(Fault::Plain(Code::Memory)))),
        },
        Err(why) => Err(Unamended::Refused(why)),
    }
}

/// Prints what an act would do, or says why it is refused, and gives the exit status. It can't write any file.
pub fn try_out<R: AllocGlobal + Print + Eprint, A: Act>(
    rt: &R,
    heading: &HeadingText,
    act: &A,
) -> u8 {
    match act.plan(rt.alloc(), heading.text.as_str()) {
        Ok(change) => print_change(rt, heading, &change),
        Err(why) => report_unamended(rt, heading, Unamended::Refused(why)),
    }
}

/// Says why an act would be refused, and gives the exit status; none where it wouldn't be.
pub fn report_refusal<R: AllocGlobal + Eprint, A: Act>(
    rt: &R,
    heading: &HeadingText,
    act: &A,
) -> Option<u8> {
    match act.plan(rt.alloc(), heading.text.as_str()) {
        Ok(_change) => None,
        Err(why) => Some(report_unamended(rt, heading, Unamended::Refused(why))),
    }
}

/// Says why an act wasn't done, and gives the exit status.
#[tactic(auto, using(orgq_messages::proofs::ExitLemmas::never_0))]
pub fn report_unamended<R: AllocGlobal + Eprint>(
    rt: &R,
    heading: &HeadingText,
    why: Unamended,
) -> u8
    ensures refused { result ≡ 0 → ⊥ }
{
    say_unamended(rt, heading, heading.line, &why);
    unamended_status(&why)
}

// Prints the heading's line without and with a change, and gives the exit status.
fn print_change<R: AllocGlobal + Print + Eprint>(
    rt: &R,
    heading: &HeadingText,
    change: &OwnedChange,
) -> u8
    requires within { LiesIn (string_bytes heading.now.text) change.now }
{
    match shown_lines(rt.alloc(), heading, change) {
        Ok(lines) => print_all(rt, lines.as_slice(), 0),
        Err(_) => out_of_memory(rt),
    }
}

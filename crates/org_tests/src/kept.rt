//! What an engine keeps of its files: how many sections it classifies and reads.
use org_base::Fault;
use org_cal::Moment;
use org_engine::Engine;
use org_text::{Text, Whole};
use org_wire::{Counted, End, Options, Protocol, run};
use std::alloc::Global;
use std::test::Fail;

pub(crate) fn new_engine<T: Text>(alloc: Global) -> Result<Engine<T>, Fault> {
    let moment = Moment::read(b"2024-02-28", b"10:30")?;
    Ok(Engine::new(alloc, moment, 0))
}

// The replies to commands, with no background step after any; None where the run was stopped.
pub(crate) fn replies<T: Text>(
    alloc: Global,
    engine: &mut Engine<T>,
    commands: &str,
) -> Option<Vec<u8>> {
    let mut reader = Counted::new(commands.as_bytes());
    let mut writer = Counted::new(Vec::new(alloc));
    let options = Options {
        idle: 0,
        protocol: Protocol::First,
    };
    match run(alloc, &mut reader, &mut writer, engine, options) {
        End::Done => Some(writer.into_inner()),
        End::Stopped(_) => None,
    }
}

fn answers(alloc: Global, engine: &mut Engine<Whole>, commands: &str, want: &str) -> bool {
    match replies(alloc, engine, commands) {
        Some(shown) => shown.as_slice() == want.as_bytes(),
        None => false,
    }
}

fn number(word: Option<&str>) -> Option<u64> {
    word?.parse::<u64>().ok()
}

// Whether so many sections were classified and read, and so many are still to be read: of the current world, and of the one
// that the first session keeps, where it keeps one.
fn is_counted(engine: &Engine<Whole>, counts: &str) -> bool {
    let mut words = counts.split(' ');
    number(words.next()) == Some(engine.meter().classified())
        && number(words.next()) == Some(engine.meter().read())
        && number(words.next()) == Some(engine.pending())
        && number(words.next()) == engine.pending_of(1).ok()
}

// Whether commands, or one background step, are answered as they should be, with these counts after them.
fn is_step(alloc: Global, engine: &mut Engine<Whole>, row: &str) -> Result<bool, Fault> {
    let (asked, rest) = row.split_once('~').unwrap_or((row, ""));
    let (want, counts) = rest.split_once('~').unwrap_or((rest, ""));
    let is_answered = if asked == "work" {
        engine.work()? == (want == "true")
    } else {
        answers(alloc, engine, asked, want)
    };
    Ok(is_answered && is_counted(engine, counts))
}

fn wrong_in<'a>(
    alloc: Global,
    engine: &mut Engine<Whole>,
    rows: &'a str,
) -> Result<Option<&'a str>, Fault> {
    for row in rows.split('$') {
        if !is_step(alloc, engine, row)? {
            return Ok(Some(row));
        }
    }
    Ok(None)
}

// The first row that is wrong, over an engine without files.
fn wrong_step<'a>(alloc: Global, rows: &'a str) -> Result<Option<&'a str>, Fault> {
    let mut engine = new_engine(alloc)?;
    wrong_in(alloc, &mut engine, rows)
}

// In what follows a tilde stands between commands, replies and counts, and a dollar sign between rows. The counts are how many
// sections were classified, how many were read, how many are still to be read, and how many of what session 1 keeps.

const EDIT: &str = "add a.org 18
* TODO a
* TODO b
~ok 1
~2 0 2$todo
~view 42
  a:          TODO a
  a:          TODO b
~2 2 0$todo
~view 42
  a:          TODO a
  a:          TODO b
~2 2 0$edit 1 a.org 1 9 0 1
x~ok 2
~3 2 1$work~true~3 3 0$work~false~3 3 0$todo
~view 21
  a:          TODO a
~3 3 0";

// What was a heading is text of the section before it, which was not touched itself.
const STAR_LOST: &str = "add a.org 18
* TODO a
* TODO b
~ok 1
~2 0 2$todo
~view 42
  a:          TODO a
  a:          TODO b
~2 2 0$edit 1 a.org 1 10 0 1
x~ok 2
~3 2 1$todo
~view 21
  a:          TODO a
~3 3 0";

const STEPS_ALONE: &str = "work~false~0 0 0$add a.org 18
* TODO a
* TODO b
add b.org 11
x
* TODO c
~ok 1
ok 2
~4 0 4$work~true~4 1 3$work~true~4 2 2$work~true~4 3 1$work~true~4 4 0$work~false~4 4 0$todo
~view 63
  a:          TODO a
  a:          TODO b
  b:          TODO c
~4 4 0";

#[test]
fn an_edit_and_background_steps(rt: HostRuntime) -> Result<(), Fail> {
    assert_eq!(rt; wrong_step(rt.alloc(), EDIT)?, None);
    assert_eq!(rt; wrong_step(rt.alloc(), STAR_LOST)?, None);
    assert_eq!(rt; wrong_step(rt.alloc(), STEPS_ALONE)?, None);
    Ok(())
}

const KEYWORDS_FIRST: &str = "add a.org 27
* WAIT q
* WAIT q
* WAIT q
~ok 1
~3 0 3$edit 1 a.org 1 27 0 20
#+TODO: WAIT | DONE
~ok 2
~4 0 3$todo
~view 63
  a:          WAIT q
  a:          WAIT q
  a:          WAIT q
~4 3 0";

// After a question all sections are read anew where the keywords changed, and the one that was touched where they did not.
const KEYWORDS_LATER: &str = "add a.org 27
* WAIT q
* WAIT q
* WAIT q
~ok 1
~3 0 3$todo
~view 0
~3 3 0$edit 1 a.org 1 27 0 11
#+TITLE: x
~ok 2
~4 3 1$todo
~view 0
~4 4 0$edit 1 a.org 2 27 0 20
#+TODO: WAIT | DONE
~ok 3
~5 4 3$todo
~view 63
  a:          WAIT q
  a:          WAIT q
  a:          WAIT q
~5 7 0";

// Another property line that says the same leaves all but its own section as it was.
const PROPERTY_APPENDED: &str = "add a.org 24
#+PROPERTY: A 1
* q
* q
todo
~ok 1
view 0
~3 3 0$edit 1 a.org 1 13 0 1
+~ok 2
~4 3 1$edit 1 a.org 2 15 0 1
0~ok 3
~5 3 3";

#[test]
fn settings_of_an_edit(rt: HostRuntime) -> Result<(), Fail> {
    assert_eq!(rt; wrong_step(rt.alloc(), KEYWORDS_FIRST)?, None);
    assert_eq!(rt; wrong_step(rt.alloc(), KEYWORDS_LATER)?, None);
    assert_eq!(rt; wrong_step(rt.alloc(), PROPERTY_APPENDED)?, None);
    Ok(())
}

// What is read in one world isn't in the other; a pin has what was read before it.
const PIN: &str = "add a.org 18
* TODO a
* TODO b
~ok 1
~2 0 2$pin 1
~ok 1
~2 0 2 2$todo
~view 42
  a:          TODO a
  a:          TODO b
~2 2 0 2$pinned 1 todo
~view 42
  a:          TODO a
  a:          TODO b
~2 4 0 0$edit 1 a.org 1 9 0 1
x~ok 2
~3 4 1 0$unpin 1
pin 1
~ok 2
ok 2
~3 4 1 1$pinned 1 todo
~view 21
  a:          TODO a
~3 5 1 0$work~true~3 6 0 0";

const DROP: &str = "add a.org 18
* TODO a
* TODO b
add b.org 9
* TODO c
pin 1
~ok 1
ok 2
ok 2
~3 0 3 3$drop a.org
~ok 3
~3 0 1 3$todo
~view 21
  b:          TODO c
~3 1 0 3$add a.org 9
* TODO d
~ok 4
~4 1 1 3$drop b.org
~ok 5
~4 1 1 3";

#[test]
fn pins_and_drops(rt: HostRuntime) -> Result<(), Fail> {
    assert_eq!(rt; wrong_step(rt.alloc(), PIN)?, None);
    assert_eq!(rt; wrong_step(rt.alloc(), DROP)?, None);
    Ok(())
}

// The section of the heading is read, and after the change it is to be read again.
const COMPLETE: &str = "add a.org 27
* TODO a
* TODO b
* TODO c
~ok 1
~3 0 3$complete 1 a.org 1 2 DONE
~ok 2
~4 1 3$todo
~view 42
  a:          TODO a
  a:          TODO c
~4 4 0$complete 1 a.org 2 1 DONE
~ok 3
~5 4 1$complete 1 a.org 3 3 NEXT
complete 1 a.org 3 4 DONE
complete 1 a.org 2 3 DONE
~err 21 keyword
err 20 heading
err 11 stale 3
~5 4 1$todo
~view 21
  a:          TODO c
~5 5 0";

// Neither refused questions nor commands that ask for no view read or classify anything.
const QUIET: &str = "add a.org 18
* TODO a
* TODO b
~ok 1
~2 0 2$agenda 2024-02-30 1
agenda 2024-02-28 0
match a b
match {*}
clock maxlevel=1
clock block=today maxlevel=1 file=b.org
file=b.org todo
pinned 1 todo
~err 13 date
err 14 days
err 15 match 1
err 16 regexp
err 17 option
err 4 unknown
err 4 unknown
err 18 unpinned
~2 0 2$edit 1 a.org 2 0 0 1
xedit 1 a.org 1 0 99 1
xadd a.org 1
xdrop b.org
unpin 1
profile 2
~err 11 stale 1
err 9 range
err 5 taken
err 4 unknown
err 18 unpinned
err 26 late
~2 0 2$at 2024-02-29 8:00
inherit owner
text a.org
pin 1
~ok 1
ok 1
view 18
* TODO a
* TODO b
ok 1
~2 0 2 2";

#[test]
fn completions_and_refusals(rt: HostRuntime) -> Result<(), Fail> {
    assert_eq!(rt; wrong_step(rt.alloc(), COMPLETE)?, None);
    assert_eq!(rt; wrong_step(rt.alloc(), QUIET)?, None);
    Ok(())
}

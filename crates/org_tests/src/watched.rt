//! Which texts an engine looks at again: a text that counts how often its bytes are asked for.
ghost use Rattle.std.specs.Prelude.{◌≡◌};

use crate::kept::{new_engine, replies};
use org_base::Fault;
use org_engine::Engine;
use org_text::{Text, Whole};
use std::alloc::Global;
use std::cell::Cell;
use std::test::Fail;

// A text that counts how often its bytes were asked for.
#[derive(Drop)]
struct Watched {
    whole: Whole,
    looks: Cell<u64>,
}

impl Watched {
    fn new(whole: Whole, looks: u64) -> Watched
        ensures value { ⟦<Whole as Text>⟧.content result.whole ≡ ⟦<Whole as Text>⟧.content whole }
    {
        Watched {
            whole,
            looks: Cell::new(looks),
        }
    }

    fn look(&self) {
        self.looks.set(self.looks.get().saturating_add(1));
    }
}

impl Text for Watched {
    ghost content = { λ w. ⟦<Whole as Text>⟧.content w.whole };

    ghost run_len = { λ w at. ⟦<Whole as Text>⟧.run_len w.whole at };

    fn of_string(alloc: Global, text: String) -> Result<Watched, Fault> {
        match Whole::of_string(alloc, text) {
            Ok(whole) => Ok(Watched::new(whole, 0)),
            Err(fault) => Err(fault),
        }
    }

    fn len(&self) -> usize {
        self.whole.len()
    }

    fn edit(&mut self, at: u64, del: u64, ins: &str) -> Result<(), Fault> {
        self.whole.edit(at, del, ins)
    }

    fn share(&self) -> Result<Watched, Fault> {
        match self.whole.share() {
            Ok(whole) => Ok(Watched::new(whole, self.looks.get())),
            Err(fault) => Err(fault),
        }
    }

    fn copy_out(&self) -> Result<String, Fault> {
        self.look();
        self.whole.copy_out()
    }

    fn piece_at(&self, at: usize) -> &[u8] {
        self.look();
        self.whole.piece_at(at)
    }
}

// The first file's text gives a day warnings and late rows; the second's is empty. All is read.
const WATCHED: &str = "add a.org 180
* TODO p
DEADLINE: <2024-03-13 Wed>
* TODO q
DEADLINE: <2024-03-14 Thu>
* TODO r
DEADLINE: <2024-02-28 Wed>
* DONE s
DEADLINE: <2024-02-27 Tue>
* TODO t
DEADLINE: <2024-02-27 Tue>
add b.org 0
todo
";

// None of these has to look at the first file's text again.
const NO_LOOK: &str = "agenda 2024-02-28 1
$todo
$match LEVEL=1
$clock block=today maxlevel=1
$work$edit 1 b.org 2 0 0 9
* TODO b
$work$todo
";

fn looks(engine: &Engine<Watched>) -> Option<u64> {
    match engine.text_ref("a.org") {
        Some(text) => Some(text.looks.get()),
        None => None,
    }
}

// Whether a row is carried out, and none of its commands is refused.
fn is_accepted(alloc: Global, engine: &mut Engine<Watched>, row: &str) -> Result<bool, Fault> {
    if row == "work" {
        engine.work()?;
        return Ok(true);
    }
    match replies(alloc, engine, row) {
        Some(shown) => Ok(!shown.is_empty() && !shown.as_slice().starts_with(b"err")),
        None => Ok(false),
    }
}

// Whether a row is carried out, and with it the first file's text is looked at or not, as it should be.
fn looks_so(
    alloc: Global,
    engine: &mut Engine<Watched>,
    row: &str,
    want: bool,
) -> Result<bool, Fault> {
    let before = looks(engine);
    let is_accepted = is_accepted(alloc, engine, row)?;
    Ok(is_accepted && before.is_some() && (looks(engine) != before) == want)
}

fn wrong_look(alloc: Global, engine: &mut Engine<Watched>) -> Result<Option<&'static str>, Fault> {
    if !is_accepted(alloc, engine, WATCHED)? {
        return Ok(Some(WATCHED));
    }
    for row in NO_LOOK.split('$') {
        if !looks_so(alloc, engine, row, false)? {
            return Ok(Some(row));
        }
    }
    Ok(None)
}

// The first row with which the first file's text is looked at again, or that is refused.
fn first_look(alloc: Global) -> Result<Option<&'static str>, Fault> {
    let mut engine = new_engine(alloc)?;
    wrong_look(alloc, &mut engine)
}

// Adding a text looks at it, and so does asking for it; or nothing would be counted at all.
fn texts_are_looked_at(alloc: Global) -> Result<bool, Fault> {
    let mut engine = new_engine(alloc)?;
    let is_added = is_accepted(alloc, &mut engine, WATCHED)?;
    Ok(is_added && looks(&engine) > Some(0) && looks_so(alloc, &mut engine, "text a.org\n", true)?)
}

#[test]
fn looks_at_a_text(rt: HostRuntime) -> Result<(), Fail> {
    assert_eq!(rt; first_look(rt.alloc())?, None);
    assert!(rt; texts_are_looked_at(rt.alloc())?);
    Ok(())
}

//! An act, from the text of a file to its replacement.
ghost use Rattle.std.specs.Prelude.{IfErr, IfOk};
ghost use Rattle.org_act.specs.Amending.{IfDone, IfFails, IsUnwritten, IsWritten, StaysAmended};
ghost use Rattle.org_act.specs.Changes.{LiesIn, with_change};
ghost use Rattle.org_save.specs.Replacing.{StaysWhole};

use crate::act::{Act, Refusal};
use crate::change::with_change;
use org_base::{Code, Fault};
use org_save::{Saved, Store, Unsaved, replace};
use org_store::OwnedChange;
use std::alloc::Global;

/// An act that was done.
#[derive(Debug, Drop)]
pub struct Amended {
    /// What it changed.
    pub change: OwnedChange,
    /// How it was written.
    pub saved: Saved,
}

/// Why an act wasn't done.
#[derive(Clone, Copy, Debug)]
pub enum Unamended {
    /// It is refused for the text that stands there. Nothing was done.
    Refused(Refusal),
    /// The text could not be replaced.
    Unsaved(Unsaved),
}

/// Does an act to a file that was read and had the text `old`: works out its change, and replaces the text by that with the
/// change, as `replace` of `org_save` does. The file is read once more right before, and nothing is done where it has another
/// text by then.
///
/// Whatever fails, and wherever the program is stopped, the file has the text that it had or that with the change, whole. An
/// act that is refused does nothing at all.
pub fn amend<S: Store, A: Act>(
    alloc: Global,
    store: &mut S,
    old: &str,
    act: &A,
) -> Result<Amended, Unamended>
    ensures whole { StaysAmended (A.amended act.now old.now) (S.events store.old) (S.events store.new) }
    ensures ok { IfDone result (A.amended act.now) old.now (S.events store.old) (S.events store.new) }
    ensures err { IfFails result (A.amended act.now) old.now (S.events store.old) (S.events store.new) }
{
    let change = match act.plan(alloc, old) {
        Ok(change) => change,
        Err(why) => return Err(Unamended::Refused(why)),
    };
    write_change(alloc, store, old, change)
}

// Replaces the text by that with a change.
fn write_change<S: Store>(
    alloc: Global,
    store: &mut S,
    old: &str,
    change: OwnedChange,
) -> Result<Amended, Unamended>
    requires within { LiesIn old.now change }
    ensures whole { StaysWhole (with_change old.now change) (S.events store.old) (S.events store.new) }
    ensures ok { IfOk result (IsWritten old.now change (S.events store.old) (S.events store.new)) }
    ensures err { IfErr result (IsUnwritten old.now (S.events store.old) (S.events store.new)) }
{
    let Ok(new) = with_change(alloc, old.as_bytes(), &change) else {
        return Err(Unamended::Refused(Refusal::Fault(Fault::Plain(Code::Memory))));
    };
    match replace(alloc, store, old.as_bytes(), &new) {
        Ok(saved) => Ok(Amended { change, saved }),
        Err(unsaved) => Err(Unamended::Unsaved(unsaved)),
    }
}

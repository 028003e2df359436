//! What is done after the rename.
ghost use Rattle.std.specs.Prelude.{OnErr};
ghost use Rattle.org_save.specs.Calls.{AddsAll, AddsApart};
ghost use Rattle.org_save.specs.Replacing.{Finishes, LooksBack, Restores, Settles, rescue_events};

use crate::replacement::is_same;
use crate::{Cause, Meanwhile, Name, Saved, Store};

// Looks at the former file, makes it the target again, and puts the folder's names on the disk. Nothing of this needs more room
// than `room` has, but for what another program wrote.
pub(crate) fn finish<S: Store>(store: &mut S, old: &[u8], new: &[u8], room: &mut Vec<u8>) -> Saved
    ensures value { Finishes old.now new.now result (S.events store.old) (S.events store.new) }
{
    let settled = settle(store, old, new, room);
    match store.sync_folder() {
        Ok(()) => Saved {
            durable: true,
            meanwhile: settled.meanwhile,
            restored: settled.restored,
        },
        Err(_) => settled,
    }
}

// Looks at the former file, and makes it the target again where no other program wrote into it.
fn settle<S: Store>(store: &mut S, old: &[u8], new: &[u8], room: &mut Vec<u8>) -> Saved
    ensures value { Settles old.now new.now result (S.events store.old) (S.events store.new) }
{
    let meanwhile = look_back(store, old, room);
    let restored = match meanwhile {
        Meanwhile::Nothing => restore(store, new, room),
        _ => None,
    };
    Saved {
        durable: false,
        meanwhile,
        restored,
    }
}

// Makes the former file the target again where the target has the new text. What another program did to the one that had the
// name until then is answered; none where it isn't made so.
fn restore<S: Store>(store: &mut S, new: &[u8], room: &mut Vec<u8>) -> Option<Meanwhile>
    ensures value { Restores new.now result (S.events store.old) (S.events store.new) }
{
    let Ok(()) = store.read(Name::Target, room) else {
        return None;
    };
    if !is_same(room, new) {
        return None;
    }
    let Ok(()) = store.restore(new) else {
        return None;
    };
    Some(look_back(store, new, room))
}

// Looks at the former file. What another program wrote into it is kept in a file of its own.
fn look_back<S: Store>(store: &mut S, old: &[u8], room: &mut Vec<u8>) -> Meanwhile
    ensures value { LooksBack old.now result (S.events store.old) (S.events store.new) }
{
    let Ok(()) = store.read_former(room) else {
        return Meanwhile::Unknown;
    };
    if is_same(room, old) {
        return Meanwhile::Nothing;
    }
    match rescue(store, room) {
        Ok(()) => Meanwhile::Rescued,
        Err(_) => Meanwhile::Lost,
    }
}

// Writes bytes into a file of their own.
fn rescue<S: Store>(store: &mut S, bytes: &[u8]) -> Result<(), Cause>
    ensures ok { AddsAll result (rescue_events bytes.now) (S.events store.old) (S.events store.new) }
    ensures err { OnErr result (AddsApart (S.events store.old) (S.events store.new)) }
{
    store.make(Name::Rescue)?;
    store.write(Name::Rescue, bytes)?;
    store.sync(Name::Rescue)
}

//! The replacement.
ghost use Rattle.std.specs.Prelude.{◌≡◌, ◌∷◌, [], ◌↔◌, IfErr, IsTrue, OnErr};
ghost use Rattle.org_save.specs.Calls.{AddsAll, AddsBeside, IfGone};
ghost use Rattle.org_save.specs.Events.{found};
ghost use Rattle.org_save.specs.Replacing.{HasChanged, IfBeforeRename, IfChanged, IfReplaced, IfSaidChanged, IfSaidGone, IfStopped, IsAtRename, StaysWhole, fill_events, swap_events};

use crate::finish::finish;
use crate::{Cause, Name, Saved, Step, Store, Unsaved, Why};
use std::alloc::Global;

/// Replaces the text of a file, which had the bytes `old` when the change was made for them, by `new`. The new text is written
/// whole into a temporary file beside the old one and put on the disk; then the target is read once more, and nothing is done
/// where it has other bytes than `old`; then the temporary file takes its place in one step. Then the former file is looked
/// at: what another program wrote into it meanwhile is kept in a file of its own, and the answer says so. At last the former
/// file gets the new text too, and takes its place again in one step, so that all that lets others read and write it is what it
/// was; until then the owner alone may. No memory is asked for after the first rename, but for what another program wrote.
///
/// Whatever fails, and wherever the program is stopped, the target has the text that it had or the new one, whole. After a
/// refusal it has the text that it had, unless the rename itself seemed to fail; the temporary file is removed, or the refusal
/// says that it may stand there.
///
/// It is refused with `Changed` where the target has other bytes than `old`, and with `Failed` and the step where a call fails.
pub fn replace<S: Store>(
    alloc: Global,
    store: &mut S,
    old: &[u8],
    new: &[u8],
) -> Result<Saved, Unsaved>
    ensures whole { StaysWhole new.now (S.events store.old) (S.events store.new) }
    ensures ok { IfReplaced result old.now new.now (S.events store.old) (S.events store.new) }
    ensures untouched { IfBeforeRename result (S.events store.old) (S.events store.new) }
    ensures changed { IfSaidChanged result old.now (S.events store.old) (S.events store.new) }
    ensures left { IfSaidGone result (S.events store.old) (S.events store.new) }
{
    let length = old.len().max(new.len()).saturating_add(1);
    match Vec::with_capacity(alloc, length) {
        Ok(mut room) => replace_in(store, old, new, &mut room),
        Err(_) => Err(Unsaved {
            why: Why::Failed(Step::Make, Cause::Memory),
            left: false,
        }),
    }
}

// The replacement, with room for what is read.
fn replace_in<S: Store>(
    store: &mut S,
    old: &[u8],
    new: &[u8],
    room: &mut Vec<u8>,
) -> Result<Saved, Unsaved>
    ensures whole { StaysWhole new.now (S.events store.old) (S.events store.new) }
    ensures ok { IfReplaced result old.now new.now (S.events store.old) (S.events store.new) }
    ensures untouched { IfBeforeRename result (S.events store.old) (S.events store.new) }
    ensures changed { IfSaidChanged result old.now (S.events store.old) (S.events store.new) }
    ensures left { IfSaidGone result (S.events store.old) (S.events store.new) }
{
    if let Err(cause) = store.make(Name::Temporary) {
        return Err(Unsaved {
            why: Why::Failed(Step::Make, cause),
            left: false,
        });
    }
    match swap(store, old, new, room) {
        Ok(()) => Ok(finish(store, old, new, room)),
        Err(why) => Err(Unsaved {
            why,
            left: is_left(store),
        }),
    }
}

// Removes the temporary file, and says whether it may still stand there.
fn is_left<S: Store>(store: &mut S) -> bool
    ensures any { AddsBeside (S.events store.old) (S.events store.new) }
    ensures gone { IfGone result Name.Temporary (S.events store.old) (S.events store.new) }
{
    match store.remove(Name::Temporary) {
        Ok(()) => false,
        Err(_) => true,
    }
}

// Fills the temporary file and puts it in the target's place.
fn swap<S: Store>(store: &mut S, old: &[u8], new: &[u8], room: &mut Vec<u8>) -> Result<(), Why>
    ensures ok { AddsAll result (swap_events old.now new.now) (S.events store.old) (S.events store.new) }
    ensures err { IfStopped result old.now new.now (S.events store.old) (S.events store.new) }
    ensures changed { IfChanged result (HasChanged old.now (S.events store.old) (S.events store.new)) }
{
    fill(store, new)?;
    compare(store, old, room)?;
    match store.rename(Name::Temporary, Name::Target) {
        Ok(()) => Ok(()),
        Err(cause) => Err(Why::Failed(Step::Rename, cause)),
    }
}

// Fills the temporary file.
fn fill<S: Store>(store: &mut S, new: &[u8]) -> Result<(), Why>
    ensures ok { AddsAll result (fill_events new.now) (S.events store.old) (S.events store.new) }
    ensures err { OnErr result (AddsBeside (S.events store.old) (S.events store.new)) }
    ensures why { IfErr result (λ why. why ≡ Why.Changed → ⊥) }
{
    if let Err(cause) = store.give_access(Name::Temporary) {
        return Err(Why::Failed(Step::Access, cause));
    }
    if let Err(cause) = store.write(Name::Temporary, new) {
        return Err(Why::Failed(Step::Write, cause));
    }
    match store.sync(Name::Temporary) {
        Ok(()) => Ok(()),
        Err(cause) => Err(Why::Failed(Step::Sync, cause)),
    }
}

// Refuses where the target has other bytes than these.
fn compare<S: Store>(store: &mut S, old: &[u8], room: &mut Vec<u8>) -> Result<(), Why>
    ensures ok { AddsAll result (found Name.Target old.now ∷ []) (S.events store.old) (S.events store.new) }
    ensures err { OnErr result (AddsBeside (S.events store.old) (S.events store.new)) }
    ensures changed { IfChanged result (HasChanged old.now (S.events store.old) (S.events store.new)) }
    ensures why { IfErr result (λ why. IsAtRename why → ⊥) }
{
    if let Err(cause) = store.read(Name::Target, room) {
        return Err(Why::Failed(Step::Read, cause));
    }
    if is_same(room, old) {
        Ok(())
    } else {
        Err(Why::Changed)
    }
}

// Whether two texts have the same bytes.
pub(crate) fn is_same(now: &[u8], old: &[u8]) -> bool
    ensures value { IsTrue result ↔ (now.now ≡ old.now) }
{
    now == old
}

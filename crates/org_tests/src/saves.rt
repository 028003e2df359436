//! A file's text replaced, over files in memory: that it succeeds where nothing fails, and what stands there after each call
//! that fails in turn.

use org_save::{Cause, Meanwhile, Memory, Name, Saved, Step, Unsaved, Why, replace};
use std::alloc::{AllocError, Global};
use std::test::Fail;

const OLD: &[u8; 6] = b"* One\n";

const NEW: &[u8; 12] = b"* DONE One\n\n";

// What another program writes at the end of the former file, right before the rename, and what that has then.
const FOREIGN: &[u8; 6] = b"* Two\n";

const BOTH: &[u8; 12] = b"* One\n* Two\n";

// Calls of a replacement that succeeds, beside nobody and beside another program: make, give access, write, sync, read, rename
// and the look back; the target's read, the restoring and one more look back, or make, write and sync of the file that keeps
// what was found; the folder's sync.
const CALLS: u64 = 11;

const MOST_CALLS: u64 = 11;

// The store and the answer of a replacement whose call of a number fails.
fn try_replace(
    alloc: Global,
    failing: u64,
    foreign: &[u8],
) -> Result<(Memory, Result<Saved, Unsaved>), AllocError> {
    let foreign = foreign.to_vec(alloc)?;
    let mut store = Memory::new(alloc, OLD.to_vec(alloc)?, failing, foreign);
    let answer = replace(alloc, &mut store, OLD, NEW);
    Ok((store, answer))
}

fn is_there(store: &Memory, name: Name, bytes: &[u8]) -> bool {
    match store.file(name) {
        Some(found) => found == bytes,
        None => false,
    }
}

// Whether what stands there is what the answer says, of a replacement beside another program or beside nobody.
fn is_so(store: &Memory, answer: Result<Saved, Unsaved>, foreign: &[u8]) -> bool {
    match answer {
        Ok(saved) => {
            is_there(store, Name::Target, NEW)
                && store.file(Name::Temporary).is_none()
                && is_said(store, saved.meanwhile, foreign)
        }
        Err(unsaved) => {
            is_there(store, Name::Target, OLD)
                && (unsaved.left || store.file(Name::Temporary).is_none())
        }
    }
}

// Whether what is said of another program is so.
fn is_said(store: &Memory, meanwhile: Meanwhile, foreign: &[u8]) -> bool {
    match meanwhile {
        Meanwhile::Nothing => foreign.is_empty() && store.file(Name::Rescue).is_none(),
        Meanwhile::Rescued => is_there(store, Name::Rescue, BOTH),
        Meanwhile::Lost => !foreign.is_empty(),
        Meanwhile::Unknown => true,
    }
}

// The first failing call after which it is not so.
fn wrong_call(alloc: Global, foreign: &[u8]) -> Result<Option<u64>, AllocError> {
    for failing in 0..=MOST_CALLS {
        let (store, answer) = try_replace(alloc, failing, foreign)?;
        if !is_so(&store, answer, foreign) {
            return Ok(Some(failing));
        }
    }
    Ok(None)
}

#[test]
fn each_call_may_fail(rt: HostRuntime) -> Result<(), Fail> {
    assert_eq!(rt; wrong_call(rt.alloc(), b"")?, None);
    assert_eq!(rt; wrong_call(rt.alloc(), FOREIGN)?, None);
    Ok(())
}

// Whether a replacement whose call of a number fails is made and answers so, by so many calls.
fn is_saved(
    alloc: Global,
    failing: u64,
    foreign: &[u8],
    want: Saved,
    calls: u64,
) -> Result<bool, AllocError> {
    let (store, answer) = try_replace(alloc, failing, foreign)?;
    Ok(answer == Ok(want) && store.calls() == calls)
}

// What is said of a replacement that was made.
fn saved_as(durable: bool, meanwhile: Meanwhile, restored: Option<Meanwhile>) -> Saved {
    Saved {
        durable,
        meanwhile,
        restored,
    }
}

#[test]
fn replaces(rt: HostRuntime) -> Result<(), Fail> {
    let alloc = rt.alloc();
    let whole = saved_as(true, Meanwhile::Nothing, Some(Meanwhile::Nothing));
    assert!(rt; is_saved(alloc, 0, b"", whole, CALLS)?);
    let rescued = saved_as(true, Meanwhile::Rescued, None);
    assert!(rt; is_saved(alloc, 0, FOREIGN, rescued, MOST_CALLS)?);
    let not_durable = saved_as(false, Meanwhile::Nothing, Some(Meanwhile::Nothing));
    assert!(rt; is_saved(alloc, 11, b"", not_durable, CALLS)?);
    let unknown = saved_as(true, Meanwhile::Unknown, None);
    assert!(rt; is_saved(alloc, 7, FOREIGN, unknown, 8)?);
    let lost = saved_as(true, Meanwhile::Lost, None);
    assert!(rt; is_saved(alloc, 9, FOREIGN, lost, MOST_CALLS - 1)?);
    Ok(())
}

#[test]
fn says_what_came_back(rt: HostRuntime) -> Result<(), Fail> {
    let alloc = rt.alloc();
    let nothing = saved_as(true, Meanwhile::Nothing, None);
    assert!(rt; is_saved(alloc, 8, b"", nothing, 9)?);
    assert!(rt; is_saved(alloc, 9, b"", nothing, 10)?);
    let unknown = saved_as(true, Meanwhile::Nothing, Some(Meanwhile::Unknown));
    assert!(rt; is_saved(alloc, 10, b"", unknown, CALLS)?);
    Ok(())
}

// The steps that a call of each number makes, from the first on.
const STEPS: [Step; 6] = [
    Step::Make,
    Step::Access,
    Step::Write,
    Step::Sync,
    Step::Read,
    Step::Rename,
];

// Whether a replacement whose call of a number fails leaves nothing, and says that this step failed.
fn is_failed(alloc: Global, failing: u64, step: Step) -> Result<bool, AllocError> {
    let (_store, answer) = try_replace(alloc, failing, b"")?;
    let failed = Unsaved {
        why: Why::Failed(step, Cause::Other),
        left: false,
    };
    Ok(answer == Err(failed))
}

// The first call that isn't said to be of its step where it fails.
fn wrong_step(alloc: Global) -> Result<Option<u64>, AllocError> {
    for (place, step) in STEPS.iter().enumerate() {
        let failing = (place as u64).saturating_add(1);
        if !is_failed(alloc, failing, *step)? {
            return Ok(Some(failing));
        }
    }
    Ok(None)
}

#[test]
fn says_which_step_failed(rt: HostRuntime) -> Result<(), Fail> {
    assert_eq!(rt; wrong_step(rt.alloc())?, None);
    Ok(())
}

// Whether a target that has another text by then stays, and that is said.
fn stays_changed(alloc: Global) -> Result<bool, AllocError> {
    let mut store = Memory::new(alloc, FOREIGN.to_vec(alloc)?, 0, Vec::new(alloc));
    let answer = replace(alloc, &mut store, OLD, NEW);
    let changed = Unsaved {
        why: Why::Changed,
        left: false,
    };
    let stays = is_there(&store, Name::Target, FOREIGN) && store.file(Name::Temporary).is_none();
    Ok(answer == Err(changed) && stays)
}

#[test]
fn a_changed_target_stays(rt: HostRuntime) -> Result<(), Fail> {
    assert!(rt; stays_changed(rt.alloc())?);
    Ok(())
}

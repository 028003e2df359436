//! Why a file wasn't changed, and what isn't as it should be of one that was, in words.

use crate::exit::UNWRITTEN;
use crate::standard_error::{out_of_memory, say_of, visible_text};
use org_save::{Cause, Meanwhile, Saved, Step, Unfit, Unsaved, Why};
use std::alloc::{AllocError, Global};

/// What is said where a file has another text than the one that was read.
pub const CHANGED: &str = "it has changed meanwhile; nothing was written";

/// Says why a file isn't changed, before anything is done, and gives the exit status.
pub fn report_unfit<R: AllocGlobal + Eprint>(rt: &R, name: &str, why: &Unfit) -> u8 {
    match why {
        Unfit::Failed(Cause::Memory) => return out_of_memory(rt),
        Unfit::InEmacs(owner, lock) => say_unsaved_in(
            rt,
            name,
            owner_of(owner.as_str()),
            "Emacs",
            lock,
        ),
        Unfit::InVim(swap) => say_unsaved_in(rt, name, "", "Vim", swap),
        _ => say_of(rt, name, why_unfit(why)),
    }
    UNWRITTEN
}

// Says that an editor has changes of a file, which whom it belongs to has, if that is known, and which file says so.
fn say_unsaved_in<R: AllocGlobal + Eprint>(
    rt: &R,
    name: &str,
    owner: &str,
    editor: &str,
    lock: &String,
) {
    let text = if owner.is_empty() {
        format!(in rt.alloc(); "{editor} has changes of it that aren't saved: {lock} says so")
    } else {
        format!(in rt.alloc();
            "{owner} has changes of it in {editor} that aren't saved: {lock} says so"
        )
    };
    match text {
        Ok(text) => say_of(rt, name, text.as_str()),
        Err(_) => say_of(rt, name, IN_EDITOR),
    }
}

const IN_EDITOR: &str = "an editor has changes of it that aren't saved";

// Who has a lock of Emacs, without the numbers of the process and of the machine's start.
fn owner_of(lock: &str) -> &str {
    let front = match lock.rsplit_once(':') {
        Some((front, _)) => front,
        None => lock,
    };
    match front.rsplit_once('.') {
        Some((owner, _)) => owner,
        None => front,
    }
}

fn why_unfit(why: &Unfit) -> &'static str {
    match why {
        Unfit::Missing => "there is no such file",
        Unfit::Irregular => "it is no regular file",
        Unfit::Linked => "it has other names (hard links), which would keep the old text",
        Unfit::ReadOnly => "it is read-only",
        Unfit::InEmacs(..) | Unfit::InVim(_) => IN_EDITOR,
        Unfit::Busy => "another orgq is changing it",
        Unfit::Failed(Cause::Denied) => "it may not be read and written",
        Unfit::Failed(_) => "it can't be opened",
    }
}

/// Says why a file's text wasn't replaced.
pub fn say_unsaved<R: AllocGlobal + Eprint>(rt: &R, name: &str, unsaved: &Unsaved) {
    match unsaved_text(rt.alloc(), name, unsaved) {
        Ok(text) => say_of(rt, name, text.as_str()),
        Err(_) => {
            let _ = out_of_memory(rt);
        }
    }
}

fn unsaved_text(alloc: Global, name: &str, unsaved: &Unsaved) -> Result<String, AllocError> {
    let own = own_name(name);
    let why = why_unsaved(unsaved.why);
    if unsaved.why == EXISTS {
        return format!(in alloc; ".{own}.orgq {why}");
    }
    if unsaved.why == HAS_SECOND {
        return format!(in alloc; ".{own}.orgw {why}");
    }
    if unsaved.left {
        return format!(in alloc; "{why}; .{own}.orgq or .{own}.orgw may be left beside it");
    }
    String::from_str(alloc, why)
}

// The file that is to take its place can't be made since one of its name is there.
const EXISTS: Why = Why::Failed(Step::Make, Cause::Exists);

// The file can't have its second name since one of that name is there.
const HAS_SECOND: Why = Why::Failed(Step::Access, Cause::Exists);

// A file's name in its folder.
fn own_name(name: &str) -> &str {
    match name.rsplit_once('/') {
        Some((_, own)) => own,
        None => name,
    }
}

fn why_unsaved(why: Why) -> &'static str {
    match why {
        Why::Changed => CHANGED,
        Why::Failed(_, Cause::Memory) => "out of memory",
        Why::Failed(Step::Make, cause) => why_unmade(cause),
        Why::Failed(Step::Access, Cause::Exists) => STANDS_BESIDE,
        Why::Failed(Step::Access, Cause::Denied) => {
            "its owner is another one, whom a file in its place would not have; nothing was written"
        }
        Why::Failed(_, Cause::Single) => {
            "who else may read and write it could not be kept: a file has one name alone there; nothing was written"
        }
        Why::Failed(_, Cause::Mounted) => {
            "it is mounted on its own, so that no other file can take its place; nothing was written"
        }
        Why::Failed(_, Cause::Full) => "no room on the device",
        Why::Failed(Step::Rename, _) => {
            "the system refused the last step: look whether it has the new text"
        }
        Why::Failed(..) => "it can't be written",
    }
}

/// Says why a new file wasn't made, and gives the exit status.
pub fn report_unmade<R: AllocGlobal + Eprint>(rt: &R, name: &str, cause: Cause) -> u8 {
    match cause {
        Cause::Memory => return out_of_memory(rt),
        Cause::Exists => say_of(rt, name, "another program made it meanwhile"),
        _ => say_of(rt, name, why_unmade(cause)),
    }
    UNWRITTEN
}

const STANDS_BESIDE: &str =
    "stands beside it: another program made it, or it is left of one that was stopped";

// Why a file wasn't made.
fn why_unmade(cause: Cause) -> &'static str {
    match cause {
        Cause::Missing => "there is no such folder",
        Cause::Denied => "its folder can't be written",
        Cause::Exists => STANDS_BESIDE,
        Cause::Full => "no room on the device",
        _ => "it can't be written",
    }
}

/// Says what isn't as it should be of a file that was changed; `rescue` is the file that keeps what another program wrote. Where
/// memory is refused, it is said without names.
pub fn say_saved<R: AllocGlobal + Eprint>(rt: &R, name: &str, saved: Saved, rescue: Option<&str>) {
    if !saved.durable {
        tell(rt, name, UNSURE);
    }
    say_meanwhile(rt, name, saved.meanwhile, rescue);
    match saved.restored {
        Some(meanwhile) => say_meanwhile(rt, name, meanwhile, rescue),
        None => tell(rt, name, UNSHARED),
    }
}

fn say_meanwhile<R: AllocGlobal + Eprint>(
    rt: &R,
    name: &str,
    meanwhile: Meanwhile,
    rescue: Option<&str>,
) {
    match meanwhile {
        Meanwhile::Nothing => {}
        Meanwhile::Rescued => say_rescued(rt, name, rescue.unwrap_or("a file beside it")),
        Meanwhile::Lost => tell(rt, name, LOST),
        Meanwhile::Unknown => tell(rt, name, UNSEEN),
    }
}

const UNSURE: &str = "written; the system couldn't say that it is on the disk";

const LOST: &str =
    "written; another program wrote into it meanwhile, and what it wrote could not be kept";

const UNSEEN: &str = "written; whether another program wrote into it meanwhile could not be seen";

const UNSHARED: &str =
    "written; its owner alone may read and write it now: what let others in could not be kept";

fn say_rescued<R: AllocGlobal + Eprint>(rt: &R, name: &str, rescue: &str) {
    match format!(in rt.alloc();
        "written; another program wrote into it meanwhile: {rescue} has what it wrote"
    ) {
        Ok(text) => say_of(rt, name, text.as_str()),
        Err(_) => tell(rt, name, RESCUED),
    }
}

const RESCUED: &str =
    "written; another program wrote into it meanwhile: a file beside it has what it wrote";

/// Says that a file was written, and may not be on the disk.
pub fn say_unsure<R: AllocGlobal + Eprint>(rt: &R, name: &str) {
    tell(rt, name, UNSURE);
}

// Says something of a file that was changed; without the file's name where memory is refused.
fn tell<R: AllocGlobal + Eprint>(rt: &R, name: &str, what: &'static str) {
    let _ = match visible_text(rt.alloc(), name) {
        Some(name) => eprintln!(rt; "orgq: {name}: {what}"),
        None => eprintln!(rt; "orgq: {what}"),
    };
}

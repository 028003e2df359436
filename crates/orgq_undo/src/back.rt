//! Taking the last change of a file back.

use crate::folder::history_path;
use crate::found::{Asked, Found, Last, find, last_of};
use crate::lines::{edited_text, push_change};
use crate::listing::EDITED;
use crate::past::write_past;
use org_act::{Act, Refusal, TakingBack, Unamended, amend, with_change};
use org_history::{History, history_bytes};
use org_save::{Disk, open};
use orgq_args::UndoWish;
use orgq_messages::{
    out_of_memory, print_all, print_changed, report_unfit, say_lines, say_of, say_saved,
    say_unsaved, unamended_status,
};
use std::alloc::{AllocError, Global};
use std::fs::File;
use std::rt::{Env, Files};
use std::str;
use std::time::Clock;

/// Takes the last change of a file back, or says what that would change, and gives the exit status.
pub fn take_back<R: AllocGlobal + Clock + Env + Files<File = File> + Print + Eprint>(
    rt: &R,
    folder: &str,
    name: &str,
    wish: &UndoWish,
) -> u8 {
    let asked = Asked {
        folder,
        name,
        look: wish.look,
    };
    if wish.is_dry {
        return try_back(rt, &asked);
    }
    match open(rt, name) {
        Ok(mut opened) => back_on(rt, &asked, &mut opened.disk),
        Err(why) => report_unfit(rt, name, &why),
    }
}

// Says what taking back would change. Nothing is opened for writing.
fn try_back<R: AllocGlobal + Files + Print + Eprint>(rt: &R, asked: &Asked<'_>) -> u8 {
    match find(rt, asked) {
        Ok(found) => try_found(rt, asked, &found),
        Err(status) => status,
    }
}

fn try_found<R: AllocGlobal + Print + Eprint>(rt: &R, asked: &Asked<'_>, found: &Found) -> u8 {
    let last = match last_of(rt, asked, found) {
        Ok(last) => last,
        Err(status) => return status,
    };
    match plan_back(rt.alloc(), asked, found, &last) {
        Ok(planned) => print_all(rt, planned.lines.as_slice(), 0),
        Err(why) => report_unamended(rt, asked, found, &last.act, why),
    }
}

// Takes back what was done to a file, whose lock this program has.
fn back_on<R: AllocGlobal + Clock + Env + Files<File = File> + Print + Eprint>(
    rt: &R,
    asked: &Asked<'_>,
    disk: &mut Disk<'_, R>,
) -> u8 {
    match find(rt, asked) {
        Ok(found) => back_found(rt, asked, &found, disk),
        Err(status) => status,
    }
}

fn back_found<R: AllocGlobal + Clock + Env + Files<File = File> + Print + Eprint>(
    rt: &R,
    asked: &Asked<'_>,
    found: &Found,
    disk: &mut Disk<'_, R>,
) -> u8 {
    let last = match last_of(rt, asked, found) {
        Ok(last) => last,
        Err(status) => return status,
    };
    let planned = match plan_back(rt.alloc(), asked, found, &last) {
        Ok(planned) => planned,
        Err(why) => return report_unamended(rt, asked, found, &last.act, why),
    };
    let saved = match amend(rt.alloc(), disk, found.text.as_str(), &last.act) {
        Ok(amended) => amended.saved,
        Err(why) => return report_unamended(rt, asked, found, &last.act, why),
    };
    let place = planned.place.as_str();
    if let Err(why) = write_past(
        rt,
        place,
        Some(found.bytes.as_slice()),
        planned.past.as_slice(),
    ) {
        say_of(rt, asked.name, why.why());
    }
    let status = print_changed(rt, planned.lines.as_slice());
    say_saved(rt, asked.name, saved, disk.rescue());
    status
}

// All that is needed once a change was taken back: what is printed, and the history without it, with its path.
#[derive(Drop)]
struct Planned {
    lines: Vec<u8>,
    past: Vec<u8>,
    place: String,
}

fn plan_back(
    alloc: Global,
    asked: &Asked<'_>,
    found: &Found,
    last: &Last<'_>,
) -> Result<Planned, Unamended> {
    let text = match text_back(alloc, found.text.as_str(), &last.act) {
        Ok(text) => text,
        Err(why) => return Err(Unamended::Refused(why)),
    };
    match planned_of(alloc, asked, found, last, text.as_slice()) {
        Ok(planned) => Ok(planned),
        Err(_) => Err(Unamended::Refused(Refusal::from(AllocError))),
    }
}

// The text that an act makes of another.
fn text_back(alloc: Global, text: &str, act: &TakingBack<'_>) -> Result<Vec<u8>, Refusal> {
    match act.plan(alloc, text) {
        Ok(change) => Ok(with_change(alloc, text.as_bytes(), &change)?),
        Err(why) => Err(why),
    }
}

fn planned_of(
    alloc: Global,
    asked: &Asked<'_>,
    found: &Found,
    last: &Last<'_>,
    text: &[u8],
) -> Result<Planned, AllocError> {
    let history = History {
        path: last.path,
        left: text,
        changes: last.older,
    };
    let past = history_bytes(alloc, &history)?;
    let lines = lines_of(alloc, asked, found.text.as_str(), text)?;
    let path = str::from_utf8(last.path).unwrap_or("");
    let place = history_path(alloc, asked.folder, path)?;
    Ok(Planned { lines, past, place })
}

// What is printed where a text becomes another.
fn lines_of(
    alloc: Global,
    asked: &Asked<'_>,
    before: &str,
    after: &[u8],
) -> Result<Vec<u8>, AllocError> {
    let mut lines = Vec::new(alloc);
    if !asked.look.is_quiet {
        let after = str::from_utf8(after).unwrap_or("");
        push_change(alloc, &mut lines, asked, before, after)?;
    }
    Ok(lines)
}

// Says why a change wasn't taken back, and gives the exit status.
fn report_unamended<R: AllocGlobal + Eprint>(
    rt: &R,
    asked: &Asked<'_>,
    found: &Found,
    act: &TakingBack<'_>,
    why: Unamended,
) -> u8 {
    match &why {
        Unamended::Unsaved(unsaved) => say_unsaved(rt, asked.name, unsaved),
        Unamended::Refused(Refusal::Edited) => say_edited(rt, asked, act.left, found.text.as_str()),
        Unamended::Refused(_) => {
            let _ = out_of_memory(rt);
        }
    }
    unamended_status(&why)
}

// Says that a file has another text than the one that was left, and in which lines they differ.
fn say_edited<R: AllocGlobal + Eprint>(rt: &R, asked: &Asked<'_>, left: &str, now: &str) {
    say_of(rt, asked.name, EDITED);
    match edited_text(rt.alloc(), left, now) {
        Ok(text) => say_lines(rt, text.as_str()),
        Err(_) => {
            let _ = out_of_memory(rt);
        }
    }
}

//! The clock that runs and the one that is to begin in the same file: both are changed by one write.

use crate::acts::heading_at;
use crate::amending::{PlannedText, keep_change, planned_text, print_kept, report_unamended};
use crate::heading::HeadingText;
use org_act::{OwnedChange, Refusal, Unamended};
use org_save::{Disk, open, replace};
use orgq_args::{HeadingPlace, Wish, WishedAct};
use orgq_messages::{
    CHANGED, UNWRITTEN, out_of_memory, report_unfit, say_of, say_saved, say_unsaved, unsaved_status,
};
use orgq_undo::Unkept;
use std::alloc::{AllocError, Global};
use std::fs::File;
use std::rt::{Env, Files};
use std::time::Clock;

/// Ends the clock that runs at a place as one wish says, and begins another at a place of the same file as the other wish says.
/// Both are done, or none is.
pub fn switch_at<R: AllocGlobal + Clock + Env + Files<File = File> + Print + Eprint>(
    rt: &R,
    running: &HeadingPlace,
    ends: &Wish,
    place: &HeadingPlace,
    begins: &Wish,
) -> u8 {
    let mut opened = match open(rt, running.name.as_str()) {
        Ok(opened) => opened,
        Err(why) => return report_unfit(rt, running.name.as_str(), &why),
    };
    match heading_at(rt, running, ends) {
        Ok(heading) => switch_heading(rt, &mut opened.disk, &heading, place, begins),
        Err(status) => status,
    }
}

// The same of the heading whose clock runs.
fn switch_heading<R: AllocGlobal + Clock + Env + Files<File = File> + Print + Eprint>(
    rt: &R,
    disk: &mut Disk<'_, R>,
    running: &HeadingText,
    place: &HeadingPlace,
    begins: &Wish,
) -> u8 {
    let ended = match planned_clock(rt.alloc(), running) {
        Ok(ended) => ended,
        Err(why) => return report_unamended(rt, running, why),
    };
    let PlannedText { text, lines } = ended;
    match heading_in(rt.alloc(), running, place, begins, text) {
        Ok(heading) if heading.is_as_found(place) => {
            begin_behind(rt, disk, running, &heading, lines.as_slice())
        }
        Ok(_) => {
            say_of(rt, place.name.as_str(), CHANGED);
            UNWRITTEN
        }
        Err(_) => out_of_memory(rt),
    }
}

// What the step of a heading's clock makes of its file.
fn planned_clock(alloc: Global, heading: &HeadingText) -> Result<PlannedText, Unamended> {
    match &heading.act {
        WishedAct::Clock(step) => planned_text(alloc, heading, &heading.clocking(*step)),
        _ => Err(Unamended::Refused(Refusal::NoClock)),
    }
}

// The heading at a place of a text.
fn heading_in(
    alloc: Global,
    running: &HeadingText,
    place: &HeadingPlace,
    begins: &Wish,
    text: String,
) -> Result<HeadingText, AllocError> {
    Ok(HeadingText {
        name: String::from_str(alloc, place.name.as_str())?,
        path: String::from_str(alloc, running.path.as_str())?,
        line: place.line,
        text,
        behind: String::from_str(alloc, running.behind.as_str())?,
        act: begins.act.copy(alloc)?,
        moment: begins.moment,
        look: begins.look,
        trace: begins.trace.copy(alloc)?,
    })
}

// Begins the clock of a heading of the text in which the other one has ended, and writes both.
fn begin_behind<R: AllocGlobal + Clock + Env + Files<File = File> + Print + Eprint>(
    rt: &R,
    disk: &mut Disk<'_, R>,
    running: &HeadingText,
    heading: &HeadingText,
    ended: &[u8],
) -> u8 {
    let PlannedText { text, lines } = match planned_clock(rt.alloc(), heading) {
        Ok(begun) => begun,
        Err(why) => return report_unamended(rt, heading, why),
    };
    let Ok(lines) = joined_lines(rt.alloc(), ended, lines.as_slice()) else {
        return out_of_memory(rt);
    };
    let kept = keep_both(rt, running, text.as_str());
    match replace(rt.alloc(), disk, running.text.as_bytes(), text.as_bytes()) {
        Ok(saved) => {
            let status = print_kept(rt, running.name.as_str(), lines.as_slice(), kept);
            say_saved(rt, running.name.as_str(), saved, disk.rescue());
            status
        }
        Err(why) => {
            say_unsaved(rt, running.name.as_str(), &why);
            unsaved_status(why.why)
        }
    }
}

// Keeps that a text takes the place of a file's, so that both steps are taken back as one.
fn keep_both<R: AllocGlobal + Clock + Env + Files<File = File>>(
    rt: &R,
    running: &HeadingText,
    text: &str,
) -> Result<(), Unkept> {
    let change = OwnedChange {
        at: 0,
        del: running.text.len() as u64,
        ins: String::from_str(rt.alloc(), text)?,
    };
    keep_change(rt, running, &change)
}

fn joined_lines(alloc: Global, first: &[u8], second: &[u8]) -> Result<Vec<u8>, AllocError> {
    let mut lines = first.to_vec(alloc)?;
    lines.extend_from_slice(second)?;
    Ok(lines)
}

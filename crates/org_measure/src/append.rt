//! A line put at the end of a file by one replacement, as the commands that change files do it.

use org_save::{Disk, Meanwhile, Name, Opened, Saved, Store, Unfit, open, replace};
use std::alloc::{AllocError, Global};
use std::fs::File;
use std::rt::{Env, Files};
use std::time::Clock;

// The exit statuses: the line stands there; no memory; nothing of the file was changed.
const DONE: u8 = 0;

const NO_MEMORY: u8 = 4;

const REFUSED: u8 = 5;

/// Puts a line at the end of a file, says on standard error what isn't as it should be, and answers the exit status.
pub fn append<R: AllocGlobal + Clock + Env + Files<File = File> + Eprint>(
    rt: &R,
    path: &str,
    line: &str,
) -> u8 {
    match open(rt, path) {
        Ok(mut opened) => append_to(rt, path, &mut opened, line),
        Err(why) => report_refusal(rt, path, &why),
    }
}

fn report_refusal<R: Eprint>(rt: &R, path: &str, why: &Unfit) -> u8 {
    let _ = eprintln!(rt; "{path}: {why:?}");
    REFUSED
}

fn append_to<R: AllocGlobal + Files<File = File> + Eprint>(
    rt: &R,
    path: &str,
    opened: &mut Opened<'_, R>,
    line: &str,
) -> u8 {
    let mut old = Vec::new(rt.alloc());
    match opened.disk.read(Name::Target, &mut old) {
        Ok(()) => replace_by(rt, path, &mut opened.disk, &old, line),
        Err(why) => {
            let _ = eprintln!(rt; "{path}: {why:?}");
            REFUSED
        }
    }
}

fn replace_by<R: AllocGlobal + Files<File = File> + Eprint>(
    rt: &R,
    path: &str,
    disk: &mut Disk<'_, R>,
    old: &[u8],
    line: &str,
) -> u8 {
    let Ok(new) = with_line(rt.alloc(), old, line) else {
        return NO_MEMORY;
    };
    match replace(rt.alloc(), disk, old, &new) {
        Ok(saved) => {
            say(rt, path, saved, disk.rescue());
            DONE
        }
        Err(why) => {
            let _ = eprintln!(rt; "{path}: {why:?}");
            REFUSED
        }
    }
}

fn with_line(alloc: Global, old: &[u8], line: &str) -> Result<Vec<u8>, AllocError> {
    let mut new = old.to_vec(alloc)?;
    new.extend_from_slice(line.as_bytes())?;
    new.push(b'\n')?;
    Ok(new)
}

// Says what isn't as it should be of a replacement that was made.
fn say<R: Eprint>(rt: &R, path: &str, saved: Saved, rescue: Option<&str>) {
    if !saved.durable {
        let _ = eprintln!(rt; "{path}: written, and not yet surely on the disk");
    }
    let told = match saved.restored {
        Some(meanwhile) if saved.meanwhile == Meanwhile::Nothing => meanwhile,
        Some(_) => saved.meanwhile,
        None => {
            let _ = eprintln!(rt; "{path}: written, and open to its owner alone");
            saved.meanwhile
        }
    };
    match (told, rescue) {
        (Meanwhile::Nothing, _) => {}
        (Meanwhile::Rescued, Some(rescue)) => {
            let _ = eprintln!(rt; "{path}: another program wrote meanwhile, see {rescue}");
        }
        (meanwhile, _) => {
            let _ = eprintln!(rt; "{path}: another program: {meanwhile:?}");
        }
    }
}

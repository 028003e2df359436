// SPDX-License-Identifier: Apache-2.0 OR MIT
//! The program `orgviews`: files from its arguments, commands from standard input, replies to standard output.
#![tactic(auto)]

mod arguments;
mod exit;
mod load;
mod new_engine;

use crate::arguments::{command, profile, protocol};
use crate::exit::{BAD_ARGUMENTS, BAD_FILE, exit_of};
use crate::load::load;
use crate::new_engine::new_engine;
use org_cal::Moment;
use org_engine::Engine;
use org_pieces::Pieces;
use org_save::hold_streams;
use org_wire::{Counted, End, Options, run};
use std::io::Input;
use std::mem::forget;
use std::process::ExitCode;
use std::{env, io};

fn main(rt: HostRuntime) -> ExitCode {
    let _held = hold_streams(&rt);
    let Ok(words) = env::args(&rt) else {
        let _ = eprintln!(rt; "orgviews: command");
        return ExitCode::from(BAD_ARGUMENTS);
    };
    let Ok(words) = words.collect::<Vec<String>>(rt.alloc()) else {
        return ExitCode::from(BAD_ARGUMENTS);
    };
    ExitCode::from(start(&rt, words.as_slice()))
}

// Reads the arguments, and gives the exit status.
fn start(rt: &HostRuntime, words: &[String]) -> u8 {
    let Ok(command) = command(rt.alloc()) else {
        return BAD_ARGUMENTS;
    };
    let matches = match command.try_get_matches_from(words) {
        Ok(matches) => matches,
        Err(error) => {
            let _ = eprint!(rt; "{error}");
            return BAD_ARGUMENTS;
        }
    };
    let at = matches.get_str("at").map(str::as_bytes);
    let Some(moment) = at.and_then(Moment::of_text) else {
        let _ = eprintln!(rt; "orgviews: date");
        return BAD_ARGUMENTS;
    };
    let profile = profile(matches.get_one::<u64>("profile").unwrap_or(1));
    let mut engine: Engine<Pieces> = new_engine(rt.alloc(), moment, profile);
    if let Some(paths) = matches.get_strs("FILE") {
        for path in paths {
            if !is_loaded(rt, &mut engine, path) {
                return BAD_FILE;
            }
        }
    }
    let options = Options {
        idle: matches.get_one::<u64>("idle").unwrap_or(0),
        protocol: protocol(matches.get_one::<u64>("protocol").unwrap_or(1)),
    };
    let status = serve(rt, &mut engine, options);
    // The program ends here: the system takes all memory back at once, which piece by piece would be a tenth of the run.
    forget(engine);
    status
}

// Loads a file, or says why it can't be loaded.
fn is_loaded(rt: &HostRuntime, engine: &mut Engine<Pieces>, path: &str) -> bool {
    match load(rt, rt.alloc(), engine, path) {
        Ok(()) => true,
        Err(error) => {
            let reason = error.reason();
            let _ = eprintln!(rt; "orgviews: cannot load {path}: {reason}");
            false
        }
    }
}

// Answers the commands of standard input, and gives the exit status.
fn serve(rt: &HostRuntime, engine: &mut Engine<Pieces>, options: Options) -> u8 {
    let mut reader = Counted::new(rt.reader());
    let mut writer = Counted::new(io::writer(rt));
    let end = run(rt.alloc(), &mut reader, &mut writer, engine, options);
    if let End::Stopped(code) = end {
        let name = code.name();
        let _ = eprintln!(rt; "orgviews: {name}");
    }
    exit_of(end)
}

// SPDX-License-Identifier: Apache-2.0 OR MIT
//! The program `orgq`: agendas, lists and clock tables of one's own files, and what in them will not show.
#![tactic(auto)]

mod counted;
mod follow;
mod session;
mod shell;
mod shown_config;
mod view;
mod views;

use crate::counted::run_with_config;
use org_save::hold_streams;
use orgq_args::{command, joined_values, parser_said};
use orgq_messages::{BAD_ARGUMENTS, out_of_memory, say};
use std::env;
use std::io::{ErrorKind, IsTerminal};
use std::process::ExitCode;

fn main(rt: HostRuntime) -> ExitCode {
    let _held = hold_streams(&rt);
    let words = match env::args(&rt) {
        Ok(words) => words,
        Err(error) if error.kind() == ErrorKind::OutOfMemory => {
            return ExitCode::from(out_of_memory(&rt));
        }
        Err(_) => {
            say(&rt, "an argument that isn't UTF-8");
            return ExitCode::from(BAD_ARGUMENTS);
        }
    };
    let Ok(words) = words.collect::<Vec<String>>(rt.alloc()) else {
        return ExitCode::from(out_of_memory(&rt));
    };
    let on_terminal = rt.stdout().is_terminal();
    ExitCode::from(start(&rt, words.as_slice(), on_terminal))
}

// Reads the arguments, and gives the exit status.
fn start(rt: &HostRuntime, words: &[String], on_terminal: bool) -> u8 {
    let Ok(command) = command(rt.alloc()) else {
        return out_of_memory(rt);
    };
    let Ok(joined) = joined_values(rt.alloc(), words) else {
        return out_of_memory(rt);
    };
    match command.try_get_matches_from(joined.as_slice()) {
        Ok(matches) => run_with_config(rt, words, &matches, on_terminal),
        Err(error) => parser_said(rt, words, &error),
    }
}

//! The command that shows a view anew whenever a file changed or a minute passed.

use crate::session::answer_query;
use clap::ArgMatches;
use org_answer::Form;
use orgq_answers::Call;
use orgq_args::{Filters, environment_lines, form, has_order, names_day_option};
use orgq_files::{INPUT, paths, push_paths};
use orgq_messages::{BAD_ARGUMENTS, Problem, STOPPED, is_command};
use std::alloc::AllocError;
use std::io::{Write, writer};
use std::time::{Clock, Duration, SystemTime, UNIX_EPOCH};
use std::{fs, thread};

// How long is waited between two looks at the files.
const PAUSE_MILLIS: u64 = 500;

// What takes away all that a terminal shows (ECMA-48, "CUP" and "ED").
const CLEAR: &[u8] = b"\x1b[H\x1b[2J";

// What stands between two views elsewhere.
const FORM_FEED: &[u8] = b"\x0c\n";

/// Shows what the command's own words ask for, and again after each change, as many times as they say, or until the program
/// is stopped. Gives the status of the last view; one that is refused or can't be printed is the last.
pub fn follow(
    rt: &HostRuntime,
    matches: &ArgMatches<'_>,
    own: &ArgMatches<'_>,
    on_terminal: bool,
) -> Result<u8, Problem> {
    if has_own_options(matches) {
        return Err(Problem::FollowFront);
    }
    let words = own.get_strs("PATH").unwrap_or(&[]);
    if words.iter().any(|word| is_command(word)) {
        return Err(Problem::FollowOf);
    }
    if own.get_strs("file").unwrap_or(&[]).contains(&INPUT) {
        return Err(Problem::FollowInput);
    }
    let times = match own.get_one::<u32>("times") {
        Some(times) => u64::from(times),
        None => u64::MAX,
    };
    let room = room_for(rt, own, on_terminal)?;
    let mut state = state_of(rt, own)?;
    for number in 0..times {
        if number > 0 {
            state = next_state(rt, own, state)?;
        }
        if !begin_view(rt, number > 0, on_terminal) {
            return Ok(STOPPED);
        }
        let mut call = Call::new(on_terminal, false);
        if let Some(room) = room {
            call.fit(room);
        }
        let status = answer_query(rt, own, &mut call)?;
        if number + 1 == times || status == BAD_ARGUMENTS || status == STOPPED {
            return Ok(status);
        }
    }
    Ok(0)
}

// How many lines a view has room for: on a terminal all but the one below it, where rows are lines.
fn room_for(
    rt: &HostRuntime,
    own: &ArgMatches<'_>,
    on_terminal: bool,
) -> Result<Option<usize>, Problem> {
    if !on_terminal || !matches!(form(own)?, Form::Plain | Form::Places) {
        return Ok(None);
    }
    let lines = environment_lines(rt)?;
    Ok(lines.map(|lines| lines.saturating_sub(1)))
}

// Whether options or files stand in front of the command that are not of all commands.
fn has_own_options(matches: &ArgMatches<'_>) -> bool {
    let front = Filters::of(matches);
    front.chooses()
        || has_order(matches)
        || front.limit.is_some()
        || matches.get_one::<u32>("days").is_some()
        || names_day_option(matches)
        || matches.get_strs("PATH").is_some()
}

// Writes what stands in front of a view, and gives whether it was written.
fn begin_view(rt: &HostRuntime, is_later: bool, on_terminal: bool) -> bool {
    let front = if on_terminal {
        CLEAR
    } else if is_later {
        FORM_FEED
    } else {
        return true;
    };
    let mut out = writer(rt);
    out.write_all(front).is_ok() && out.flush().is_ok()
}

// What views depend on, as soon as it isn't what it was.
fn next_state(rt: &HostRuntime, own: &ArgMatches<'_>, before: String) -> Result<String, Problem> {
    for _look in 0..u64::MAX {
        thread::sleep(rt, Duration::from_millis(PAUSE_MILLIS));
        let state = state_of(rt, own)?;
        if state.as_str() != before.as_str() {
            return Ok(state);
        }
    }
    Ok(before)
}

// What views depend on: the minute, unless it is named, and of each file its path, its size and when it changed.
fn state_of(rt: &HostRuntime, own: &ArgMatches<'_>) -> Result<String, Problem> {
    let mut state = String::new(rt.alloc());
    if own.get_str("at").is_none() {
        push_minute(rt, &mut state)?;
    }
    let paths = paths(rt, own, &[])?;
    for path in paths.as_slice() {
        push_path(rt, &mut state, path.as_str())?;
    }
    Ok(state)
}

fn push_minute(rt: &HostRuntime, state: &mut String) -> Result<(), AllocError> {
    let Ok(time) = SystemTime::now(rt) else {
        return Ok(());
    };
    let (seconds, _) = since_1970(time);
    let minute = seconds / 60;
    write!(state, "{minute}\n")
}

// The seconds from 1970 on up to a time, and the nanoseconds behind them; none for a time before.
fn since_1970(time: SystemTime) -> (u64, u32) {
    match time.duration_since(UNIX_EPOCH) {
        Ok(past) => (past.as_secs(), past.subsec_nanos()),
        Err(_) => (0, 0),
    }
}

// Puts what is known of the files that a path stands for after others.
fn push_path(rt: &HostRuntime, state: &mut String, path: &str) -> Result<(), AllocError> {
    let mut files = Vec::new(rt.alloc());
    // What can't be read now may be read later: then it is known by other files.
    let _ = push_paths(rt, &mut files, path);
    for file in files.as_slice() {
        push_file(rt, state, file.as_str())?;
    }
    Ok(())
}

fn push_file(rt: &HostRuntime, state: &mut String, file: &str) -> Result<(), AllocError> {
    let Ok(metadata) = fs::metadata(rt, file) else {
        return write!(state, "{file}\n");
    };
    let size = metadata.len();
    let (seconds, nanos) = match metadata.modified() {
        Ok(time) => since_1970(time),
        Err(_) => (0, 0),
    };
    write!(state, "{file} {size} {seconds} {nanos}\n")
}

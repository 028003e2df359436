//! What is logged of acts.

use clap::ArgMatches;
use org_act::Trace;
use org_cal::Moment;
use org_log::{DrawerChoice, How, LogRules, LogSettings, is_drawer_name, is_note};
use orgq_messages::Problem;
use std::alloc::{AllocError, Global};

/// What is logged where files say nothing else, and the note that is written.
#[derive(Debug, Drop)]
pub struct WishedTrace {
    rules: LogRules,
    drawer: String,
    note: String,
}

impl WishedTrace {
    /// What acts take, at a moment.
    pub fn trace(&self, moment: Moment) -> Trace<'_> {
        Trace {
            moment,
            settings: LogSettings {
                rules: self.rules,
                drawer: self.drawer.as_str(),
            },
            note: self.note.as_str(),
        }
    }

    /// An equal one.
    pub fn copy(&self, alloc: Global) -> Result<WishedTrace, AllocError> {
        Ok(WishedTrace {
            rules: self.rules,
            drawer: String::from_str(alloc, self.drawer.as_str())?,
            note: String::from_str(alloc, self.note.as_str())?,
        })
    }
}

// What the arguments ask for, with a note.
pub(crate) fn read_trace(
    alloc: Global,
    matches: &ArgMatches<'_>,
    note: &str,
) -> Result<WishedTrace, Problem> {
    if !is_note(note) {
        return Err(Problem::Note);
    }
    let drawer = matches.get_str("log-into-drawer").unwrap_or("no");
    Ok(WishedTrace {
        rules: read_rules(matches, drawer)?,
        drawer: String::from_str(alloc, drawer)?,
        note: String::from_str(alloc, note)?,
    })
}

fn read_rules(matches: &ArgMatches<'_>, drawer: &str) -> Result<LogRules, Problem> {
    let standard = LogRules::standard();
    let done = read_how(matches.get_str("log-done"), standard.done)?;
    let repeat = read_how(matches.get_str("log-repeat"), standard.repeat)?;
    Ok(LogRules {
        done,
        repeat,
        drawer: read_drawer(drawer)?,
        ..standard
    })
}

// What a word says of how something is logged; without one this holds.
fn read_how(word: Option<&str>, standard: Option<How>) -> Result<Option<How>, Problem> {
    match word {
        None => Ok(standard),
        Some("no") => Ok(None),
        Some("time") => Ok(Some(How::Time)),
        Some("note") => Ok(Some(How::Note)),
        Some(_) => Err(Problem::LogHow),
    }
}

fn read_drawer(word: &str) -> Result<DrawerChoice, Problem> {
    match word {
        "no" => Ok(DrawerChoice::Text),
        "yes" => Ok(DrawerChoice::Logbook),
        name if is_drawer_name(name) => Ok(DrawerChoice::Named),
        _ => Err(Problem::LogDrawer),
    }
}

//! What is logged where a heading gets a note, or loses its keyword.

use crate::asked::{Asked, drawer_name, file_rules, file_wants, local_wants, setting_texts};
use crate::decision::looks;
use crate::entry::{LogEntry, LogLine, Repeats};
use crate::heading::{first_line, heading_start, keyword_of};
use crate::local::value_for;
use crate::rules::{LogRules, LogSettings};
use org_base::Fault;
use org_settings::Settings;
use std::alloc::{AllocError, Global};

/// What is logged where a heading gets a note, or loses its keyword.
#[derive(Debug, Drop)]
pub struct NoteLog {
    is_reopened: bool,
    is_newest_first: bool,
    drawer: String,
}

impl NoteLog {
    /// What is written in its section: a line where there is a note, and where a heading loses its keyword `CLOSED:` may go.
    pub fn entry<'a>(&'a self, note: &'a str) -> LogEntry<'a> {
        LogEntry {
            is_closed: false,
            is_reopened: self.is_reopened,
            repeats: Repeats::Not,
            line: if note.trim().is_empty() {
                None
            } else {
                Some(LogLine::Note)
            },
            note,
            drawer: self.drawer.as_str(),
            is_newest_first: self.is_newest_first,
        }
    }
}

/// What is logged where the heading on a line of a text gets a note; none where no heading stands on the line.
pub fn note_log(
    alloc: Global,
    text: &str,
    line: u64,
    set: &LogSettings<'_>,
) -> Result<Option<NoteLog>, Fault> {
    log_for(alloc, text, line, set, false)
}

/// What is logged where the heading on a line of a text loses its keyword; none where no heading stands on the line.
pub fn removal_log(
    alloc: Global,
    text: &str,
    line: u64,
    set: &LogSettings<'_>,
) -> Result<Option<NoteLog>, Fault> {
    log_for(alloc, text, line, set, true)
}

fn log_for(
    alloc: Global,
    text: &str,
    line: u64,
    set: &LogSettings<'_>,
    is_removal: bool,
) -> Result<Option<NoteLog>, Fault> {
    let lines = setting_texts(alloc, text)?;
    let settings = Settings::of_lines(alloc, &lines)?;
    let Some(at) = heading_start(text, line) else {
        return Ok(None);
    };
    let asked = Asked {
        text,
        section: text.get(at..).unwrap_or(""),
        lines: &lines,
        settings: &settings,
        set,
    };
    let rules = file_rules(&lines, set.rules);
    Ok(Some(NoteLog {
        is_reopened: is_removal && looks_at(alloc, &asked, line, rules)?,
        is_newest_first: rules.is_newest_first,
        drawer: drawer_name(alloc, &asked, line, rules.drawer)?,
    }))
}

// Whether something asks for more of a heading that loses its keyword than tasks that come again.
fn looks_at(
    alloc: Global,
    asked: &Asked<'_>,
    line: u64,
    rules: LogRules,
) -> Result<bool, AllocError> {
    let from = keyword_of(asked.settings, first_line(asked.section));
    let local = value_for(alloc, asked.text, line, asked.settings, "LOGGING")?;
    let wanted = match local {
        Some(words) => local_wants(asked.settings, words, "", from, ""),
        None => file_wants(asked.lines, rules, "", from),
    };
    Ok(looks(&wanted))
}

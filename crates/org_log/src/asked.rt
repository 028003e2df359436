//! What a file asks for where a heading changes.

use crate::decision::{LineKind, Step, Wanted, decide};
use crate::entry::{LogEntry, LogLine, Repeats};
use crate::heading::{first_line, heading_start, keyword_of, second_line};
use crate::how::{How, Marks, NO_MARKS};
use crate::local::value_for;
use crate::marks::{keyword_parts, marks_of};
use crate::rules::{DrawerChoice, LogRules, LogSettings};
use crate::startup::{how_of, with_startup_word};
use crate::words::setting_of;
use org_base::{Fault, Meter, Span, Texts};
use org_class::{classify, push_setting_lines, sections};
use org_drawer::read_planning;
use org_settings::Settings;
use org_stamp::{PlanningKeyword, Stamp};
use org_text::{Text, Whole};
use std::alloc::{AllocError, Global};
use std::str;

/// A heading that is to get a keyword.
#[derive(Clone, Copy, Debug)]
pub struct KeywordChange<'a> {
    /// Its line. Lines count from 1.
    pub line: u64,
    /// The keyword that is asked for; a task that comes again gets another one.
    pub to: &'a str,
    /// Whether a note is given, which is written even where nothing asks for one.
    pub has_note: bool,
}

/// What is logged where a heading gets a keyword.
#[derive(Debug, Drop)]
pub struct KeywordLog {
    /// Whether the clock that runs on it ends, as the keyword is a done one.
    pub ends_clock: bool,
    is_closed: bool,
    is_reopened: bool,
    repeats: Repeats,
    line: LineKind,
    is_newest_first: bool,
    from: Option<String>,
    to: String,
    // The first keyword of the sequence, which a task that comes again gets.
    first: String,
    drawer: String,
}

impl KeywordLog {
    /// What is written in its section.
    pub fn entry<'a>(&'a self, note: &'a str) -> LogEntry<'a> {
        LogEntry {
            is_closed: self.is_closed,
            is_reopened: self.is_reopened,
            repeats: self.repeats,
            line: self.line(),
            note,
            drawer: self.drawer.as_str(),
            is_newest_first: self.is_newest_first,
        }
    }

    fn line(&self) -> Option<LogLine<'_>> {
        match self.line {
            LineKind::Nothing => None,
            LineKind::State => Some(LogLine::State(self.to.as_str(), self.from())),
            LineKind::Repeated => Some(LogLine::State(
                self.to.as_str(),
                Some(self.from().unwrap_or("")),
            )),
            LineKind::Reopened => Some(LogLine::State(self.first.as_str(), Some(self.to.as_str()))),
            LineKind::Closing => Some(LogLine::Closing),
        }
    }

    fn from(&self) -> Option<&str> {
        match &self.from {
            Some(word) => Some(word.as_str()),
            None => None,
        }
    }
}

/// What is logged where a heading of a text gets a keyword; none where no heading stands on the line, or the word is none of
/// the text's keywords.
pub fn keyword_log(
    alloc: Global,
    text: &str,
    change: &KeywordChange<'_>,
    set: &LogSettings<'_>,
) -> Result<Option<KeywordLog>, Fault> {
    let lines = setting_texts(alloc, text)?;
    let settings = Settings::of_lines(alloc, &lines)?;
    let Some(at) = heading_start(text, change.line) else {
        return Ok(None);
    };
    let Some(place) = settings.keyword_place(change.to.as_bytes()) else {
        return Ok(None);
    };
    let asked = Asked {
        text,
        section: text.get(at..).unwrap_or(""),
        lines: &lines,
        settings: &settings,
        set,
    };
    Ok(Some(log_of(alloc, &asked, change, place)?))
}

// What a file asks for a heading, and what a person set.
#[derive(Clone, Copy)]
pub(crate) struct Asked<'a> {
    pub(crate) text: &'a str,
    // The text from the heading on.
    pub(crate) section: &'a str,
    // The setting lines.
    pub(crate) lines: &'a Texts,
    pub(crate) settings: &'a Settings,
    pub(crate) set: &'a LogSettings<'a>,
}

// The same of a keyword at a place.
fn log_of(
    alloc: Global,
    asked: &Asked<'_>,
    change: &KeywordChange<'_>,
    place: usize,
) -> Result<KeywordLog, AllocError> {
    let from = keyword_of(asked.settings, first_line(asked.section));
    let local = value_for(alloc, asked.text, change.line, asked.settings, "LOGGING")?;
    let rules = file_rules(asked.lines, asked.set.rules);
    let first = first_word(asked.settings, place);
    let step = Step {
        is_done: is_done_at(asked.settings, place),
        was_done: is_done_word(asked.settings, from),
        was_open: is_open_word(asked.settings, from),
        had_keyword: from.is_some(),
        repeats: repeats(second_line(asked.section)),
        has_note: change.has_note,
    };
    let wanted = match local {
        Some(words) => local_wants(asked.settings, words, change.to, from, first),
        None => file_wants(asked.lines, rules, change.to, from),
    };
    let decision = decide(&step, &wanted);
    let drawer = drawer_name(alloc, asked, change.line, rules.drawer)?;
    Ok(KeywordLog {
        ends_clock: step.is_done,
        is_closed: decision.is_closed,
        is_reopened: decision.is_reopened,
        repeats: decision.repeats,
        line: decision.line,
        is_newest_first: rules.is_newest_first,
        from: copy_of(alloc, from)?,
        to: String::from_str(alloc, change.to)?,
        first: String::from_str(alloc, first)?,
        drawer,
    })
}

fn copy_of(alloc: Global, word: Option<&str>) -> Result<Option<String>, AllocError> {
    match word {
        Some(word) => Ok(Some(String::from_str(alloc, word)?)),
        None => Ok(None),
    }
}

fn text_of(bytes: &[u8]) -> &str {
    str::from_utf8(bytes).unwrap_or("")
}

fn is_done_word(settings: &Settings, word: Option<&str>) -> bool {
    match word {
        Some(word) => match settings.keyword_place(word.as_bytes()) {
            Some(place) => is_done_at(settings, place),
            None => false,
        },
        None => false,
    }
}

fn is_done_at(settings: &Settings, place: usize) -> bool {
    place < settings.keyword_count() && settings.is_done(place)
}

// The first keyword of the sequence that holds the one at a place.
fn first_word(settings: &Settings, place: usize) -> &str {
    if place < settings.keyword_count() {
        text_of(settings.keyword_word(settings.first_of_sequence(place)))
    } else {
        ""
    }
}

fn is_open_word(settings: &Settings, word: Option<&str>) -> bool {
    word.is_some() && !is_done_word(settings, word)
}

// Whether a task comes again when it is done, by the line under its heading.
fn repeats(line: &str) -> bool {
    if line.len() > 0xffff_fff0 {
        return false;
    }
    match read_planning(line.as_bytes()) {
        Some(planning) => is_repeated(planning.scheduled) || is_repeated(planning.deadline),
        None => false,
    }
}

fn is_repeated(found: Option<(Stamp, Span)>) -> bool {
    match found {
        Some((stamp, _)) => stamp.active && stamp.repeater.is_some(),
        None => false,
    }
}

// The setting lines of a text.
pub(crate) fn setting_texts(alloc: Global, text: &str) -> Result<Texts, Fault> {
    let whole = Whole::of(alloc, text)?;
    let spans = sections(alloc, &whole)?;
    let mut lines = Texts::new(alloc);
    for span in spans.as_slice() {
        let classes = classify(alloc, &mut Meter::new(), &whole, *span)?;
        push_setting_lines(alloc, &mut lines, &whole, *span, classes.as_slice())?;
    }
    Ok(lines)
}

// What setting lines say of logs, over what holds else.
pub(crate) fn file_rules(lines: &Texts, set: LogRules) -> LogRules {
    let mut rules = set;
    for place in 0..lines.count() {
        if let Some((key, words)) = setting_of(text_of(lines.get(place))) {
            if key.eq_ignore_ascii_case("STARTUP") {
                rules = with_words(rules, words);
            }
        }
    }
    rules
}

fn with_words(rules: LogRules, words: &str) -> LogRules {
    let mut rules = rules;
    for word in words.split_whitespace() {
        rules = with_startup_word(rules, word);
    }
    rules
}

// What a file's own lines want.
pub(crate) fn file_wants(lines: &Texts, rules: LogRules, to: &str, from: Option<&str>) -> Wanted {
    Wanted {
        done: rules.done,
        repeat: rules.repeat,
        has_marks: has_marks(lines),
        state: state_of(file_marks(lines, to), file_marks(lines, from.unwrap_or(""))),
        again: None,
    }
}

// What a change asks for by the marks of the new keyword and of the old one.
fn state_of(to: Marks, from: Marks) -> Option<How> {
    match to.entering {
        Some(how) => Some(how),
        None => from.leaving,
    }
}

// What the property LOGGING wants in place of the file's lines.
pub(crate) fn local_wants(
    settings: &Settings,
    words: &str,
    to: &str,
    from: Option<&str>,
    first: &str,
) -> Wanted {
    let mut done = None;
    let mut repeat = None;
    let mut marked = false;
    for word in words.split_whitespace() {
        if let Some(how) = how_of(word, "logdone", "lognotedone", "nologdone") {
            done = how;
        }
        if let Some(how) = how_of(word, "logrepeat", "lognoterepeat", "nologrepeat") {
            repeat = how;
        }
        marked = marked || is_marked(settings, word);
    }
    let to_marks = local_marks(words, to);
    Wanted {
        done,
        repeat,
        has_marks: marked,
        state: state_of(to_marks, local_marks(words, from.unwrap_or(""))),
        again: state_of(local_marks(words, first), to_marks),
    }
}

// Whether a word names a keyword of a file with marks.
fn is_marked(settings: &Settings, word: &str) -> bool {
    let (name, inner) = keyword_parts(word);
    settings.keyword_place(name.as_bytes()).is_some() && marks_of(inner.as_bytes()).are_some()
}

// The marks of a keyword in the words of LOGGING; the last ones count.
fn local_marks(words: &str, keyword: &str) -> Marks {
    let mut found = NO_MARKS;
    for word in words.split_whitespace() {
        found = or_marks(found, word, keyword);
    }
    found
}

// The marks that a word gives to a keyword, or those found before.
fn or_marks(found: Marks, word: &str, keyword: &str) -> Marks {
    let (name, inner) = keyword_parts(word);
    let marks = marks_of(inner.as_bytes());
    if name == keyword && marks.are_some() {
        marks
    } else {
        found
    }
}

// The marks of a keyword in setting lines; the last ones count.
fn file_marks(lines: &Texts, keyword: &str) -> Marks {
    let mut found = NO_MARKS;
    for place in 0..lines.count() {
        let words = keyword_words(text_of(lines.get(place)));
        for word in words.split_whitespace() {
            found = or_marks(found, word, keyword);
        }
    }
    found
}

// Whether setting lines mark any keyword.
fn has_marks(lines: &Texts) -> bool {
    for place in 0..lines.count() {
        let words = keyword_words(text_of(lines.get(place)));
        if words.split_whitespace().any(|word| marks_of(
            keyword_parts(word).1.as_bytes(),
        ).are_some())
        {
            return true;
        }
    }
    false
}

// The words of a setting line that names keywords; none where it is another line.
fn keyword_words(line: &str) -> &str {
    match setting_of(line) {
        Some((key, words)) if names_keywords(key) => words,
        _ => "",
    }
}

fn names_keywords(key: &str) -> bool {
    key.eq_ignore_ascii_case("TODO")
        || key.eq_ignore_ascii_case("SEQ_TODO")
        || key.eq_ignore_ascii_case("TYP_TODO")
}

// The name of the drawer into which lines go; empty where they stand in the text.
pub(crate) fn drawer_name(
    alloc: Global,
    asked: &Asked<'_>,
    line: u64,
    choice: DrawerChoice,
) -> Result<String, AllocError> {
    let own = value_for(alloc, asked.text, line, asked.settings, "LOG_INTO_DRAWER")?;
    let name = match own {
        Some("nil") => "",
        Some("t") => "LOGBOOK",
        Some(name) => name,
        None => chosen_name(choice, asked.set.drawer),
    };
    String::from_str(alloc, name)
}

fn chosen_name(choice: DrawerChoice, named: &str) -> &str {
    match choice {
        DrawerChoice::Text => "",
        DrawerChoice::Logbook => "LOGBOOK",
        DrawerChoice::Named => named,
    }
}

/// A date of a heading that is changed.
#[derive(Clone, Copy, Debug)]
pub struct DateChange<'a> {
    /// The heading's line. Lines count from 1.
    pub line: u64,
    /// Whose date it is.
    pub keyword: PlanningKeyword,
    /// The stamp that stood there.
    pub old: &'a str,
    /// The one that stands there now; empty where none does.
    pub new: &'a str,
}

/// What is logged where a date of a heading changes.
#[derive(Debug, Drop)]
pub struct DateLog {
    keyword: PlanningKeyword,
    is_gone: bool,
    is_newest_first: bool,
    old: String,
    drawer: String,
}

impl DateLog {
    /// What is written in its section.
    pub fn entry<'a>(&'a self, note: &'a str) -> LogEntry<'a> {
        LogEntry {
            is_closed: false,
            is_reopened: false,
            repeats: Repeats::Not,
            line: Some(self.line()),
            note,
            drawer: self.drawer.as_str(),
            is_newest_first: self.is_newest_first,
        }
    }

    fn line(&self) -> LogLine<'_> {
        let old = self.old.as_str();
        match (self.keyword == PlanningKeyword::Deadline, self.is_gone) {
            (false, false) => LogLine::Rescheduled(old),
            (false, true) => LogLine::Unscheduled(old),
            (true, false) => LogLine::NewDeadline(old),
            (true, true) => LogLine::NoDeadline(old),
        }
    }
}

/// What is logged where a date of a heading of a text changes; none where nothing asks for it, or no date changes.
pub fn date_log(
    alloc: Global,
    text: &str,
    change: &DateChange<'_>,
    set: &LogSettings<'_>,
    has_note: bool,
) -> Result<Option<DateLog>, Fault> {
    if change.old.is_empty() || change.old == change.new {
        return Ok(None);
    }
    let lines = setting_texts(alloc, text)?;
    let settings = Settings::of_lines(alloc, &lines)?;
    let rules = file_rules(&lines, set.rules);
    let how = match change.keyword {
        PlanningKeyword::Scheduled => rules.reschedule,
        PlanningKeyword::Deadline => rules.redeadline,
        PlanningKeyword::Closed => None,
    };
    if how.is_none() && !has_note {
        return Ok(None);
    }
    let asked = Asked {
        text,
        section: "",
        lines: &lines,
        settings: &settings,
        set,
    };
    let drawer = drawer_name(alloc, &asked, change.line, rules.drawer)?;
    Ok(Some(DateLog {
        keyword: change.keyword,
        is_gone: change.new.is_empty(),
        is_newest_first: rules.is_newest_first,
        old: String::from_str(alloc, change.old)?,
        drawer,
    }))
}

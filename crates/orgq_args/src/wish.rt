//! What a command that changes a file asks for.

use crate::act_words::NO_KEYWORD;
use crate::adding::WishedHeading;
use crate::head_words::{WishedProperty, WishedTags};
use crate::options::form;
use crate::trace::{WishedTrace, read_trace};
use clap::ArgMatches;
use org_act::{ClockStep, KeywordChoice};
use org_amend::TypedDate;
use org_answer::Form;
use org_cal::Moment;
use org_stamp::PlanningKeyword;
use orgq_messages::Problem;
use std::alloc::{AllocError, Global};

/// What is to be done to a heading.
#[derive(Debug, Drop)]
pub enum WishedAct {
    /// It gets a keyword.
    Keyword(WishedKeyword),
    /// It gets a date under a planning keyword, or loses the stamps there.
    Planning(PlanningKeyword, Option<TypedDate>),
    /// It is written anew.
    Addition(WishedHeading),
    /// Its date under a planning keyword goes so far on.
    Shift(PlanningKeyword, String),
    /// Its clock is changed.
    Clock(ClockStep),
    /// It loses tags, and gets others.
    Tags(WishedTags),
    /// Its priority becomes this one, or none.
    Priority(Option<String>),
    /// It gets a property, or loses one.
    Property(WishedProperty),
    /// It gets this note.
    Note(String),
}

impl WishedAct {
    /// The word of the keyword, if one is named.
    pub fn word(&self) -> &str {
        match self {
            WishedAct::Keyword(keyword) => keyword.word(),
            WishedAct::Addition(heading) => heading.keyword_word(),
            _ => "",
        }
    }

    /// An equal one.
    pub fn copy(&self, alloc: Global) -> Result<WishedAct, AllocError> {
        match self {
            WishedAct::Keyword(keyword) => Ok(WishedAct::Keyword(keyword.copy(alloc)?)),
            WishedAct::Planning(keyword, date) => Ok(WishedAct::Planning(*keyword, *date)),
            WishedAct::Addition(heading) => Ok(WishedAct::Addition(heading.copy(alloc)?)),
            WishedAct::Shift(keyword, distance) => {
                Ok(WishedAct::Shift(*keyword, copy_of(alloc, distance)?))
            }
            WishedAct::Clock(step) => Ok(WishedAct::Clock(*step)),
            WishedAct::Tags(tags) => Ok(WishedAct::Tags(tags.copy(alloc)?)),
            WishedAct::Priority(priority) => Ok(WishedAct::Priority(copy_if(alloc, priority)?)),
            WishedAct::Property(property) => Ok(WishedAct::Property(property.copy(alloc)?)),
            WishedAct::Note(text) => Ok(WishedAct::Note(copy_of(alloc, text)?)),
        }
    }
}

/// The keyword that a heading gets.
#[derive(Debug, Drop)]
pub enum WishedKeyword {
    /// This one.
    Any(String),
    /// This one, which has to be a done one.
    Done(String),
    /// The first done one of its sequence.
    FirstDone,
    /// None: the one that it has goes.
    None,
}

impl WishedKeyword {
    /// The choice that an act makes; none where the keyword goes.
    pub fn choice(&self) -> Option<KeywordChoice<'_>> {
        match self {
            WishedKeyword::Any(word) => Some(KeywordChoice::Any(word.as_str())),
            WishedKeyword::Done(word) => Some(KeywordChoice::Done(word.as_str())),
            WishedKeyword::FirstDone => Some(KeywordChoice::FirstDone),
            WishedKeyword::None => None,
        }
    }

    /// The word, if one is named.
    pub fn word(&self) -> &str {
        match self {
            WishedKeyword::Any(word) | WishedKeyword::Done(word) => word.as_str(),
            WishedKeyword::FirstDone | WishedKeyword::None => "",
        }
    }

    /// An equal one.
    pub fn copy(&self, alloc: Global) -> Result<WishedKeyword, AllocError> {
        match self {
            WishedKeyword::Any(word) => Ok(WishedKeyword::Any(copy_of(alloc, word)?)),
            WishedKeyword::Done(word) => Ok(WishedKeyword::Done(copy_of(alloc, word)?)),
            WishedKeyword::FirstDone => Ok(WishedKeyword::FirstDone),
            WishedKeyword::None => Ok(WishedKeyword::None),
        }
    }
}

fn copy_if(alloc: Global, word: &Option<String>) -> Result<Option<String>, AllocError> {
    match word {
        Some(word) => Ok(Some(copy_of(alloc, word)?)),
        None => Ok(None),
    }
}

fn copy_of(alloc: Global, word: &String) -> Result<String, AllocError> {
    String::from_str(alloc, word.as_str())
}

/// How an answer is printed: whether a place stands in front of each line, whether anything is, and whether control
/// characters are written so that they can be seen.
#[derive(Clone, Copy, Debug)]
pub struct Look {
    pub has_place: bool,
    pub is_quiet: bool,
    pub is_seen: bool,
}

/// What is asked of a heading.
#[derive(Debug, Drop)]
pub struct Wish {
    pub act: WishedAct,
    /// When it is done.
    pub moment: Moment,
    /// The keywords of files that have none of their own.
    pub keywords: Option<String>,
    /// Whether nothing is to be written.
    pub is_dry: bool,
    pub look: Look,
    /// What is logged.
    pub trace: WishedTrace,
}

/// What the arguments ask for, by the words of the command and the act that they name.
pub fn read_wish(
    alloc: Global,
    matches: &ArgMatches<'_>,
    own: &ArgMatches<'_>,
    act: WishedAct,
    moment: Moment,
) -> Result<Wish, Problem> {
    let keywords = match matches.get_str("keywords") {
        Some(words) => Some(String::from_str(alloc, words)?),
        None => None,
    };
    let is_keyword = matches!(act, WishedAct::Keyword(_));
    let trace = match &act {
        WishedAct::Note(text) => read_trace(alloc, matches, text.as_str())?,
        _ => read_trace(alloc, matches, note_of(own, &act))?,
    };
    Ok(Wish {
        act,
        moment,
        keywords,
        is_dry: own.get_flag("dry-run"),
        look: Look {
            has_place: has_place(matches, is_keyword)?,
            is_quiet: matches.get_flag("quiet"),
            is_seen: false,
        },
        trace,
    })
}

// The note that is given, where an act takes one.
fn note_of<'a>(own: &ArgMatches<'a>, act: &WishedAct) -> &'a str {
    match act {
        WishedAct::Keyword(_) | WishedAct::Planning(..) | WishedAct::Shift(..) => {
            own.get_str("note").unwrap_or("")
        }
        _ => "",
    }
}

// Whether a place stands in front of each line; the lines are no rows.
pub(crate) fn has_place(matches: &ArgMatches<'_>, is_keyword: bool) -> Result<bool, Problem> {
    if matches.get_one::<u32>("days").is_some() {
        return Err(Problem::DaysOf);
    }
    if matches.get_flag("days-too") {
        return Err(Problem::DaysToo);
    }
    match form(matches)? {
        Form::Plain => Ok(false),
        Form::Places => Ok(true),
        Form::Json | Form::Csv | Form::Template(_) if is_keyword => Err(Problem::ActForm),
        Form::Json | Form::Csv | Form::Template(_) => Err(Problem::LineForm),
    }
}

/// The keyword of `done`, among its options and words.
pub fn done_keyword<'a>(
    alloc: Global,
    own: &ArgMatches<'a>,
    wanted: &[&'a str],
) -> Result<WishedKeyword, Problem> {
    match keyword_word(own, wanted) {
        Some(word) => Ok(WishedKeyword::Done(String::from_str(alloc, word)?)),
        None => Ok(WishedKeyword::FirstDone),
    }
}

/// The keyword of `set`, among its options and words.
pub fn set_keyword<'a>(
    alloc: Global,
    own: &ArgMatches<'a>,
    wanted: &[&'a str],
) -> Result<WishedKeyword, Problem> {
    match keyword_word(own, wanted) {
        Some(word) if word == NO_KEYWORD => Ok(WishedKeyword::None),
        Some(word) => Ok(WishedKeyword::Any(String::from_str(alloc, word)?)),
        None => Err(Problem::NoKeyword),
    }
}

// The word for the keyword.
fn keyword_word<'a>(own: &ArgMatches<'a>, wanted: &[&'a str]) -> Option<&'a str> {
    match own.get_str("keyword") {
        Some(word) => Some(word),
        None => wanted.first().copied(),
    }
}

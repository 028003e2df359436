//! The heading that `add` writes.

use crate::head_words::joined_words;
use crate::place::{HeadingPlace, TypedPlace, read_place};
use crate::planning::typed_date;
use clap::ArgMatches;
use org_amend::{NewEntry, NewHead, TypedDate};
use org_cal::Day;
use orgq_files::{INPUT, LeftOut, read_input};
use orgq_messages::Problem;
use std::alloc::{AllocError, Global};

/// A heading that is to be written.
#[derive(Debug, Drop)]
pub struct WishedHeading {
    /// The line of the heading below which it goes, if it goes below one.
    pub under: Option<u64>,
    pub keyword: Option<String>,
    pub priority: Option<String>,
    pub title: String,
    pub tags: Vec<String>,
    pub scheduled: Option<TypedDate>,
    pub deadline: Option<TypedDate>,
    /// What stands below; it may be empty.
    pub body: String,
}

impl WishedHeading {
    /// The lines that an act writes, with these tags.
    pub fn entry<'a>(&'a self, tags: &'a [&'a str]) -> NewEntry<'a> {
        NewEntry {
            head: NewHead {
                level: 1,
                keyword: text_of(&self.keyword),
                priority: text_of(&self.priority),
                title: self.title.as_str(),
                tags,
            },
            scheduled: self.scheduled,
            deadline: self.deadline,
            body: self.body.as_str(),
        }
    }

    /// The word of its keyword, if it is to have one.
    pub fn keyword_word(&self) -> &str {
        text_of(&self.keyword).unwrap_or("")
    }

    /// An equal one.
    pub fn copy(&self, alloc: Global) -> Result<WishedHeading, AllocError> {
        Ok(WishedHeading {
            under: self.under,
            keyword: copy_of(alloc, text_of(&self.keyword))?,
            priority: copy_of(alloc, text_of(&self.priority))?,
            title: String::from_str(alloc, self.title.as_str())?,
            tags: copies_of(alloc, self.tags.as_slice())?,
            scheduled: self.scheduled,
            deadline: self.deadline,
            body: String::from_str(alloc, self.body.as_str())?,
        })
    }
}

fn text_of(text: &Option<String>) -> Option<&str> {
    match text {
        Some(text) => Some(text.as_str()),
        None => None,
    }
}

fn copy_of(alloc: Global, text: Option<&str>) -> Result<Option<String>, AllocError> {
    match text {
        Some(text) => Ok(Some(String::from_str(alloc, text)?)),
        None => Ok(None),
    }
}

pub(crate) fn copies_of(alloc: Global, texts: &[String]) -> Result<Vec<String>, AllocError> {
    let mut copies = Vec::new(alloc);
    for text in texts {
        copies.push(String::from_str(alloc, text.as_str())?)?;
    }
    Ok(copies)
}

/// The tags of a heading, lent.
pub fn lend<'a>(alloc: Global, tags: &'a [String]) -> Result<Vec<&'a str>, AllocError> {
    let mut lent = Vec::new(alloc);
    for tag in tags {
        lent.push(tag.as_str())?;
    }
    Ok(lent)
}

/// Where the heading goes: the file that is named, else the inbox, and the line of the heading below which it goes, 0 without one;
/// or the heading below which it goes.
pub fn added_place(
    alloc: Global,
    matches: &ArgMatches<'_>,
    own: &ArgMatches<'_>,
) -> Result<TypedPlace, Problem> {
    let named = matches.get_strs("file").unwrap_or(&[]);
    if matches
        .get_strs("PATH")
        .is_some_and(|paths| !paths.is_empty())
    {
        return Err(Problem::OneFile);
    }
    match (own.get_str("under"), named) {
        (Some(place), []) => read_place(alloc, place),
        (Some(place), _) => match read_place(alloc, place)? {
            TypedPlace::Id(id) => Ok(TypedPlace::Id(id)),
            TypedPlace::At(_) | TypedPlace::AtWithId(..) => Err(Problem::FileBeside),
        },
        (None, [name]) if *name != INPUT => behind_all(alloc, name),
        (None, []) => match own.get_str("inbox") {
            Some(name) => behind_all(alloc, name),
            None => Err(Problem::OneFile),
        },
        (None, _) => Err(Problem::OneFile),
    }
}

// The place behind all headings of a file.
fn behind_all(alloc: Global, name: &str) -> Result<TypedPlace, Problem> {
    Ok(TypedPlace::At(HeadingPlace {
        name: String::from_str(alloc, name)?,
        line: 0,
        found_in: None,
    }))
}

/// The heading that the words of `add` ask for, and the line below which it goes, without its body.
pub fn wished_heading(
    alloc: Global,
    own: &ArgMatches<'_>,
    place: &HeadingPlace,
    today: Day,
) -> Result<WishedHeading, Problem> {
    Ok(WishedHeading {
        under: if place.line > 0 {
            Some(place.line)
        } else {
            None
        },
        keyword: copy_of(alloc, own.get_str("todo"))?,
        priority: copy_of(alloc, own.get_str("priority"))?,
        title: title_of(alloc, own)?,
        tags: texts_of(alloc, own.get_strs("tag").unwrap_or(&[]))?,
        scheduled: date_of(alloc, own.get_str("scheduled"), today)?,
        deadline: date_of(alloc, own.get_str("deadline"), today)?,
        body: String::new(alloc),
    })
}

fn texts_of(alloc: Global, words: &[&str]) -> Result<Vec<String>, AllocError> {
    let mut texts = Vec::new(alloc);
    for word in words {
        texts.push(String::from_str(alloc, word)?)?;
    }
    Ok(texts)
}

fn date_of(alloc: Global, text: Option<&str>, today: Day) -> Result<Option<TypedDate>, Problem> {
    match text {
        Some(text) => Ok(Some(typed_date(alloc, text, today)?)),
        None => Ok(None),
    }
}

/// The words of the title; the last one stands for a body where it is a dash.
pub(crate) fn title_words<'a, 'b>(own: &'b ArgMatches<'a>) -> (&'b [&'a str], bool) {
    match own.get_strs("TITLE").unwrap_or(&[]) {
        [words @ .., last] if *last == INPUT => (words, true),
        words => (words, false),
    }
}

// The title: its words with a space between two of them.
fn title_of(alloc: Global, own: &ArgMatches<'_>) -> Result<String, AllocError> {
    let (words, _) = title_words(own);
    joined_words(alloc, words)
}

/// Whether standard input is the body of the heading.
pub fn has_body(own: &ArgMatches<'_>) -> bool {
    let (_, has_body) = title_words(own);
    has_body
}

/// What standard input says, as the body of a heading.
pub fn read_body<R: AllocGlobal + Input>(rt: &R, own: &ArgMatches<'_>) -> Result<String, LeftOut> {
    if has_body(own) {
        read_input(rt)
    } else {
        Ok(String::new(rt.alloc()))
    }
}

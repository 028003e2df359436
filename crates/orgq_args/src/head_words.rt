//! What `tag`, `priority`, `property` and `note` give to headings, among their words.

use crate::act_words::{ActWords, split_at};
use crate::adding::copies_of;
use crate::wish::WishedAct;
use clap::ArgMatches;
use org_base::is_tag_char;
use orgq_messages::Problem;
use std::alloc::{AllocError, Global};

/// Tags that headings lose, and tags that they get.
#[derive(Debug, Drop)]
pub struct WishedTags {
    pub removed: Vec<String>,
    pub added: Vec<String>,
}

impl WishedTags {
    /// An equal one.
    pub fn copy(&self, alloc: Global) -> Result<WishedTags, AllocError> {
        Ok(WishedTags {
            removed: copies_of(alloc, self.removed.as_slice())?,
            added: copies_of(alloc, self.added.as_slice())?,
        })
    }
}

/// A property that headings get, or lose.
#[derive(Debug, Drop)]
pub struct WishedProperty {
    pub name: String,
    /// Its value; none where it goes.
    pub value: Option<String>,
}

impl WishedProperty {
    /// The value, if there is one.
    pub fn text(&self) -> Option<&str> {
        match &self.value {
            Some(value) => Some(value.as_str()),
            None => None,
        }
    }

    /// An equal one.
    pub fn copy(&self, alloc: Global) -> Result<WishedProperty, AllocError> {
        Ok(WishedProperty {
            name: String::from_str(alloc, self.name.as_str())?,
            value: match self.text() {
                Some(value) => Some(String::from_str(alloc, value)?),
                None => None,
            },
        })
    }
}

/// Whether a command gives headings something else than a keyword or a date.
pub fn changes_parts(command: &str) -> bool {
    matches!(command, "tag" | "priority" | "property" | "note")
}

/// The headings among the words of such a command, and what they get.
pub fn part_words<'a, 'b>(
    command: &str,
    own: &ArgMatches<'a>,
    words: &'b [&'a str],
) -> Result<ActWords<'a, 'b>, Problem> {
    let has_match = own.get_str("match").is_some();
    let at = match command {
        "tag" => words
            .iter()
            .take_while(|word| !word.starts_with('+'))
            .count(),
        "note" if has_match => 0,
        "note" => words.len().min(1),
        _ => words.len().saturating_sub(1),
    };
    if has_match && at > 0 {
        return Err(Problem::PlaceBeside);
    }
    Ok(split_at(words, at))
}

/// What such a command wishes of headings, by the words for it.
pub fn wished_part<'a>(
    alloc: Global,
    command: &str,
    own: &ArgMatches<'a>,
    wanted: &[&'a str],
) -> Result<WishedAct, Problem> {
    match command {
        "tag" => Ok(WishedAct::Tags(wished_tags(alloc, own, wanted)?)),
        "priority" => Ok(WishedAct::Priority(wished_priority(alloc, wanted)?)),
        "property" => Ok(WishedAct::Property(wished_property(alloc, wanted)?)),
        _ => wished_note(joined_words(alloc, wanted)?),
    }
}

/// The act that gives headings a note.
pub fn wished_note(text: String) -> Result<WishedAct, Problem> {
    if text.as_str().trim().is_empty() {
        return Err(Problem::NoNote);
    }
    Ok(WishedAct::Note(text))
}

// Words with a space between two of them.
pub(crate) fn joined_words(alloc: Global, words: &[&str]) -> Result<String, AllocError> {
    let mut text = String::new(alloc);
    for word in words {
        if !text.as_str().is_empty() {
            text.push_str(" ")?;
        }
        text.push_str(word)?;
    }
    Ok(text)
}

fn wished_tags<'a>(
    alloc: Global,
    own: &ArgMatches<'a>,
    wanted: &[&'a str],
) -> Result<WishedTags, Problem> {
    let added = added_tags(alloc, wanted)?;
    let removed = removed_tags(alloc, own.get_strs("without").unwrap_or(&[]))?;
    if added.is_empty() && removed.is_empty() {
        return Err(Problem::NoTag);
    }
    Ok(WishedTags { removed, added })
}

// The tags of words `+TAG`, each once.
fn added_tags(alloc: Global, words: &[&str]) -> Result<Vec<String>, Problem> {
    let mut tags = Vec::new(alloc);
    for word in words {
        match word.strip_prefix('+') {
            Some(tag) if is_tag(tag) => push_once(alloc, &mut tags, tag)?,
            _ => return Err(Problem::Tag),
        }
    }
    Ok(tags)
}

fn removed_tags(alloc: Global, words: &[&str]) -> Result<Vec<String>, Problem> {
    let mut tags = Vec::new(alloc);
    for tag in words {
        if !is_tag(tag) {
            return Err(Problem::Tag);
        }
        push_once(alloc, &mut tags, tag)?;
    }
    Ok(tags)
}

fn push_once(alloc: Global, tags: &mut Vec<String>, tag: &str) -> Result<(), AllocError> {
    if !tags.iter().any(|own| own.as_str() == tag) {
        tags.push(String::from_str(alloc, tag)?)?;
    }
    Ok(())
}

fn is_tag(word: &str) -> bool {
    !word.is_empty() && word.chars().all(|c| is_tag_char(c))
}

// The priority that a word names; none where it is to go.
fn wished_priority(alloc: Global, wanted: &[&str]) -> Result<Option<String>, Problem> {
    match wanted {
        ["none"] => Ok(None),
        [word] => Ok(Some(String::from_str(alloc, word)?)),
        _ => Err(Problem::NoPriority),
    }
}

// The property of a word `NAME=VALUE`; it goes where there is no VALUE.
fn wished_property(alloc: Global, wanted: &[&str]) -> Result<WishedProperty, Problem> {
    let [word] = wanted else {
        return Err(Problem::NoProperty);
    };
    let Some((name, value)) = word.split_once('=') else {
        return Err(Problem::NoProperty);
    };
    if is_special(name) {
        return Err(Problem::SpecialProperty);
    }
    let value = value.trim();
    Ok(WishedProperty {
        name: String::from_str(alloc, name)?,
        value: if value.is_empty() {
            None
        } else {
            Some(String::from_str(alloc, value)?)
        },
    })
}

// Names that Org gives to what no property drawer says.
const SPECIAL: [&str; 14] = [
    "ALLTAGS",
    "BLOCKED",
    "CLOCKSUM",
    "CLOCKSUM_T",
    "CLOSED",
    "DEADLINE",
    "FILE",
    "ITEM",
    "PRIORITY",
    "SCHEDULED",
    "TAGS",
    "TIMESTAMP",
    "TIMESTAMP_IA",
    "TODO",
];

fn is_special(name: &str) -> bool {
    SPECIAL
        .iter()
        .any(|special| name.eq_ignore_ascii_case(special))
}

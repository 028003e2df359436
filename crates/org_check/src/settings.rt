//! Settings that aren't read, or read otherwise than they may be meant.

use crate::beside_kinds::BesideKind;
use crate::finding::Cause;
use crate::here::Here;
use crate::notes::Notes;
use org_base::words::{first_word, is_blank, same_word, trim};
use org_class::Class;
use org_stamp::leading_spaces;
use std::alloc::AllocError;

// Whether the first word is `#+KEY`, and with a colon after it where one is wanted, of a KEY that says something of a file.
pub(crate) fn is_known_setting(line: &[u8], colon: bool) -> bool {
    match first_word(line) {
        [b'#', b'+', key @ .., b':'] if colon => is_known_key(key),
        [b'#', b'+', key @ ..] if !colon => is_known_key(key),
        _ => false,
    }
}

fn is_known_key(key: &[u8]) -> bool {
    same_word(key, b"TODO")
        || same_word(key, b"SEQ_TODO")
        || same_word(key, b"TYP_TODO")
        || same_word(key, b"FILETAGS")
        || same_word(key, b"CATEGORY")
        || same_word(key, b"PROPERTY")
        || same_word(key, b"PRIORITIES")
}

// Puts a setting without its colon, and a second category. Answers the line of the first category, if there was one.
pub(crate) fn push_setting(
    notes: &mut Notes,
    here: Here,
    line: &[u8],
    category: Option<u32>,
) -> Result<Option<u32>, AllocError> {
    if !matches!(here.class, Class::Setting) {
        if is_known_setting(line, false) {
            notes.push(here.note(
                BesideKind::SettingWithoutColon,
                leading_spaces(line),
                trim(line).len(),
            ))?;
        }
        return Ok(category);
    }
    if !same_word(first_word(line), b"#+CATEGORY:") {
        return Ok(category);
    }
    let Some(first) = category else {
        return Ok(Some(here.number));
    };
    let note = here.note(
        BesideKind::SecondCategory,
        leading_spaces(line),
        trim(line).len(),
    );
    notes.push(note.with_cause(Some(Cause::Other(first))))?;
    Ok(category)
}

// Puts what a setting says otherwise than it may be meant, and one that Org reads.
pub(crate) fn push_read_setting(
    notes: &mut Notes,
    here: Here,
    line: &[u8],
) -> Result<(), AllocError> {
    if !matches!(here.class, Class::Setting) {
        return Ok(());
    }
    let key = first_word(line);
    if is_keyword_line(key) {
        push_keywords(notes, here, line)
    } else if same_word(key, b"#+SETUPFILE:") && !is_remote(line) {
        let len = trim(line).len();
        notes.push(here.note(BesideKind::UnreadSetting, leading_spaces(line), len))
    } else {
        Ok(())
    }
}

fn is_keyword_line(key: &[u8]) -> bool {
    same_word(key, b"#+TODO:") || same_word(key, b"#+SEQ_TODO:") || same_word(key, b"#+TYP_TODO:")
}

// Whether the value of the setting is an address and no file: what stands there is for pages, and is no keyword.
fn is_remote(line: &[u8]) -> bool {
    match line.iter().position(|b| *b == b':') {
        Some(colon) if colon < line.len() => {
            let value = trim(&line[colon + 1..]);
            value.starts_with(b"http") || value.starts_with(b"\"http")
        }
        _ => false,
    }
}

// Puts a keyword that has a comma, and the last of a line without a bar where it is mostly an open one.
fn push_keywords(notes: &mut Notes, here: Here, line: &[u8]) -> Result<(), AllocError> {
    let mut has_bar = false;
    let mut last = here.part(0, 0);
    let mut is_key = true;
    for at in 0..line.len() {
        if !begins_word(line, at) {
            continue;
        }
        let word = first_word(&line[at..]);
        if is_key {
            is_key = false;
            continue;
        }
        let name = keyword_name(word);
        if name.iter().any(|b| *b == b',') {
            notes.push(here.note(BesideKind::CommaInKeywords, at, word.len()))?;
        }
        has_bar = has_bar || word == b"|".as_slice();
        last = here.part(at, name.len());
    }
    if !has_bar && is_mostly_open(part_of(line, last.place, last.len)) {
        notes.push(here.note(BesideKind::MissingBar, last.place, last.len))?;
    }
    Ok(())
}

// Whether a word begins at the place.
fn begins_word(line: &[u8], at: usize) -> bool {
    at < line.len() && !is_blank(&line[at..at + 1]) && (at == 0 || is_blank(&line[at - 1..at]))
}

// A keyword as a setting line has it, without what stands in parentheses.
fn keyword_name(word: &[u8]) -> &[u8] {
    match word.iter().position(|b| *b == b'(') {
        Some(place) if place < word.len() => &word[..place],
        _ => word,
    }
}

// So many bytes of a line from a place on; none where it hasn't as many.
pub(crate) fn part_of(line: &[u8], at: usize, len: usize) -> &[u8] {
    if at <= line.len() && len <= line.len() - at {
        &line[at..at + len]
    } else {
        &[]
    }
}

// Whether the word is that of open headings in many people's files.
fn is_mostly_open(word: &[u8]) -> bool {
    matches!(
        word,
        b"TODO"
            | b"NEXT"
            | b"WAITING"
            | b"WAIT"
            | b"STARTED"
            | b"DOING"
            | b"SOMEDAY"
            | b"HOLD"
            | b"BLOCKED"
    )
}

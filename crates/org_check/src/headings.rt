//! Headings that don't say what they look like.
ghost use Rattle.std.specs.Prelude.{◌+◌, ◌≤◌, ◌<◌, ◌^◌, length, IsOkUnless};
ghost use Rattle.org_base.specs.Codes.{memory_fault};
ghost use Rattle.org_head.specs.Head.{AreInside};

use crate::beside_kinds::BesideKind;
use crate::file::About;
use crate::finding::Cause;
use crate::here::{Here, State};
use crate::hidden::hides;
use crate::notes::Notes;
use crate::seen::Seen;
use crate::spaces::odd_space_len;
use crate::unread_lines::past_spaces;
use org_base::Fault;
use org_base::words::{first_word, trim};
use org_class::leading_stars;
use org_head::{Head, part, read_head};
use org_settings::Settings;
use org_stamp::leading_spaces;
use std::alloc::AllocError;

// Puts what a heading line says and doesn't do; answers how things stand with it, and whether it hides itself.
pub(crate) fn push_heading(
    seen: &mut Seen<'_>,
    here: Here,
    line: &[u8],
) -> Result<(State, bool), Fault>
    ensures memory { IsOkUnless result memory_fault }
{
    if line.len() >= u32::MAX as usize {
        return Ok((State::NoTask, false));
    }
    let head = read_head(seen.alloc, line, seen.about.settings)?;
    push_keyword(seen, here, &head, line)?;
    push_title(&mut seen.notes, here, &head, line)?;
    Ok((
        state_of(seen.about.settings, &head, line),
        hides(&head, line),
    ))
}

fn state_of(settings: &Settings, head: &Head, line: &[u8]) -> State
    requires inside { AreInside line.now head.now }
{
    let Some(keyword) = head.keyword else {
        return State::NoTask;
    };
    match settings.keyword_place(part(line, keyword)) {
        Some(place) if settings.is_done(place) => State::Done,
        Some(_) => State::Open,
        None => State::NoTask,
    }
}

// Puts the first word of a title that looks like a keyword.
fn push_keyword(seen: &mut Seen<'_>, here: Here, head: &Head, line: &[u8]) -> Result<(), AllocError>
    requires inside { AreInside line.now head.now }
{
    if head.keyword.is_some() || head.comment {
        return Ok(());
    }
    let title = part(line, head.title);
    let word = first_word(title);
    let at = head.title.at as usize;
    if let Some(kind) = keyword_kind(seen.about, word) {
        return seen.notes.push(here.note(kind, at, word.len()));
    }
    if is_near_keyword(seen.about.settings, word, title) {
        return seen
            .notes
            .push(here.note(BesideKind::NearKeyword, at, word.len()));
    }
    push_capitals(seen, here, at, word)
}

// Whether the first word of a title is nearly a keyword of the file: one with a colon, or TODO in small letters before others.
fn is_near_keyword(settings: &Settings, word: &[u8], title: &[u8]) -> bool {
    let (bare, has_colon) = match word {
        [bare @ .., b':'] => (bare, true),
        _ => (word, false),
    };
    if has_colon && settings.keyword_place(bare).is_some() {
        return true;
    }
    bare == b"todo".as_slice()
        && (has_colon || word.len() < title.len())
        && settings.keyword_place(b"TODO").is_some()
}

// Puts a word in capitals that stood in front of an earlier heading too.
fn push_capitals(
    seen: &mut Seen<'_>,
    here: Here,
    at: usize,
    word: &[u8],
) -> Result<(), AllocError> {
    if word.len() < 3 || !word.iter().all(|b| matches!(*b, b'A'..=b'Z' | b'-' | b'_')) {
        return Ok(());
    }
    let Some(first) = seen.capitals.meet(word, here.number)? else {
        return Ok(());
    };
    let note = here.note(BesideKind::WordInCapitals, at, word.len());
    seen.notes.push(note.with_cause(Some(Cause::Other(first))))
}

// Why the first word of a title is no keyword, if it looks like one.
fn keyword_kind(about: &About<'_>, word: &[u8]) -> Option<BesideKind> {
    if about.settings.keyword_place(word).is_some() {
        // In front of it stands a cookie, since it would be the keyword otherwise.
        Some(BesideKind::KeywordAfterCookie)
    } else if about.others.place(word).is_some() {
        Some(BesideKind::KeywordOfOtherFile)
    } else if is_usual_keyword(word) {
        Some(BesideKind::MissingKeyword)
    } else {
        None
    }
}

// Whether the word is a keyword in many people's files.
fn is_usual_keyword(word: &[u8]) -> bool {
    matches!(
        word,
        b"TODO"
            | b"DONE"
            | b"NEXT"
            | b"WAITING"
            | b"WAIT"
            | b"STARTED"
            | b"CANCELLED"
            | b"CANCELED"
            | b"SOMEDAY"
            | b"HOLD"
            | b"BLOCKED"
    )
}

// Puts a cookie or tags that aren't read.
fn push_title(notes: &mut Notes, here: Here, head: &Head, line: &[u8]) -> Result<(), AllocError>
    requires inside { AreInside line.now head.now }
{
    let title = part(line, head.title);
    let at = head.title.at as usize;
    let word = first_word(title);
    if head.priority.is_none() && word.starts_with(b"[#") && word.ends_with(b"]") {
        notes.push(here.note(BesideKind::UnreadPriority, at, word.len()))?;
    }
    let last = last_word(title);
    if head.tags.count() == 0 && last.len() > 2 && last.starts_with(b":") && last.ends_with(b":") {
        let from = at.saturating_add(title.len().saturating_sub(last.len()));
        notes.push(here.note(BesideKind::UnreadTags, from, last.len()))?;
    }
    Ok(())
}

// The last word of a text at whose end no white space stands.
fn last_word(text: &[u8]) -> &[u8] {
    match text.iter().rposition(|b| matches!(*b, b' ' | b'\t')) {
        Some(gap) if gap < text.len() => &text[gap + 1..],
        _ => text,
    }
}

// Puts a line of text that looks like a heading with a keyword.
pub(crate) fn push_heading_like(
    notes: &mut Notes,
    here: Here,
    settings: &Settings,
    line: &[u8],
) -> Result<(), AllocError> {
    let gap = leading_spaces(line);
    let text = past_spaces(line);
    if gap == 0 {
        push_odd_heading(notes, here, line)?;
    }
    match heading_like_kind(gap, text, settings) {
        Some(kind) => notes.push(here.note(kind, gap, trim(text).len())),
        None => Ok(()),
    }
}

// Puts what only looks like a space after the stars at the front of a line.
fn push_odd_heading(notes: &mut Notes, here: Here, line: &[u8]) -> Result<(), AllocError> {
    let stars = leading_stars(line);
    if stars == 0 || stars >= line.len() {
        return Ok(());
    }
    match odd_space_len(&line[stars..]) {
        0 => Ok(()),
        len => notes.push(here.note(BesideKind::OddSpace, stars, len)),
    }
}

fn heading_like_kind(gap: usize, text: &[u8], settings: &Settings) -> Option<BesideKind> {
    let stars = leading_stars(text);
    if stars == 0 || stars >= text.len() {
        return None;
    }
    let rest = &text[stars..];
    settings.keyword_place(first_word(rest))?;
    if gap == 0 {
        Some(BesideKind::HeadingWithoutSpace)
    } else if rest[0] == b' ' {
        Some(BesideKind::IndentedHeading)
    } else {
        None
    }
}

//! The line of a row.

use crate::clock::is_over;
use crate::columns::gap;
use crate::cut::{cut, cut_short};
use crate::draft::Draft;
use crate::note::note_of;
use crate::page::Frame;
use crate::placed::Placed;
use crate::role::Role;
use crate::section::Section;
use crate::stand::Stand;
use crate::when::push_when;
use crate::words::{DayRows, KeywordKind, Words};
use std::alloc::{AllocError, Global};
use unicode_width::UnicodeWidthStr;

// The columns that a title keeps where its note is shown.
const LEAST_TITLE: usize = 16;

/// The line of a row and its notes.
pub(crate) fn row_line(
    alloc: Global,
    rows: &DayRows,
    line: &[Placed],
    frame: &Frame<'_>,
) -> Result<Draft, AllocError> {
    let mut draft = Draft::new(alloc);
    let Some(first) = line.first() else {
        return Ok(draft);
    };
    let Some(stand) = rows.stands.as_slice().get(first.place) else {
        return Ok(draft);
    };
    let Some(words) = rows.words.as_slice().get(first.place) else {
        return Ok(draft);
    };
    push_front(alloc, &mut draft, stand, words, frame)?;
    let note = note_of(alloc, rows, line, frame.head, frame.look.signs)?;
    let titled = Titled {
        title: words.title(),
        note: note.as_str(),
        role: title_role(stand, words, frame),
    };
    push_rest(alloc, &mut draft, &titled, words, frame)?;
    Ok(draft)
}

// What is over or done is dim.
fn title_role(stand: &Stand, words: &Words, frame: &Frame<'_>) -> Role {
    let is_over = frame.section == Section::ByTheClock && is_over(stand, frame.head.now);
    if words.is_done || is_over {
        Role::Dim
    } else {
        Role::Plain
    }
}

// Appends what stands in front of the title.
fn push_front(
    alloc: Global,
    draft: &mut Draft,
    stand: &Stand,
    words: &Words,
    frame: &Frame<'_>,
) -> Result<(), AllocError> {
    let columns = &frame.columns;
    draft.push(Role::Plain, "  ")?;
    push_when(alloc, draft, stand, words, frame)?;
    draft.fill(gap(columns.when, 2))?;
    draft.push(Role::Plain, "  ")?;
    if frame.section == Section::Habits {
        return Ok(());
    }
    if columns.category > 0 {
        let category = cut(
            alloc,
            words.category.as_str(),
            columns.category,
            frame.look.signs,
        )?;
        draft.push_cell(Role::Dim, category.as_str(), gap(columns.category, 2))?;
    }
    if words.keyword.is_empty() && words.priority.is_empty() {
        return Ok(());
    }
    push_head(alloc, draft, words, frame)
}

// Appends the keyword and the priority.
fn push_head(
    alloc: Global,
    draft: &mut Draft,
    words: &Words,
    frame: &Frame<'_>,
) -> Result<(), AllocError> {
    let columns = &frame.columns;
    if columns.keyword > 0 {
        let keyword = cut_short(alloc, words.keyword.as_str(), columns.keyword)?;
        draft.push_cell(
            keyword_role(words),
            keyword.as_str(),
            gap(columns.keyword, 1),
        )?;
    }
    if columns.priority == 0 {
        return Ok(());
    }
    if words.priority.is_empty() {
        return draft.push_cell(Role::Plain, "", gap(columns.priority, 1));
    }
    let mut priority = String::from_str(alloc, "#")?;
    priority.push_str(words.priority.as_str())?;
    draft.push_cell(
        priority_role(words),
        priority.as_str(),
        gap(columns.priority, 1),
    )
}

fn keyword_role(words: &Words) -> Role {
    if words.is_done {
        return Role::Dim;
    }
    match words.keyword_kind {
        KeywordKind::First => Role::Dim,
        KeywordKind::Now => Role::Now,
        KeywordKind::Other => Role::Plain,
    }
}

fn priority_role(words: &Words) -> Role {
    match words.priority.as_str() {
        "A" => Role::Head,
        "C" => Role::Dim,
        _ => Role::Plain,
    }
}

// A title with its role, and the note behind it.
#[derive(Clone, Copy)]
struct Titled<'a> {
    title: &'a str,
    note: &'a str,
    role: Role,
}

impl Titled<'_> {
    fn columns(&self) -> usize {
        self.title.width().saturating_add(self.note.width())
    }
}

// Appends the title and what stands behind it.
fn push_rest(
    alloc: Global,
    draft: &mut Draft,
    titled: &Titled<'_>,
    words: &Words,
    frame: &Frame<'_>,
) -> Result<(), AllocError> {
    let columns = &frame.columns;
    let left = columns.whole.saturating_sub(draft.columns());
    if frame.section == Section::Habits {
        return push_title(alloc, draft, titled, left, frame);
    }
    if columns.is_fixed() {
        push_title(
            alloc,
            draft,
            titled,
            left.saturating_sub(columns.behind()),
            frame,
        )?;
        return push_fixed(alloc, draft, words, frame);
    }
    let tags = cut(alloc, words.tags.as_str(), columns.tags, frame.look.signs)?;
    let behind = gap(tags.as_str().width(), 2);
    if titled.columns().saturating_add(behind) > left {
        return push_title(alloc, draft, titled, left, frame);
    }
    push_title(alloc, draft, titled, left.saturating_sub(behind), frame)?;
    draft.push_right(Role::Dim, tags.as_str(), columns.whole)
}

// Appends a title and its note in so many columns: first the title is cut, then the note goes.
fn push_title(
    alloc: Global,
    draft: &mut Draft,
    titled: &Titled<'_>,
    room: usize,
    frame: &Frame<'_>,
) -> Result<(), AllocError> {
    let least = titled.title.width().min(LEAST_TITLE);
    let has_note = titled.note.width().saturating_add(least) <= room;
    let note = if has_note { titled.note } else { "" };
    let left = room.saturating_sub(note.width());
    let title = cut(alloc, titled.title, left, frame.look.signs)?;
    draft.push(titled.role, title.as_str())?;
    draft.push(Role::Dim, note)
}

// Appends the path, the effort and the tags in their columns.
fn push_fixed(
    alloc: Global,
    draft: &mut Draft,
    words: &Words,
    frame: &Frame<'_>,
) -> Result<(), AllocError> {
    let columns = &frame.columns;
    let first = columns.whole.saturating_sub(columns.behind());
    if columns.path > 0 {
        let path = cut(alloc, words.path.as_str(), columns.path, frame.look.signs)?;
        draft.fill(first.saturating_add(2))?;
        draft.push(Role::Dim, path.as_str())?;
    }
    let tags_from = gap(columns.tags, 2);
    let effort = cut(
        alloc,
        words.effort.as_str(),
        columns.effort,
        frame.look.signs,
    )?;
    draft.push_right(
        Role::Dim,
        effort.as_str(),
        columns.whole.saturating_sub(tags_from),
    )?;
    let tags = cut(alloc, words.tags.as_str(), columns.tags, frame.look.signs)?;
    draft.push_right(Role::Dim, tags.as_str(), columns.whole)
}

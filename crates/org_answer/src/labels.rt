//! What a picture says of a row.
ghost use Rattle.std.specs.Prelude.{◌≡◌, IfOk};
ghost use Rattle.org_answer.specs.Pictures.{GivesEntries, stand_of};

use org_agenda::{Row, RowKind};
use org_base::Fault;
use org_cal::push_time;
use org_client::KeptHeadings;
use org_inherit::{Heading, Inherits};
use org_look::{Entry, Signs, Stand, Tone};
use org_visible::is_mark;
use std::alloc::{AllocError, Global};

/// What is said of the time of a row.
#[derive(Clone, Copy, Debug, PartialEq, Eq)]
pub(crate) enum SaidTime {
    Nothing,
    /// The hour alone.
    Hour,
    Whole,
}

/// How rows are said: what of their times, with keywords or without, by which signs, with a space behind these or without, and of
/// how many rows of a day at most.
#[derive(Clone, Copy)]
pub(crate) struct Wording {
    pub time: SaidTime,
    pub has_keyword: bool,
    pub signs: Signs,
    pub is_tight: bool,
    pub most: Option<usize>,
}

impl Wording {
    // Whether a row is said that stands after so many others of its day; what is late or comes near is only counted.
    fn says(&self, stand: Stand, before: usize) -> bool {
        match stand {
            Stand::Own => self.most.is_none_or(|most| before < most),
            Stand::Range(..) => true,
            Stand::Late | Stand::Soon => false,
        }
    }
}

/// The rows of a day as a picture has them, an entry for each in their order; those that aren't said have no label.
pub(crate) fn entries_of(
    alloc: Global,
    titles: &KeptHeadings<'_, '_>,
    rows: &[Row],
    wording: &Wording,
) -> Result<Vec<Entry>, Fault>
    ensures value { GivesEntries result rows.now }
{
    let mut entries = Vec::new(alloc);
    let mut own: usize = 0;
    for row in rows {
        let entry = entry_of(alloc, titles, row, wording, own)?;
        own = own.saturating_add(usize::from(entry.stand == Stand::Own));
        entries.push(entry)?;
    }
    Ok(entries)
}

// The entry of a row after so many others that are of the day itself.
fn entry_of(
    alloc: Global,
    titles: &KeptHeadings<'_, '_>,
    row: &Row,
    wording: &Wording,
    before: usize,
) -> Result<Entry, Fault>
    ensures value { IfOk result (λ entry. entry.stand ≡ stand_of row.now) }
{
    let stand = stand_of(row);
    if !wording.says(stand, before) {
        return Ok(Entry {
            stand,
            label: String::new(alloc),
            tone: Tone::Plain,
        });
    }
    Ok(Entry {
        stand,
        label: label_of(alloc, titles, row, wording)?,
        tone: tone_of(titles.inherits(), row),
    })
}

fn stand_of(row: &Row) -> Stand
    ensures value { result ≡ stand_of row.now }
{
    match row.kind {
        RowKind::InRange => Stand::Range(row.number, row.of),
        RowKind::LateSchedule | RowKind::LateDeadline => Stand::Late,
        RowKind::Warning => Stand::Soon,
        RowKind::Listed | RowKind::OnDay | RowKind::OnSchedule | RowKind::OnDeadline => Stand::Own,
    }
}

/// The colour of a row: that of its file, unless it is late or due.
pub(crate) fn tone_of(inherits: &Inherits<'_>, row: &Row) -> Tone {
    match row.kind {
        RowKind::LateSchedule | RowKind::LateDeadline => Tone::Late,
        RowKind::Warning => Tone::Soon,
        _ if is_due_row(inherits, row) => Tone::Soon,
        _ => Tone::File(row.file),
    }
}

/// Whether a row is that of a deadline on its day, of a heading that isn't done.
pub(crate) fn is_due_row(inherits: &Inherits<'_>, row: &Row) -> bool {
    row.kind == RowKind::OnDeadline && !is_done(inherits, row)
}

fn is_done(inherits: &Inherits<'_>, row: &Row) -> bool {
    match Heading::find(inherits, row.file, row.heading) {
        Some(heading) => heading.is_done(),
        None => false,
    }
}

/// The time of a row or its sign, then its keyword, its priority and its title.
pub(crate) fn label_of(
    alloc: Global,
    titles: &KeptHeadings<'_, '_>,
    row: &Row,
    wording: &Wording,
) -> Result<String, Fault> {
    let mut label = String::new(alloc);
    let Some(heading) = Heading::find(titles.inherits(), row.file, row.heading) else {
        return Ok(label);
    };
    push_start(&mut label, row, wording.time)?;
    push_sign(
        &mut label,
        sign_of(row.kind, heading.is_done(), wording.signs),
        wording.is_tight,
    )?;
    if wording.has_keyword {
        push_word(&mut label, heading.keyword())?;
    }
    if let Some(priority) = heading.priority() {
        label.push_str("[#")?;
        push_shown(&mut label, priority)?;
        label.push_str("] ")?;
    }
    let words = titles.words(alloc, row.file, row.heading)?;
    push_shown(&mut label, words.as_slice())?;
    Ok(label)
}

// Appends what is to be said of the time of a row, if it has one.
fn push_start(label: &mut String, row: &Row, said: SaidTime) -> Result<(), AllocError> {
    let Some(start) = row.start else {
        return Ok(());
    };
    match said {
        SaidTime::Nothing => Ok(()),
        SaidTime::Hour => write!(label, "{:02} ", start.minutes() / 60),
        SaidTime::Whole => {
            push_time(label, start)?;
            label.push(' ')
        }
    }
}

// Appends a sign, with a space behind it where it isn't tight.
fn push_sign(label: &mut String, sign: &str, is_tight: bool) -> Result<(), AllocError> {
    label.push_str(sign)?;
    if !sign.is_empty() && !is_tight {
        label.push(' ')?;
    }
    Ok(())
}

// What a planned row begins with, and one that is due.
fn sign_of(kind: RowKind, is_done: bool, signs: Signs) -> &'static str {
    match (kind, is_done, signs) {
        (RowKind::OnDeadline | RowKind::OnSchedule, true, Signs::Drawn) => "✓",
        (RowKind::OnDeadline | RowKind::OnSchedule, true, Signs::Ascii) => "x",
        (RowKind::OnDeadline, false, _) => "!",
        (RowKind::OnSchedule, false, Signs::Drawn) => "□",
        (RowKind::OnSchedule, false, Signs::Ascii) => "o",
        _ => "",
    }
}

fn push_word(label: &mut String, word: Option<&[u8]>) -> Result<(), AllocError> {
    if let Some(word) = word {
        push_shown(label, word)?;
        label.push(' ')?;
    }
    Ok(())
}

/// Appends a text of a file in words with one space between; a control character, and a mark that turns or hides text, stands
/// as U+FFFD.
pub(crate) fn push_shown(label: &mut String, bytes: &[u8]) -> Result<(), AllocError> {
    let text = str::from_utf8(bytes).unwrap_or("");
    for (place, word) in text.split_ascii_whitespace().enumerate() {
        if place > 0 {
            label.push(' ')?;
        }
        for c in word.chars() {
            let is_left_out = c.is_control() || is_mark(c);
            label.push(if is_left_out { '\u{fffd}' } else { c })?;
        }
    }
    Ok(())
}

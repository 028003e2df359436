//! Rows of agendas and lists as a page shows them.
ghost use Rattle.std.specs.Prelude.{◌≡◌, IsOkUnless, OnOk};
ghost use Rattle.org_base.specs.Codes.{memory_fault};
ghost use Rattle.org_overview.specs.Marks.{ShowsRow, ShowsRows, byte_of, hours_of, shown_mark, stand_of};
ghost use Rattle.org_overview.specs.Parts.{rows_of};

use crate::asked::Wish;
use crate::part::{Part, rows_of};
use crate::words::push_name;
use org_agenda::{Row, RowKind};
use org_base::{Fault, Texts};
use org_cal::TimeOfDay;
use org_client::{FileSet, HeadingAt, KeptHeadings, ReadFile, RowIds};
use org_inherit::{Heading, Inherits};
use org_page::{Hours, LinkPlace, Row as PageRow, StampPlace, Stand};
use org_store::Place;
use org_text::Text;
use std::alloc::{AllocError, Global};
use std::str;

// What stands in place of a path where a text came from standard input.
const STANDARD_INPUT: &str = "-";

/// Files of which rows are shown, what their headings inherit, the words of their titles, the short ids of those that show them, and
/// the page that is asked for.
#[derive(Drop)]
pub(crate) struct Linked<'a, 'b, T: Text> {
    pub(crate) files: &'a FileSet<T>,
    pub(crate) scopes: &'a Inherits<'b>,
    pub(crate) titles: &'a KeptHeadings<'a, 'b>,
    pub(crate) ids: &'a RowIds,
    pub(crate) wish: &'a Wish<'a>,
}

/// The rows of a day that stand in a part of the page, as it shows them.
pub(crate) fn part_rows<T: Text>(
    alloc: Global,
    seen: &Linked<'_, '_, T>,
    rows: &[Row],
    part: Part,
) -> Result<Vec<PageRow>, Fault>
    ensures value { ShowsRows result seen.now.files.now.files (rows_of part rows.now) }
    ensures memory { IsOkUnless result memory_fault }
{
    let some = rows_of(alloc, rows, part)?;
    page_rows(alloc, seen, some.as_slice())
}

/// Rows as a page shows them, in their order.
pub(crate) fn page_rows<T: Text>(
    alloc: Global,
    seen: &Linked<'_, '_, T>,
    rows: &[Row],
) -> Result<Vec<PageRow>, Fault>
    ensures value { ShowsRows result seen.now.files.now.files rows.now }
    ensures memory { IsOkUnless result memory_fault }
{
    let mut shown = Vec::new(alloc);
    for row in rows {
        let row = page_row(alloc, seen, row)?;
        shown.push(row)?;
    }
    Ok(shown)
}

/// A row as a page shows it.
pub(crate) fn page_row<T: Text>(
    alloc: Global,
    seen: &Linked<'_, '_, T>,
    row: &Row,
) -> Result<PageRow, Fault>
    ensures value { ShowsRow result seen.now.files.now.files row.now }
    ensures memory { IsOkUnless result memory_fault }
{
    let place = seen.files.place(row.file, row.heading);
    let mut shown = bare_row(alloc, row, byte_of(place, row.stamp_at));
    put_place(alloc, &mut shown, seen, row, place)?;
    put_heading(alloc, &mut shown, seen.titles, row)?;
    Ok(shown)
}

// The byte of a file at which a stamp stands, by where its section begins.
fn byte_of(place: Option<Place>, stamp_at: usize) -> usize
    ensures value { result ≡ byte_of place stamp_at }
{
    match place {
        Some(place) => stamp_at.saturating_add(place.at as usize),
        None => stamp_at,
    }
}

// A row without its texts.
fn bare_row(alloc: Global, row: &Row, at: usize) -> PageRow
    ensures stand { result.stand ≡ stand_of row.now.kind row.now.number row.now.of }
    ensures time { result.time ≡ hours_of row.now.start row.now.end }
    ensures stamp { result.stamp ≡ record { file = row.now.file; at = at } }
{
    PageRow {
        stand: stand_of(row.kind, row.number, row.of),
        time: hours_of(row.start, row.end),
        stamp: StampPlace { file: row.file, at },
        keyword: String::new(alloc),
        priority: String::new(alloc),
        words: String::new(alloc),
        is_done: false,
        tags: String::new(alloc),
        link: String::new(alloc),
        place: String::new(alloc),
        color: row.file,
    }
}

fn stand_of(kind: RowKind, number: u32, of: u32) -> Stand
    ensures value { result ≡ stand_of kind number of }
{
    match kind {
        RowKind::Listed | RowKind::OnDay => Stand::Own,
        RowKind::InRange => Stand::Range(number, of),
        RowKind::OnSchedule => Stand::Planned,
        RowKind::OnDeadline => Stand::Due,
        RowKind::LateSchedule | RowKind::LateDeadline => Stand::Late(number),
        RowKind::Warning => Stand::Soon(number),
    }
}

fn hours_of(start: Option<TimeOfDay>, end: Option<TimeOfDay>) -> Option<Hours>
    ensures value { result ≡ hours_of start end }
{
    match start {
        Some(start) => Some(Hours {
            start: start.minutes(),
            end: minutes_of(end),
        }),
        None => None,
    }
}

fn minutes_of(time: Option<TimeOfDay>) -> Option<u16>
    ensures value { result ≡ time }
{
    match time {
        Some(time) => Some(time.minutes()),
        None => None,
    }
}

// Puts the name of a row's file with its line and its heading's short id, if it has one, and where its link leads.
fn put_place<T: Text>(
    alloc: Global,
    shown: &mut PageRow,
    seen: &Linked<'_, '_, T>,
    row: &Row,
    place: Option<Place>,
) -> Result<(), AllocError>
    ensures same { OnOk result (shown_mark shown.new ≡ shown_mark shown.old) }
{
    let Some(place) = place else {
        return Ok(());
    };
    if row.file >= seen.files.count() {
        return Ok(());
    }
    let file = seen.files.file(row.file);
    let line = place.line;
    push_name(&mut shown.place, file.name())?;
    write!(shown.place, ":{line}")?;
    push_id(alloc, &mut shown.place, seen.ids, row)?;
    let path = link_path(file);
    shown.link = seen
        .wish
        .template
        .address(alloc, &LinkPlace { path, line })?;
    Ok(())
}

// Appends the short id of a row's heading behind a sign, if it has one.
fn push_id(alloc: Global, place: &mut String, ids: &RowIds, row: &Row) -> Result<(), AllocError> {
    let at = HeadingAt {
        file: row.file,
        heading: row.heading,
    };
    let mut id = Vec::new(alloc);
    ids.push(&mut id, at, 0)?;
    match str::from_utf8(id.as_slice()) {
        Ok(id) if !id.is_empty() => write!(place, "@{id}"),
        _ => Ok(()),
    }
}

// What a link to a file leads to: its path, or of standard input, which has none, the name that it was given.
fn link_path<T: Text>(file: &ReadFile<T>) -> &str {
    if file.path() == STANDARD_INPUT {
        file.name()
    } else {
        file.path()
    }
}

// Puts what a row's heading says, if there is one.
fn put_heading(
    alloc: Global,
    shown: &mut PageRow,
    titles: &KeptHeadings<'_, '_>,
    row: &Row,
) -> Result<(), Fault>
    ensures same { OnOk result (shown_mark shown.new ≡ shown_mark shown.old) }
    ensures memory { IsOkUnless result memory_fault }
{
    let Some(heading) = Heading::find(titles.inherits(), row.file, row.heading) else {
        return Ok(());
    };
    put_line(shown, &heading)?;
    let words = titles.words(alloc, row.file, row.heading)?;
    shown.words.push_str(text_of(words.as_slice()))?;
    let tags = heading.tags()?;
    put_tags(shown, &tags)?;
    Ok(())
}

// Puts the keyword and the priority of a heading.
fn put_line(shown: &mut PageRow, heading: &Heading<'_, '_>) -> Result<(), AllocError>
    ensures same { OnOk result (shown_mark shown.new ≡ shown_mark shown.old) }
{
    shown.is_done = heading.is_done();
    if let Some(keyword) = heading.keyword() {
        shown.keyword.push_str(text_of(keyword))?;
    }
    if let Some(priority) = heading.priority() {
        shown.priority.push_str(text_of(priority))?;
    }
    Ok(())
}

// A part of a file's text, which is UTF-8.
fn text_of(bytes: &[u8]) -> &str {
    str::from_utf8(bytes).unwrap_or("")
}

// Puts tags with a space between any two.
fn put_tags(shown: &mut PageRow, tags: &Texts) -> Result<(), AllocError>
    ensures same { OnOk result (shown_mark shown.new ≡ shown_mark shown.old) }
{
    for place in 0..tags.count() {
        if place > 0 {
            shown.tags.push(' ')?;
        }
        shown.tags.push_str(text_of(tags.get(place)))?;
    }
    Ok(())
}

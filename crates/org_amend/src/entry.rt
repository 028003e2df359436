//! The lines of a new heading: its own, its planning line and its body.
ghost use Rattle.std.specs.Prelude.{◌≡◌, ◌==◌, ◌+◌, ◌≤◌, IsOkUnless, length};
ghost use Rattle.std.specs.List.{list_all};
ghost use Rattle.org_amend.specs.Entries.{are_below, are_of_entry, entry_text, has_drawer, is_body_class, is_entry, is_section, joined, planning_line, says_no_more, whole_body, whole_of, with_body, with_date, with_dates};
ghost use Rattle.org_amend.specs.Heads.{GivesHead};
ghost use Rattle.org_amend.specs.Planning.{GivesLine, has_feed};
ghost use Rattle.org_base.specs.Codes.{memory_fault};
ghost use Rattle.org_base.specs.Results.{Gives, GivesText, Writes};
ghost use Rattle.org_base.specs.Spans.{bytes_in};
ghost use Rattle.org_class.specs.Classes.{section_classes};
ghost use Rattle.org_class.specs.Sections.{sections};

use crate::head::{NewHead, Unreadable, head_line};
use crate::place::{DrawerName, drawer_of};
use crate::planning::{dated_line, has_feed};
use crate::typed::TypedDate;
use org_base::{Fault, Meter, Span};
use org_class::{Class, begins_heading, classify, sections};
use org_settings::Settings;
use org_stamp::PlanningKeyword;
use org_text::{MAX_BYTES, Text, Whole};
use std::alloc::{AllocError, Global};

/// What the lines of a new heading are to say.
#[derive(Clone, Copy, Debug)]
pub struct NewEntry<'a> {
    /// Its heading line.
    pub head: NewHead<'a>,
    /// When it is scheduled.
    pub scheduled: Option<TypedDate>,
    /// When it is due.
    pub deadline: Option<TypedDate>,
    /// What stands below; it may be empty.
    pub body: &'a str,
}

/// The lines of a new heading, where `end` ends its own: the heading line of `head_line`, a planning line where a date is given,
/// and the body, whose last line ends. In a file with these settings they are read as one heading, and its body as text,
/// comments and blocks alone, with no drawer; else the answer is what would be read otherwise. Out of memory is the only refusal.
#[tactic(auto, unfolding(crate::specs::Entries::entry_text))]
pub fn entry_text(
    alloc: Global,
    settings: &Settings,
    entry: &NewEntry<'_>,
    end: &str,
) -> Result<Result<String, Unreadable>, Fault>
    requires end { length end.now ≤ 2 }
    ensures value { GivesHead result (entry_text settings.now entry.now end.now) }
    ensures memory { IsOkUnless result memory_fault }
{
    match head_line(alloc, settings, &entry.head, end)? {
        Ok(line) => with_dates(alloc, line.as_str(), entry, end),
        Err(why) => Ok(Err(why)),
    }
}

// A heading line with two dates and a body.
#[tactic(auto, unfolding(crate::specs::Entries::with_dates))]
fn with_dates(
    alloc: Global,
    line: &str,
    entry: &NewEntry<'_>,
    end: &str,
) -> Result<Result<String, Unreadable>, Fault>
    ensures value { GivesHead result (with_dates line.now entry.now end.now) }
    ensures memory { IsOkUnless result memory_fault }
{
    match planning_line(alloc, entry.scheduled, entry.deadline, end)? {
        Some(planning) => with_body(alloc, line, planning.as_str(), entry.body),
        None => Ok(Err(Unreadable::Dates)),
    }
}

// A heading line with its planning line and a body.
#[tactic(auto, unfolding(crate::specs::Entries::with_body))]
fn with_body(
    alloc: Global,
    line: &str,
    planning: &str,
    body: &str,
) -> Result<Result<String, Unreadable>, Fault>
    ensures value { GivesHead result (with_body line.now planning.now body.now) }
    ensures memory { IsOkUnless result memory_fault }
{
    let text = join_lines(alloc, line, planning, body)?;
    if is_entry(alloc, !planning.is_empty(), text.as_str())? {
        Ok(Ok(text))
    } else {
        Ok(Err(Unreadable::Body))
    }
}

// The lines of an entry, one after the other.
fn join_lines(alloc: Global, line: &str, planning: &str, body: &str) -> Result<String, AllocError>
    ensures value { GivesText result (joined line.now planning.now body.now) }
{
    let mut text = String::from_str(alloc, line)?;
    text.push_str(planning)?;
    push_body(&mut text, body)?;
    Ok(text)
}

// Puts a body at the end; its last line ends.
fn push_body(text: &mut String, body: &str) -> Result<(), AllocError>
    ensures ok { Writes result text.old text.new (whole_body body.now) }
{
    if body.is_empty() {
        return Ok(());
    }
    text.push_str(body)?;
    if !has_feed(body.as_bytes()) {
        text.push_str("\n")?;
    }
    Ok(())
}

// The planning line of two dates; nothing where there are none.
#[tactic(auto, unfolding(crate::specs::Entries::planning_line))]
fn planning_line(
    alloc: Global,
    scheduled: Option<TypedDate>,
    deadline: Option<TypedDate>,
    end: &str,
) -> Result<Option<String>, Fault>
    ensures value { GivesLine result (planning_line scheduled deadline end.now) }
    ensures memory { IsOkUnless result memory_fault }
{
    match with_date(alloc, PlanningKeyword::Deadline, deadline, "", end)? {
        Some(line) => with_date(
            alloc,
            PlanningKeyword::Scheduled,
            scheduled,
            line.as_str(),
            end,
        ),
        None => Ok(None),
    }
}

// A line with one more date under a keyword, if there is one.
fn with_date(
    alloc: Global,
    keyword: PlanningKeyword,
    date: Option<TypedDate>,
    line: &str,
    end: &str,
) -> Result<Option<String>, Fault>
    ensures value { GivesLine result (with_date keyword date line.now end.now) }
    ensures memory { IsOkUnless result memory_fault }
{
    match date {
        Some(date) => dated_line(alloc, keyword, date, line.as_bytes(), end),
        None => Ok(Some(String::from_str(alloc, line)?)),
    }
}

// Whether lines are those of one heading, and say no more than it, its planning and text.
#[tactic(auto, unfolding(crate::specs::Entries::is_entry))]
fn is_entry(alloc: Global, is_planned: bool, entry: &str) -> Result<bool, Fault>
    ensures value { Gives result (is_entry is_planned entry.now) }
    ensures memory { IsOkUnless result memory_fault }
{
    let bytes = entry.as_bytes();
    if entry.len() > MAX_BYTES || !begins_heading(bytes) || !has_feed(bytes) {
        return Ok(false);
    }
    let text = Whole::of(alloc, entry)?;
    is_section(alloc, is_planned, &text)
}

fn is_section(alloc: Global, is_planned: bool, text: &Whole) -> Result<bool, Fault>
    ensures value { Gives result (is_section is_planned text.now) }
    ensures memory { IsOkUnless result memory_fault }
{
    Ok(is_one_section(alloc, text)? && says_no_more(alloc, is_planned, text)?)
}

fn is_one_section(alloc: Global, text: &Whole) -> Result<bool, Fault>
    ensures value { Gives result (length (sections text.now) == 1) }
    ensures memory { IsOkUnless result memory_fault }
{
    Ok(sections(alloc, text)?.count() == 1)
}

// Whether the lines of a text have the classes of an entry's, and no drawer stands among them.
fn says_no_more(alloc: Global, is_planned: bool, text: &Whole) -> Result<bool, Fault>
    ensures value { Gives result (says_no_more is_planned text.now (section_classes text.now)) }
    ensures memory { IsOkUnless result memory_fault }
{
    let classes = classify(alloc, &mut Meter::new(), text, whole_of(text))?;
    let classes = classes.as_slice();
    Ok(are_of_entry(is_planned, classes) && !has_drawer(alloc, text, classes)?)
}

// The part that is all of a text.
pub(crate) fn whole_of(text: &Whole) -> Span
    ensures value { result ≡ whole_of text.now }
    ensures all { bytes_in text.now result ≡ text.now }
    ensures within { result.at + result.len ≤ length text.now }
{
    Span {
        at: 0,
        len: text.len() as u32,
    }
}

// Whether a drawer stands among the lines of a text.
fn has_drawer(alloc: Global, text: &Whole, classes: &[Class]) -> Result<bool, Fault>
    ensures value { Gives result (has_drawer text.now classes.now) }
    ensures memory { IsOkUnless result memory_fault }
{
    let drawer = drawer_of(alloc, text, whole_of(text), classes, DrawerName::Any)?;
    Ok(drawer.is_some())
}

fn are_of_entry(is_planned: bool, classes: &[Class]) -> bool
    ensures value { result ≡ are_of_entry is_planned classes.now }
{
    match classes {
        [Class::Heading, below @ ..] => are_below(is_planned, below),
        _ => false,
    }
}

fn are_below(is_planned: bool, classes: &[Class]) -> bool
    ensures value { result ≡ are_below is_planned classes.now }
{
    if !is_planned {
        return are_of_body(classes);
    }
    match classes {
        [Class::Planning, body @ ..] => are_of_body(body),
        _ => false,
    }
}

fn are_of_body(classes: &[Class]) -> bool
    ensures value { result ≡ list_all is_body_class classes.now }
{
    classes.iter().all(|class| is_body_class(*class))
}

fn is_body_class(class: Class) -> bool
    ensures value { result ≡ is_body_class class }
{
    matches!(
        class,
        Class::Comment | Class::BlockOpen | Class::Verbatim | Class::BlockEnd | Class::Plain
    )
}

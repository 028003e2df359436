//! Properties of a heading that its ancestors and its file may have for it.

use crate::heading::level_of;
use crate::layout::drawer_lines;
use crate::words::{is_blank, property_of};
use org_class::begins_heading;
use org_settings::Settings;
use org_stamp::is_planning;
use std::alloc::{AllocError, Global};
use std::str;

// A heading above others, and the part of the text that is its own value.
#[derive(Clone, Copy)]
struct Scope {
    level: usize,
    value: Option<Part>,
}

// A part of a text.
#[derive(Clone, Copy)]
struct Part {
    from: usize,
    to: usize,
}

// The value that a heading on a line of a text has of a property: its own, else that of the nearest ancestor that has one, else
// that of the file's drawer, else that of its settings.
pub(crate) fn value_for<'a>(
    alloc: Global,
    text: &'a str,
    line: u64,
    settings: &'a Settings,
    name: &str,
) -> Result<Option<&'a str>, AllocError> {
    let scopes = scopes_to(alloc, text, line, name)?;
    for scope in scopes.iter().rev() {
        if let Some(part) = scope.value {
            return Ok(Some(text.get(part.from..part.to).unwrap_or("")));
        }
    }
    match file_value(text, name) {
        Some(part) => Ok(Some(text.get(part.from..part.to).unwrap_or(""))),
        None => Ok(settings_value(settings, name)),
    }
}

fn settings_value<'a>(settings: &'a Settings, name: &str) -> Option<&'a str> {
    match settings.property(name.as_bytes()) {
        Some(value) => str::from_utf8(value).ok(),
        None => None,
    }
}

// The heading of a line, and its ancestors before it, the highest first.
fn scopes_to(alloc: Global, text: &str, line: u64, name: &str) -> Result<Vec<Scope>, AllocError> {
    let mut scopes: Vec<Scope> = Vec::new(alloc);
    let mut at = 0usize;
    let mut number = 0u64;
    for one in text.split_inclusive('\n') {
        number = number.saturating_add(1);
        if number > line {
            return Ok(scopes);
        }
        if begins_heading(one.as_bytes()) {
            push_scope(&mut scopes, text, at, level_of(one), name)?;
        }
        at = at.saturating_add(one.len());
    }
    Ok(scopes)
}

// Puts the heading that begins at a place behind those that are above it; the others go.
fn push_scope(
    scopes: &mut Vec<Scope>,
    text: &str,
    at: usize,
    level: usize,
    name: &str,
) -> Result<(), AllocError> {
    let above = scopes
        .iter()
        .take_while(|scope| scope.level < level)
        .count();
    scopes.truncate(above);
    let value = own_value(text, at, name);
    scopes.push(Scope { level, value })?;
    Ok(())
}

// The part that the heading at a place has of a property of its own.
fn own_value(text: &str, at: usize, name: &str) -> Option<Part> {
    let section = text.get(at..)?;
    let mut from = at;
    let mut place = 0usize;
    for line in section.split_inclusive('\n') {
        let is_front = place == 0 || (place == 1 && is_planning(line.as_bytes()));
        if !is_front {
            return drawer_value(text, from, name);
        }
        place = place.saturating_add(1);
        from = from.saturating_add(line.len());
    }
    None
}

// The part that the file's own drawer has of a property: it stands before the first heading, behind comments and blank lines.
fn file_value(text: &str, name: &str) -> Option<Part> {
    let mut from = 0usize;
    for line in text.split_inclusive('\n') {
        if !is_blank(line) && !is_comment(line) {
            return drawer_value(text, from, name);
        }
        from = from.saturating_add(line.len());
    }
    None
}

// Whether the first word of a line is `#` alone.
fn is_comment(line: &str) -> bool {
    line.split_whitespace().next() == Some("#")
}

// The part that the drawer that begins at a place has of a property; none where no drawer begins there.
fn drawer_value(text: &str, at: usize, name: &str) -> Option<Part> {
    let drawer = text.get(at..)?;
    let mut found = None;
    let mut from = at;
    let mut place = 0usize;
    for line in drawer.split_inclusive('\n') {
        match drawer_line(line, place) {
            DrawerLine::Last => return found,
            DrawerLine::None => return None,
            DrawerLine::Inner => {}
        }
        if found.is_none() {
            found = part_of(line, from, name);
        }
        place = place.saturating_add(1);
        from = from.saturating_add(line.len());
    }
    None
}

// What a line is of a property drawer.
#[derive(Clone, Copy, PartialEq, Eq)]
enum DrawerLine {
    Inner,
    Last,
    None,
}

fn drawer_line(line: &str, place: usize) -> DrawerLine {
    if place == 0 {
        return if drawer_lines(&[line, ":END:"], 0) > 0 {
            DrawerLine::Inner
        } else {
            DrawerLine::None
        };
    }
    match drawer_lines(&[":PROPERTIES:", line, ":END:"], 0) {
        0 => DrawerLine::None,
        2 => DrawerLine::Last,
        _ => DrawerLine::Inner,
    }
}

// The part of a line, which begins at a place of a text, that it gives to a property.
fn part_of(line: &str, from: usize, name: &str) -> Option<Part> {
    let value = property_of(line, name)?;
    let end = line.trim_end().len();
    let to = from.saturating_add(end);
    Some(Part {
        from: to.saturating_sub(value.len()),
        to,
    })
}

//! Where a log line goes in a section.

use crate::layout::Layout;
use crate::words::{indent_of, is_blank, is_drawer_line, line_at};
use org_class::{Class, is_drawer_end};

// Where a log line goes: before which line of the section, how far in, and whether in a drawer that is made for it.
#[derive(Clone, Copy)]
pub(crate) struct LogPlace<'a> {
    pub(crate) before: usize,
    pub(crate) indent: &'a str,
    pub(crate) is_new_drawer: bool,
}

// A section's lines, with their classes and its front.
#[derive(Clone, Copy)]
pub(crate) struct SectionLines<'a, 'b> {
    pub(crate) lines: &'b [&'a str],
    pub(crate) classes: &'b [Class],
    pub(crate) layout: Layout,
}

impl<'a, 'b> SectionLines<'a, 'b> {
    // The line at a place; empty where there is none.
    fn line(&self, place: usize) -> &'a str {
        line_at(self.lines, place)
    }

    // Whether the line at a place is plain text.
    fn is_plain(&self, place: usize) -> bool {
        matches!(self.classes.get(place), Some(Class::Plain))
    }

    // Where a log line goes, in a drawer of a name or, where that is empty, in the text.
    pub(crate) fn log_place(&self, drawer: &str, is_newest_first: bool) -> LogPlace<'a> {
        if drawer.is_empty() {
            return self.text_place(is_newest_first);
        }
        match self.drawer_start(drawer) {
            Some(start) if is_newest_first => LogPlace {
                before: start.saturating_add(1),
                indent: indent_of(self.line(start)),
                is_new_drawer: false,
            },
            Some(start) => self.drawer_last(start),
            None => LogPlace {
                before: self.layout.end(),
                indent: "",
                is_new_drawer: true,
            },
        }
    }

    // The line that opens the first drawer of a name that ends.
    fn drawer_start(&self, name: &str) -> Option<usize> {
        for place in self.layout.end()..self.lines.len() {
            let opens = self.is_plain(place) && is_drawer_line(self.line(place), name);
            if opens && self.drawer_end(place).is_some() {
                return Some(place);
            }
            if opens {
                return None;
            }
        }
        None
    }

    // The line that ends the drawer which a line opens.
    fn drawer_end(&self, start: usize) -> Option<usize> {
        for place in start.saturating_add(1)..self.lines.len() {
            if is_drawer_end(self.line(place).as_bytes()) {
                return Some(place);
            }
        }
        None
    }

    // Behind all lines of a drawer.
    fn drawer_last(&self, start: usize) -> LogPlace<'a> {
        let end = self.drawer_end(start).unwrap_or(start);
        LogPlace {
            before: end,
            indent: self.indent_behind(start, end),
            is_new_drawer: false,
        }
    }

    // How far in a line stands that comes last of those between two.
    fn indent_behind(&self, start: usize, end: usize) -> &'a str {
        let mut indent = indent_of(self.line(start));
        for place in start.saturating_add(1)..end {
            let line = self.line(place);
            if !is_blank(line) && !is_body(line, indent) {
                indent = indent_of(line);
            }
        }
        indent
    }

    // In the text.
    fn text_place(&self, is_newest_first: bool) -> LogPlace<'a> {
        let front = self.layout.end();
        let indent = self.front_indent();
        let first = self.behind_blank(front);
        let last = if is_newest_first {
            first
        } else {
            self.behind_states(first)
        };
        if is_newest_first {
            return LogPlace {
                before: first,
                indent,
                is_new_drawer: false,
            };
        }
        LogPlace {
            before: self.before_blank(front, last),
            indent: if last > first {
                indent_of(self.line(first))
            } else {
                indent
            },
            is_new_drawer: false,
        }
    }

    // How far in the last part of the front stands; a heading counts as not at all.
    fn front_indent(&self) -> &'a str {
        if self.layout.drawer > 0 {
            indent_of(self.line(self.layout.drawer_at()))
        } else if self.layout.planning > 0 {
            indent_of(self.line(1))
        } else {
            ""
        }
    }

    // The first line from a place on that isn't blank.
    fn behind_blank(&self, from: usize) -> usize {
        for place in from..self.lines.len() {
            if !is_blank(self.line(place)) {
                return place;
            }
        }
        self.lines.len()
    }

    // The place behind the last line before a place, from another on, that isn't blank.
    fn before_blank(&self, from: usize, to: usize) -> usize {
        let mut last = from;
        for place in from..to {
            if !is_blank(self.line(place)) {
                last = place.saturating_add(1);
            }
        }
        last
    }

    // The place behind state lines and their notes that begin at a place.
    fn behind_states(&self, from: usize) -> usize {
        let indent = indent_of(self.line(from));
        let mut is_state = false;
        for place in from..self.lines.len() {
            let line = self.line(place);
            if is_state_line(line) && indent_of(line).len() == indent.len() {
                is_state = true;
            } else if !is_state || !(is_blank(line) || is_body(line, indent)) {
                return place;
            }
        }
        self.lines.len()
    }
}

// Whether a line stands further in than an item of a list.
fn is_body(line: &str, indent: &str) -> bool {
    indent_of(line).len() > indent.len()
}

// Whether a line is a state line of a log.
fn is_state_line(line: &str) -> bool {
    let Some(item) = line.trim().strip_prefix("- ") else {
        return false;
    };
    let mut words = item.split_whitespace();
    if words.next() != Some("State") {
        return false;
    }
    item.ends_with(']') || item.ends_with("] \\\\")
}

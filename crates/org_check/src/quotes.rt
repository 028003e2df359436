//! Places of a line that lie in links, targets or pieces of code.

use crate::unread_lines::past_spaces;
use memchr::memrchr;
use org_base::words::{first_word, trim_end};
use org_class::Class;
use org_stamp::planning_word;

// The marks of code in a line, up to a place that only goes on, and what is known of the whole line.
#[derive(Clone, Copy)]
pub(crate) struct Quotes {
    class: Class,
    // Up to where the line was looked at.
    upto: usize,
    // The last marks before it.
    equals: Option<usize>,
    tilde: Option<usize>,
    whole: Option<Whole>,
}

// What is known of a whole line, which is looked at once for it.
#[derive(Clone, Copy)]
pub(crate) struct Whole {
    // The last marks of code.
    equals: Option<usize>,
    tilde: Option<usize>,
    // Whether it is a line of fixed width.
    is_fixed_width: bool,
    // Whether inactive stamps say something in it.
    pub counts_inactive: bool,
    // Where the white space at its end begins.
    pub end: usize,
}

impl Quotes {
    // Nothing of a line of this class was looked at.
    pub(crate) fn new(class: Class) -> Quotes {
        Quotes {
            class,
            upto: 0,
            equals: None,
            tilde: None,
            whole: None,
        }
    }

    // Whether what stands at a place, no earlier than that of the call before, is part of a link, a target, a piece of code or
    // an example.
    pub(crate) fn holds(&mut self, line: &[u8], at: usize) -> bool {
        let whole = self.whole(line);
        if whole.is_fixed_width {
            return true;
        }
        if at == 0 || at >= line.len() {
            return false;
        }
        self.go_to(line, at);
        let before = line[at - 1];
        let bracket = line[at];
        before == bracket
            || before == b']' && bracket == b'['
            || is_between(line, self.equals, at, whole.equals)
            || is_between(line, self.tilde, at, whole.tilde)
    }

    // Looks at the line up to the place.
    fn go_to(&mut self, line: &[u8], at: usize) {
        if at <= self.upto || at > line.len() {
            return;
        }
        let passed = &line[self.upto..at];
        self.equals = later(self.equals, self.upto, memrchr(b'=', passed));
        self.tilde = later(self.tilde, self.upto, memrchr(b'~', passed));
        self.upto = at;
    }

    // What is known of the whole line.
    pub(crate) fn whole(&mut self, line: &[u8]) -> Whole {
        if let Some(whole) = self.whole {
            return whole;
        }
        let whole = Whole {
            equals: memrchr(b'=', line),
            tilde: memrchr(b'~', line),
            is_fixed_width: is_fixed_width(line),
            counts_inactive: counts_inactive(self.class, line),
            end: trim_end(line).len(),
        };
        self.whole = Some(whole);
        whole
    }
}

// The later of two places, the second counted from another place.
fn later(first: Option<usize>, from: usize, second: Option<usize>) -> Option<usize> {
    match second {
        Some(place) => Some(from.saturating_add(place)),
        None => first,
    }
}

fn is_between(line: &[u8], open: Option<usize>, at: usize, last: Option<usize>) -> bool {
    match (open, last) {
        (Some(open), Some(last)) => at < last && begins_word(line, open),
        _ => false,
    }
}

// Whether no letter stands before the place.
fn begins_word(text: &[u8], at: usize) -> bool {
    at == 0
        || at > text.len()
        || matches!(
            text[at - 1],
            b' ' | b'\t' | b'(' | b'{' | b'"' | b'\'' | b'-'
        )
}

// Whether the line is of an example of fixed width: its first word is `:` alone.
pub(crate) fn is_fixed_width(line: &[u8]) -> bool {
    first_word(line) == b":".as_slice()
}

// Whether inactive stamps say something in a line of the class.
pub(crate) fn counts_inactive(class: Class, line: &[u8]) -> bool {
    let text = past_spaces(line);
    matches!(class, Class::Planning | Class::Clock)
        || text.starts_with(b"CLOCK:")
        || planning_word(text).is_some()
}

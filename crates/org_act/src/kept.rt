//! What stays of a text where one section of it is written anew.
ghost use Rattle.std.specs.Prelude.{◌≡◌, ◌≤◌, length};
ghost use Rattle.org_act.specs.Kept.{behind_section, keeps_from, keeps_others, keeps_section, section_end};

use crate::lines::{first_line, heading_at, subtree_end};
use org_base::words::trim_end;
use org_class::begins_heading;

// Whether a text has all that another one has before the heading on a line, that line's own words, and all that the other one has
// from the next heading on.
pub(crate) fn keeps_others(old: &[u8], new: &[u8], line: u64) -> bool
    ensures value { result ≡ keeps_others old.now line new.now }
{
    match heading_at(old, line) {
        Some(at) => keeps_from(old, at, new),
        None => false,
    }
}

// The same of the heading at a place.
fn keeps_from(old: &[u8], at: usize, new: &[u8]) -> bool
    requires within { at ≤ length old.now }
    ensures value { result ≡ keeps_from old.now at new.now }
{
    if new.len() < at {
        return false;
    }
    new[..at] == old[..at] && keeps_section(&old[at..], &new[at..])
}

// Whether two texts begin with the same heading line, but for white space at its end, and have the same bytes behind their first
// sections.
fn keeps_section(old: &[u8], new: &[u8]) -> bool
    ensures value { result ≡ keeps_section old.now new.now }
{
    let is_same = trim_end(first_line(new)) == trim_end(first_line(old));
    begins_heading(new) && (is_same && behind_section(new) == behind_section(old))
}

// What stands behind the first section of a text that begins with a heading.
fn behind_section(text: &[u8]) -> &[u8]
    ensures value { result.now ≡ behind_section text.now }
{
    &text[section_end(text)..]
}

// Where the first section ends of a text that begins with a heading.
pub(crate) fn section_end(text: &[u8]) -> usize
    ensures value { result ≡ section_end text.now }
    ensures within { result ≤ length text.now }
{
    subtree_end(text, first_line(text).len(), text.len())
}

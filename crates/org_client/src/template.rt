//! Lines with names of members in braces.
ghost use Rattle.std.specs.Prelude.{◌≡◌};
ghost use Rattle.org_base.specs.Results.{Gives};
ghost use Rattle.org_client.specs.Objects.{member_value};

use crate::id_member::id_text;
use crate::members::Members;
use crate::one_line::OneLine;
use crate::row_members::{kind_of, put_members};
use crate::rows::{LoadReport, ViewRow};
use org_base::Fault;
use org_text::Text;
use std::alloc::Global;

/// The names of the members that rows have, but for `properties`.
pub const MEMBERS: [&str; 46] = [
    "kind",
    "day",
    "start",
    "end",
    "days",
    "day_of",
    "days_in",
    "file",
    "line",
    "byte",
    "stamp",
    "stamp_line",
    "stamp_column",
    "category",
    "level",
    "keyword",
    "done",
    "priority",
    "title",
    "words",
    "tags",
    "scheduled",
    "deadline",
    "closed",
    "effort",
    "path",
    "from",
    "to",
    "clock",
    "minutes",
    "group",
    "state",
    "state_before",
    "open_below",
    "done_below",
    "next_below",
    "next_date",
    "effort_left",
    "clocked",
    "stuck",
    "blocked",
    "repeater",
    "last_done",
    "graph",
    "id",
    "text",
];

/// A line in which a name of a member in braces stands for its value; `{{` and `}}` stand for braces.
#[derive(Clone, Copy, Debug, PartialEq, Eq)]
pub struct Template<'a> {
    pub(crate) text: &'a str,
}

/// A part of a template.
#[derive(Clone, Copy, Debug)]
pub enum Part<'a> {
    /// Text that stands as it is.
    Text(&'a str),
    /// The name of a member.
    Name(&'a str),
    /// A brace that is alone, which no template has that was read.
    Brace,
}

impl<'a> Template<'a> {
    /// The template that a text spells; none where it has a brace alone, or a name that no member has.
    pub fn read(text: &'a str) -> Option<Template<'a>> {
        let mut rest = text;
        for _part in 0..text.len() {
            if rest.is_empty() {
                break;
            }
            let (part, behind) = first_part(rest);
            if !is_known(part) {
                return None;
            }
            rest = behind;
        }
        Some(Template { text })
    }

    /// Its text.
    pub fn text(&self) -> &'a str {
        self.text
    }

    /// Whether a member is named.
    pub fn names(&self, member: &str) -> bool {
        let mut rest = self.text;
        for _part in 0..self.text.len() {
            if rest.is_empty() {
                return false;
            }
            let (part, behind) = first_part(rest);
            if is_named(part, member) {
                return true;
            }
            rest = behind;
        }
        false
    }
}

fn is_named(part: Part<'_>, member: &str) -> bool {
    match part {
        Part::Name(name) => name == member,
        Part::Text(_) | Part::Brace => false,
    }
}

fn is_known(part: Part<'_>) -> bool {
    match part {
        Part::Text(_) => true,
        Part::Name(name) => MEMBERS.iter().any(|member| *member == name),
        Part::Brace => false,
    }
}

/// The first part of a template's text, and what stands behind it; of an empty text it is empty.
pub fn first_part(text: &str) -> (Part<'_>, &str) {
    if let Some(behind) = text.strip_prefix("{{") {
        return (Part::Text("{"), behind);
    }
    if let Some(behind) = text.strip_prefix("}}") {
        return (Part::Text("}"), behind);
    }
    if let Some(named) = text.strip_prefix('{') {
        return match named.split_once('}') {
            Some((name, behind)) => (Part::Name(name), behind),
            None => (Part::Brace, ""),
        };
    }
    if text.starts_with('}') {
        return (Part::Brace, "");
    }
    let end = text
        .find(|c: char| c == '{' || c == '}')
        .unwrap_or(text.len());
    let (words, behind) = text.split_at(end);
    (Part::Text(words), behind)
}

/// The line of a row after a template: what the row lacks is empty, the items of `tags` have colons between them and those
/// of `path` slashes, and control characters stand so that they can be seen.
pub fn template_line<T: Text>(
    alloc: Global,
    files: &LoadReport<'_, '_, T>,
    row: &ViewRow,
    text: &[u8],
    template: &Template<'_>,
) -> Result<OneLine, Fault> {
    let mut line = OneLine::new(alloc);
    let mut rest = template.text;
    for _part in 0..template.text.len() {
        if rest.is_empty() {
            break;
        }
        let (part, behind) = first_part(rest);
        match part {
            Part::Text(words) => line.push_seen(words.as_bytes())?,
            Part::Name(name) => {
                let value = value_of(alloc, files, row, text, name)?;
                line.append(&value)?;
            }
            Part::Brace => {}
        }
        rest = behind;
    }
    Ok(line)
}

// The value of a row's member; nothing where the row lacks it.
pub(crate) fn value_of<T: Text>(
    alloc: Global,
    files: &LoadReport<'_, '_, T>,
    row: &ViewRow,
    text: &[u8],
    name: &str,
) -> Result<OneLine, Fault>
    ensures value { Gives result (member_value files.now row.now text.now name.now) }
{
    let mut value = Members::of_name(alloc, name);
    value.text("kind", kind_of(row).as_bytes())?;
    put_members(alloc, &mut value, files, row)?;
    let id = id_text(alloc, files, row)?;
    value.text("id", id.as_slice())?;
    value.text("text", text)?;
    Ok(value.into_line())
}

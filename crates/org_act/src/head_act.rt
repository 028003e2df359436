//! Changing the heading line of a heading of a file.
ghost use Rattle.std.specs.Prelude.{◌≡◌, ◌+◌, ◌≤◌, length, string_bytes};
ghost use Rattle.org_act.specs.Changes.{Makes};
ghost use Rattle.org_act.specs.HeadActs.{changed_of, changed_whole, put_line};

use crate::act::{Act, Refusal};
use crate::acts::HeadingAct;
use crate::completion::file_of;
use crate::lines::{first_line, heading_at};
use org_amend::{HeadChange, changed_head};
use org_base::{Code, Fault};
use org_store::{File, OwnedChange};
use org_text::{MAX_BYTES, Whole};
use std::alloc::Global;

/// The heading on a line gets other tags or another priority, or loses its keyword, as `changed_head` of `org_amend` says.
///
/// Its line alone changes. It is refused with `Unreadable` where the new line would be read as something else.
#[derive(Clone, Copy, Debug)]
pub struct HeadAct<'a> {
    /// The line. Lines count from 1.
    pub line: u64,
    /// What is changed.
    pub change: HeadChange<'a>,
    /// What is read after the text, as a setting line that names keywords, and never written. It may be empty.
    pub behind: &'a str,
}

impl<'a> Act for HeadAct<'a> {
    ghost use Rattle.org_act.specs.HeadActs.{changed_text};

    ghost amended = { changed_text };

    fn plan(&self, alloc: Global, text: &str) -> Result<OwnedChange, Refusal> {
        match file_of(alloc, text, self.behind) {
            Ok(file) => plan_in(alloc, &file, text, self),
            Err(fault) => Err(Refusal::Fault(fault)),
        }
    }
}

impl<'a> HeadingAct for HeadAct<'a> {
    ghost use Rattle.org_act.specs.HeadActs.{changed_on};

    ghost amended_on = { changed_on };

    fn plan_on(&self, alloc: Global, text: &str, line: u64) -> Result<OwnedChange, Refusal> {
        let act = HeadAct {
            line,
            change: self.change,
            behind: self.behind,
        };
        act.plan(alloc, text)
    }
}

// What the act changes of a text that is read as the first part of a file's.
fn plan_in(
    alloc: Global,
    file: &File<Whole>,
    text: &str,
    act: &HeadAct<'_>,
) -> Result<OwnedChange, Refusal>
    ensures value { Makes result text.now (changed_whole act.now text.now file.now.text) }
{
    let bytes = text.as_bytes();
    match heading_at(bytes, act.line) {
        Some(at) => plan_at(alloc, file, bytes, &act.change, at),
        None => Err(Refusal::Fault(Fault::Plain(Code::Heading))),
    }
}

// The same where the heading begins at a place.
fn plan_at(
    alloc: Global,
    file: &File<Whole>,
    text: &[u8],
    change: &HeadChange<'_>,
    at: usize,
) -> Result<OwnedChange, Refusal>
    requires within { at ≤ length text.now }
    ensures value { Makes result text.now (changed_of change.now text.now file.now.text at) }
{
    let line = first_line(&text[at..]);
    match changed_head(alloc, file.settings(), line, change)? {
        Ok(new) => change_line(text, at, line.len(), new),
        Err(why) => Err(Refusal::Unreadable(why)),
    }
}

// The change that puts a line at a place, where one of that length stands.
fn change_line(text: &[u8], at: usize, len: usize, new: String) -> Result<OwnedChange, Refusal>
    requires within { at + len ≤ length text.now }
    ensures value { Makes result text.now (put_line text.now at len (string_bytes new)) }
{
    if text.len() - len + new.len() > MAX_BYTES {
        return Err(Refusal::Fault(Fault::Plain(Code::Size)));
    }
    Ok(OwnedChange {
        at: at as u64,
        del: len as u64,
        ins: new,
    })
}

//! Giving a heading of a file a property, or taking one away.
ghost use Rattle.std.specs.Prelude.{◌+◌, ◌≤◌, Some, length};
ghost use Rattle.org_act.specs.Changes.{Makes};
ghost use Rattle.org_act.specs.PropertyActs.{given_below, given_there, with_drawer};
ghost use Rattle.org_amend.specs.DrawerPuts.{put_of};

use crate::act::{Act, Refusal};
use crate::acts::HeadingAct;
use crate::lines::{first_line, heading_at, line_end};
use org_amend::{DrawerPut, PropertyChange, Unreadable, changed_drawer};
use org_base::{Code, Fault};
use org_stamp::is_planning;
use org_store::OwnedChange;
use org_text::MAX_BYTES;
use std::alloc::Global;

/// The heading on a line gets a value of a property, or loses a property, as `changed_drawer` of `org_amend` says.
///
/// Its property drawer alone changes. It is refused with `Unreadable` where the new line would be read as something else.
#[derive(Clone, Copy, Debug)]
pub struct PropertyAct<'a> {
    /// The line. Lines count from 1.
    pub line: u64,
    /// The property.
    pub change: PropertyChange<'a>,
}

impl<'a> Act for PropertyAct<'a> {
    ghost use Rattle.org_act.specs.PropertyActs.{given_text};

    ghost amended = { given_text };

    fn plan(&self, alloc: Global, text: &str) -> Result<OwnedChange, Refusal> {
        match heading_at(text.as_bytes(), self.line) {
            Some(at) => plan_at(alloc, text.as_bytes(), &self.change, at),
            None => Err(Refusal::Fault(Fault::Plain(Code::Heading))),
        }
    }
}

impl<'a> HeadingAct for PropertyAct<'a> {
    ghost use Rattle.org_act.specs.PropertyActs.{given_on};

    ghost amended_on = { given_on };

    fn plan_on(&self, alloc: Global, text: &str, line: u64) -> Result<OwnedChange, Refusal> {
        let act = PropertyAct {
            line,
            change: self.change,
        };
        act.plan(alloc, text)
    }
}

// What the act changes of a text where the heading begins at a place.
fn plan_at(
    alloc: Global,
    text: &[u8],
    change: &PropertyChange<'_>,
    at: usize,
) -> Result<OwnedChange, Refusal>
    requires within { at ≤ length text.now }
    ensures value { Makes result text.now (given_there change.now text.now at) }
{
    let heading = first_line(&text[at..]);
    let below = at + heading.len();
    let line = first_line(&text[below..]);
    if is_planning(line) {
        plan_below(alloc, text, change, below + line.len(), line_end(line))
    } else {
        plan_below(alloc, text, change, below, line_end(heading))
    }
}

// The same where the drawer stands at a place, or is put there behind a line that ends so.
fn plan_below(
    alloc: Global,
    text: &[u8],
    change: &PropertyChange<'_>,
    at: usize,
    end: &str,
) -> Result<OwnedChange, Refusal>
    requires within { at ≤ length text.now }
    ensures value { Makes result text.now (given_below change.now text.now at end.now) }
{
    match changed_drawer(alloc, &text[at..], change, end)? {
        Some(put) => change_drawer(text, at, put),
        None => Err(Refusal::Unreadable(Unreadable::Property)),
    }
}

// The change that puts a drawer at a place.
fn change_drawer(text: &[u8], at: usize, put: DrawerPut) -> Result<OwnedChange, Refusal>
    requires within { at + put.deleted ≤ length text.now }
    ensures value { Makes result text.now (with_drawer text.now at (Some (put_of put))) }
{
    let DrawerPut { deleted, inserted } = put;
    if text.len() - deleted + inserted.len() > MAX_BYTES {
        return Err(Refusal::Fault(Fault::Plain(Code::Size)));
    }
    Ok(OwnedChange {
        at: at as u64,
        del: deleted as u64,
        ins: inserted,
    })
}

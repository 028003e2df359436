//! Planning a heading of a file.
ghost use Rattle.std.specs.Prelude.{◌≡◌, ◌+◌, ◌≤◌, IfOk, IfSome, IsOkUnless, length, string_bytes};
ghost use Rattle.org_act.specs.Changes.{Makes};
ghost use Rattle.org_act.specs.Planning.{GivesPut, ReplacesNoMore, act_put, dated_put, planned_at, put_line, put_of, puts_of, under_heading, undated_put, with_put};
ghost use Rattle.org_base.specs.Codes.{memory_fault};
ghost use Rattle.org_base.specs.Results.{GivesText};

use crate::act::{Act, Refusal};
use crate::acts::HeadingAct;
use crate::lines::{first_line, has_feed, heading_at, line_end};
use org_amend::{TypedDate, dated_line, undated_line};
use org_base::{Code, Fault};
use org_stamp::{PlanningKeyword, is_planning};
use org_store::OwnedChange;
use org_text::MAX_BYTES;
use std::alloc::{AllocError, Global};

/// The heading on a line gets a date under a planning keyword, or loses the stamps there.
///
/// The stamp of the keyword in its planning line is changed where it stands; a keyword that isn't there comes before all
/// others, and a planning line that isn't there goes directly under the heading. Nothing else of the text changes. It is refused
/// with `Misread` where what is written would be read as something else.
#[derive(Clone, Copy, Debug)]
pub struct Planning {
    /// The line. Lines count from 1.
    pub line: u64,
    /// The keyword.
    pub keyword: PlanningKeyword,
    /// The date; without one the stamps go.
    pub date: Option<TypedDate>,
}

impl Act for Planning {
    ghost use Rattle.org_act.specs.Planning.{planned_text};

    ghost amended = { planned_text };

    fn plan(&self, alloc: Global, text: &str) -> Result<OwnedChange, Refusal> {
        match heading_at(text.as_bytes(), self.line) {
            Some(at) => plan_at(alloc, text.as_bytes(), self, at),
            None => Err(Refusal::Fault(Fault::Plain(Code::Heading))),
        }
    }
}

impl HeadingAct for Planning {
    ghost use Rattle.org_act.specs.Planning.{planned_on};

    ghost amended_on = { planned_on };

    fn plan_on(&self, alloc: Global, text: &str, line: u64) -> Result<OwnedChange, Refusal> {
        let act = Planning {
            line,
            keyword: self.keyword,
            date: self.date,
        };
        act.plan(alloc, text)
    }
}

// What planning the heading that begins at a place changes of a text.
fn plan_at(alloc: Global, text: &[u8], act: &Planning, at: usize) -> Result<OwnedChange, Refusal>
    requires within { at ≤ length text.now }
    ensures value { Makes result text.now (planned_at act.now text.now at) }
{
    let heading = first_line(&text[at..]);
    let below = at + heading.len();
    let line = first_line(&text[below..]);
    let next = first_line(&text[below + line.len()..]);
    let put = planning_put(alloc, act, heading, line, next)?;
    change_of(text, below, put)
}

// What is put in the place of so many bytes.
#[derive(Drop)]
struct Put {
    deleted: usize,
    inserted: String,
}

// The change that puts something at a place of a text.
fn change_of(text: &[u8], at: usize, put: Option<Put>) -> Result<OwnedChange, Refusal>
    requires within { IfSome put (λ p. at + p.deleted ≤ length text.now) }
    ensures value { Makes result text.now (with_put text.now at (puts_of put)) }
{
    let Some(Put { deleted, inserted }) = put else {
        return Err(Refusal::Misread);
    };
    if text.len() - deleted + inserted.len() > MAX_BYTES {
        return Err(Refusal::Fault(Fault::Plain(Code::Size)));
    }
    Ok(OwnedChange {
        at: at as u64,
        del: deleted as u64,
        ins: inserted,
    })
}

// What an act puts under a heading line, of the line there and the next one.
fn planning_put(
    alloc: Global,
    act: &Planning,
    heading: &[u8],
    line: &[u8],
    next: &[u8],
) -> Result<Option<Put>, Fault>
    ensures value { GivesPut result (act_put act.now heading.now line.now next.now) }
    ensures within { ReplacesNoMore result line.now }
    ensures memory { IsOkUnless result memory_fault }
{
    match act.date {
        Some(date) => dated_put(alloc, act.keyword, date, heading, line),
        None => Ok(undated_put(alloc, act.keyword, line, next)?),
    }
}

fn dated_put(
    alloc: Global,
    keyword: PlanningKeyword,
    date: TypedDate,
    heading: &[u8],
    line: &[u8],
) -> Result<Option<Put>, Fault>
    ensures value { GivesPut result (dated_put keyword date heading.now line.now) }
    ensures within { ReplacesNoMore result line.now }
    ensures memory { IsOkUnless result memory_fault }
{
    match dated_line(alloc, keyword, date, line, line_end(heading))? {
        Some(new) => Ok(Some(put_line(alloc, heading, line, new)?)),
        None => Ok(None),
    }
}

fn undated_put(
    alloc: Global,
    keyword: PlanningKeyword,
    line: &[u8],
    next: &[u8],
) -> Result<Option<Put>, AllocError>
    ensures value { GivesPut result (undated_put keyword line.now next.now) }
    ensures within { ReplacesNoMore result line.now }
{
    if !is_planning(line) {
        return Ok(Some(Put {
            deleted: 0,
            inserted: String::new(alloc),
        }));
    }
    match undated_line(alloc, keyword, line, next)? {
        Some(left) => Ok(Some(Put {
            deleted: line.len(),
            inserted: left,
        })),
        None => Ok(None),
    }
}

// A line in the place of the planning line, or else before what stands under the heading.
fn put_line(alloc: Global, heading: &[u8], line: &[u8], new: String) -> Result<Put, AllocError>
    ensures value { IfOk result (λ put. put_of put ≡ put_line heading.now line.now (string_bytes new)) }
    ensures within { IfOk result (λ put. put.deleted ≤ length line.now) }
{
    if is_planning(line) {
        return Ok(Put {
            deleted: line.len(),
            inserted: new,
        });
    }
    Ok(Put {
        deleted: 0,
        inserted: under_heading(alloc, heading, new)?,
    })
}

// A line under a heading.
fn under_heading(alloc: Global, heading: &[u8], line: String) -> Result<String, AllocError>
    ensures value { GivesText result (under_heading heading.now (string_bytes line)) }
{
    if has_feed(heading) {
        return Ok(line);
    }
    let mut text = String::from_str(alloc, "\n")?;
    text.push_str(line.as_str())?;
    Ok(text)
}

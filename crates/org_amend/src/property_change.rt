//! The property drawer of a heading with another value of a property, or without one.
ghost use Rattle.std.specs.Prelude.{◌≡◌, ◌≤◌, IfOk, IfSome, IsOkUnless, length};
ghost use Rattle.org_amend.specs.DrawerPuts.{GivesPut, changed_drawer, drawer_with, ended_drawer, found_changed, found_with, found_without, is_line, may_go, new_drawer, put_text, unended_drawer};
ghost use Rattle.org_base.specs.Codes.{memory_fault};

use crate::changed_nodes::{all_give, changed_nodes, drawer_of, opening_of, says_once};
use crate::found_drawer::{FoundDrawer, drawer_in, first_line};
use crate::planning::ends_like;
use crate::property_line::{is_node_of, node_line};
use org_base::Fault;
use org_class::{is_drawer_end, is_drawer_open};
use org_stamp::is_planning;
use std::alloc::{AllocError, Global};
use std::str;

/// A property of a heading that gets a value, or goes.
#[derive(Clone, Copy, Debug)]
pub struct PropertyChange<'a> {
    /// Its name, in any case.
    pub name: &'a str,
    /// Its value; without one it goes.
    pub value: Option<&'a str>,
}

/// What is put in the place of a property drawer, which may be none.
#[derive(Debug, Drop)]
pub struct DrawerPut {
    /// How many bytes go, from the place on where the drawer stands or would.
    pub deleted: usize,
    /// What stands there then.
    pub inserted: String,
}

/// What becomes of the property drawer at the front of what stands `below` a heading and its planning line. `end` is what ends the
/// line above: a line feed, with a carriage return before it or without, or nothing.
///
/// The first line of the property gets the value, and further ones go, those that append too; where none is there, one comes last.
/// Where one line alone gives the value already, nothing changes. A drawer that isn't there is made. Where a property goes so do
/// its lines, and a drawer of which no other is left; but where the next line would then be read otherwise, an empty drawer stays.
/// None where the line of the property would be read as something else. Out of memory is the only refusal.
#[tactic(auto, unfolding(crate::specs::DrawerPuts::changed_drawer))]
pub fn changed_drawer(
    alloc: Global,
    below: &[u8],
    change: &PropertyChange<'_>,
    end: &str,
) -> Result<Option<DrawerPut>, Fault>
    ensures value { GivesPut result (changed_drawer change.now below.now end.now) }
    ensures within { IfOk result (λ given. IfSome given (λ put. put.deleted ≤ length below.now)) }
    ensures memory { IsOkUnless result memory_fault }
{
    match drawer_in(alloc, below)? {
        Some(drawer) => Ok(changed_lines(alloc, below, &drawer, change)?),
        None => Ok(new_drawer(alloc, change, end)?),
    }
}

// The same of a drawer that is there.
fn changed_lines(
    alloc: Global,
    below: &[u8],
    drawer: &FoundDrawer,
    change: &PropertyChange<'_>,
) -> Result<Option<DrawerPut>, AllocError>
    requires within { drawer.now.len ≤ length below.now }
    ensures value { GivesPut result (found_changed change.now below.now drawer.now) }
    ensures within { IfOk result (λ given. IfSome given (λ put. put.deleted ≤ length below.now)) }
{
    let name = change.name.as_bytes();
    match change.value {
        Some(value) => with_property(alloc, below, drawer, name, value.as_bytes()),
        None => without_property(alloc, below, drawer, name),
    }
}

// A drawer with a value of a property.
fn with_property(
    alloc: Global,
    below: &[u8],
    drawer: &FoundDrawer,
    name: &[u8],
    value: &[u8],
) -> Result<Option<DrawerPut>, AllocError>
    requires within { drawer.now.len ≤ length below.now }
    ensures value { GivesPut result (found_with name.now value.now below.now drawer.now) }
    ensures within { IfOk result (λ given. IfSome given (λ put. put.deleted ≤ drawer.now.len)) }
{
    if says_once(&drawer.lines, name, value) {
        return put_text(alloc, drawer.len, &below[..drawer.len]);
    }
    let opening = opening_of(&drawer.lines);
    let node = node_line(alloc, name, value, opening)?;
    if !is_line(name, value, opening, &node) {
        return Ok(None);
    }
    let lines = changed_nodes(alloc, &drawer.lines, name, &node)?;
    put_text(alloc, drawer.len, &lines)
}

// A drawer without a property; where no other is left, nothing, if what stands behind it is read without it as it is.
fn without_property(
    alloc: Global,
    below: &[u8],
    drawer: &FoundDrawer,
    name: &[u8],
) -> Result<Option<DrawerPut>, AllocError>
    requires within { drawer.now.len ≤ length below.now }
    ensures value { GivesPut result (found_without name.now below.now drawer.now) }
    ensures within { IfOk result (λ given. IfSome given (λ put. put.deleted ≤ drawer.now.len)) }
{
    if all_give(&drawer.lines, name) && may_go(&below[drawer.len..]) {
        return put_text(alloc, drawer.len, b"");
    }
    let lines = changed_nodes(alloc, &drawer.lines, name, b"")?;
    put_text(alloc, drawer.len, &lines)
}

// Whether a text is read behind nothing as behind a drawer.
fn may_go(text: &[u8]) -> bool
    ensures value { result ≡ may_go text.now }
{
    let line = first_line(text);
    !is_planning(line) && !is_drawer_open(line)
}

// A put of bytes, if they are text.
fn put_text(alloc: Global, deleted: usize, bytes: &[u8]) -> Result<Option<DrawerPut>, AllocError>
    ensures value { GivesPut result (put_text deleted bytes.now) }
    ensures within { IfOk result (λ given. IfSome given (λ put. put.deleted ≡ deleted)) }
{
    match str::from_utf8(bytes) {
        Ok(text) => Ok(Some(DrawerPut {
            deleted,
            inserted: String::from_str(alloc, text)?,
        })),
        Err(_) => Ok(None),
    }
}

// Whether the line of a property ends as another does, says it and ends no drawer.
fn is_line(name: &[u8], value: &[u8], beside: &[u8], node: &[u8]) -> bool
    ensures value { result ≡ is_line name.now value.now beside.now node.now }
{
    !is_drawer_end(node) && ends_like(beside, node) && is_node_of(name, value, node)
}

// A drawer with the property alone, behind a line that ends so.
fn new_drawer(
    alloc: Global,
    change: &PropertyChange<'_>,
    end: &str,
) -> Result<Option<DrawerPut>, AllocError>
    ensures value { GivesPut result (new_drawer change.now end.now) }
    ensures within { IfOk result (λ given. IfSome given (λ put. put.deleted ≡ 0)) }
{
    let name = change.name.as_bytes();
    match change.value {
        Some(value) => drawer_with(alloc, name, value.as_bytes(), end),
        None => put_text(alloc, 0, b""),
    }
}

fn drawer_with(
    alloc: Global,
    name: &[u8],
    value: &[u8],
    end: &str,
) -> Result<Option<DrawerPut>, AllocError>
    ensures value { GivesPut result (drawer_with name.now value.now end.now) }
    ensures within { IfOk result (λ given. IfSome given (λ put. put.deleted ≡ 0)) }
{
    if end.is_empty() {
        unended_drawer(alloc, name, value)
    } else {
        ended_drawer(alloc, name, value, end)
    }
}

fn ended_drawer(
    alloc: Global,
    name: &[u8],
    value: &[u8],
    end: &str,
) -> Result<Option<DrawerPut>, AllocError>
    ensures value { GivesPut result (ended_drawer name.now value.now end.now) }
    ensures within { IfOk result (λ given. IfSome given (λ put. put.deleted ≡ 0)) }
{
    let node = node_line(alloc, name, value, end.as_bytes())?;
    if !is_line(name, value, end.as_bytes(), &node) {
        return Ok(None);
    }
    let lines = drawer_of(alloc, &node, end, end)?;
    put_text(alloc, 0, &lines)
}

// The same behind a line without an end; then its own last line has none.
fn unended_drawer(alloc: Global, name: &[u8], value: &[u8]) -> Result<Option<DrawerPut>, AllocError>
    ensures value { GivesPut result (unended_drawer name.now value.now) }
    ensures within { IfOk result (λ given. IfSome given (λ put. put.deleted ≡ 0)) }
{
    let node = node_line(alloc, name, value, b"\n")?;
    if !is_line(name, value, b"\n", &node) {
        return Ok(None);
    }
    let drawer = drawer_of(alloc, &node, "\n", "")?;
    let mut lines = Vec::from_slice(alloc, b"\n")?;
    lines.extend_from_slice(&drawer)?;
    put_text(alloc, 0, &lines)
}

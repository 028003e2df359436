//! The lines of a property drawer with another line for a property.
ghost use Rattle.std.specs.Prelude.{◌≡◌, ◌&&◌, ◌||◌, [], false, get_or, not, true};
ghost use Rattle.org_amend.specs.PropertyChanges.{all_give, behind_opening, changed_nodes, drawer_of, gives, gives_value, is_given, nodes_behind, says_once, unless_put};
ghost use Rattle.org_base.specs.Results.{Adds, GivesItems};
ghost use Rattle.org_class.specs.Drawers.{is_drawer_end};
ghost use Rattle.org_drawer.specs.Node.{is_node};

use crate::property_line::{gives, gives_value};
use org_base::Texts;
use org_class::is_drawer_end;
use std::alloc::{AllocError, Global};

// The first line of a drawer; empty where there is none.
pub(crate) fn opening_of(drawer: &Texts) -> &[u8]
    ensures value { result.now ≡ get_or drawer.now 0 [] }
{
    if drawer.count() > 0 {
        drawer.get(0)
    } else {
        b""
    }
}

// Whether all lines of a drawer behind its opening one end it or give a name.
pub(crate) fn all_give(drawer: &Texts, name: &[u8]) -> bool
    ensures value { result ≡ all_give name.now (behind_opening drawer.now) }
{
    for place in 1..drawer.count() {
        if !ends_or_gives(drawer.get(place), name) {
            return false;
        }
    }
    true
}

// Whether a line ends a drawer or gives a name.
fn ends_or_gives(line: &[u8], name: &[u8]) -> bool
    ensures value { result ≡ (is_drawer_end line.now || gives name.now line.now) }
{
    is_drawer_end(line) || gives(name, line)
}

// Whether one line of a drawer alone gives a name, and gives it just this value.
pub(crate) fn says_once(drawer: &Texts, name: &[u8], value: &[u8]) -> bool
    ensures value { result ≡ says_once name.now value.now false (behind_opening drawer.now) }
{
    let mut is_said = false;
    for place in 1..drawer.count() {
        let line = drawer.get(place);
        if !is_given(name, line) {
            continue;
        }
        if !says_first(is_said, value, line) {
            return false;
        }
        is_said = true;
    }
    is_said
}

// Whether a node line gives just this value, and nothing did before.
fn says_first(is_said: bool, value: &[u8], line: &[u8]) -> bool
    requires node { is_node line.now ≡ true }
    ensures value { result ≡ (not is_said && gives_value value.now line.now) }
{
    !is_said && gives_value(value, line)
}

// Whether a line of a drawer gives a name, and doesn't end it.
fn is_given(name: &[u8], line: &[u8]) -> bool
    ensures value { result ≡ is_given name.now line.now }
{
    !is_drawer_end(line) && gives(name, line)
}

// The lines of a drawer with a line in the place of the first one that gives a name, or else before the end, and no other that
// does.
pub(crate) fn changed_nodes(
    alloc: Global,
    drawer: &Texts,
    name: &[u8],
    node: &[u8],
) -> Result<Vec<u8>, AllocError>
    ensures value { GivesItems result (changed_nodes name.now node.now drawer.now) }
{
    let mut lines = Vec::from_slice(alloc, opening_of(drawer))?;
    push_nodes(&mut lines, drawer, name, node)?;
    Ok(lines)
}

// Puts the lines behind the opening one at the end.
fn push_nodes(
    lines: &mut Vec<u8>,
    drawer: &Texts,
    name: &[u8],
    node: &[u8],
) -> Result<(), AllocError>
    ensures ok { Adds result lines.old lines.new (nodes_behind name.now node.now drawer.now) }
{
    let mut is_put = false;
    for place in 1..drawer.count() {
        let line = drawer.get(place);
        if is_drawer_end(line) {
            push_unless(lines, is_put, node)?;
            lines.extend_from_slice(line)?;
            is_put = true;
            continue;
        }
        if gives(name, line) {
            push_unless(lines, is_put, node)?;
            is_put = true;
            continue;
        }
        lines.extend_from_slice(line)?;
    }
    Ok(())
}

// Puts a line at the end, unless it stands there.
fn push_unless(lines: &mut Vec<u8>, is_put: bool, node: &[u8]) -> Result<(), AllocError>
    ensures ok { Adds result lines.old lines.new (unless_put is_put node.now) }
{
    if !is_put {
        lines.extend_from_slice(node)?;
    }
    Ok(())
}

// The lines of a drawer with a node line alone, which end so, and the last one so.
pub(crate) fn drawer_of(
    alloc: Global,
    node: &[u8],
    end: &str,
    last: &str,
) -> Result<Vec<u8>, AllocError>
    ensures value { GivesItems result (drawer_of node.now end.now last.now) }
{
    let mut drawer = Vec::from_slice(alloc, b":PROPERTIES:")?;
    drawer.extend_from_slice(end.as_bytes())?;
    drawer.extend_from_slice(node)?;
    drawer.extend_from_slice(b":END:")?;
    drawer.extend_from_slice(last.as_bytes())?;
    Ok(drawer)
}

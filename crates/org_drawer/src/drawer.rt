//! Property drawers.
ghost use Rattle.std.specs.Prelude.{◌≡◌, OnOk, IsOkUnless};
ghost use Rattle.org_base.specs.Codes.{memory_fault};
ghost use Rattle.org_base.specs.Results.{Gives};
ghost use Rattle.org_drawer.specs.Node.{drawer_of, with_line};

use crate::node::node_of;
use org_base::{Fault, Texts};
use std::alloc::{AllocError, Global};

/// The properties of a drawer, each name with its value. `get` is never refused.
pub use org_base::Properties as Drawer;

/// The properties that node lines give (Org Syntax, "Property Drawers"): a line's first word is `:NAME:` or `:NAME+:`,
/// NAME not empty and not ending in `+`, and its value is the rest without white space at the ends. A line that is none
/// gives nothing. `:PROPERTIES:` and `:END:` are such words too, so a drawer's first and last line are to be left out.
pub fn read_drawer(alloc: Global, lines: &Texts) -> Result<Drawer, Fault>
    ensures value { Gives result (drawer_of lines.now) }
    ensures memory { IsOkUnless result memory_fault }
{
    let mut drawer = Drawer::new(alloc);
    for place in 0..lines.count() {
        add_line(&mut drawer, lines.get(place))?;
    }
    Ok(drawer)
}

/// Adds what one more node line gives, after those that were added before; a line that is none gives nothing. Where memory
/// is refused some of it may be there.
pub fn add_line(drawer: &mut Drawer, line: &[u8]) -> Result<(), AllocError>
    ensures ok { OnOk result (drawer.new ≡ with_line drawer.old line.now) }
{
    match node_of(line) {
        Some(node) => drawer.add(node.name, node.appends, node.value),
        None => Ok(()),
    }
}

//! The property drawer at the front of a text.
ghost use Rattle.std.specs.Prelude.{◌≡◌, ◌==◌, ◌<◌, ◌≤◌, IfOk, IfSome, IsOkUnless, length, position};
ghost use Rattle.org_amend.specs.FoundDrawers.{GivesDrawer, first_of};
ghost use Rattle.org_amend.specs.PropertyChanges.{drawer_at};
ghost use Rattle.org_base.specs.Codes.{memory_fault};
ghost use Rattle.org_lines.specs.Cuts.{lines};

use org_base::{Fault, Texts};
use org_class::{is_drawer_end, is_drawer_open};
use org_drawer::is_node;
use std::alloc::Global;

// A property drawer.
#[derive(Drop)]
pub(crate) struct FoundDrawer {
    // Its lines: the opening one, node lines, and its end.
    pub(crate) lines: Texts,
    // How long they are.
    pub(crate) len: usize,
}

// The property drawer that stands at the front of a text.
pub(crate) fn drawer_in(alloc: Global, text: &[u8]) -> Result<Option<FoundDrawer>, Fault>
    ensures value { GivesDrawer result text.now (drawer_at (lines text.now)) }
    ensures memory { IsOkUnless result memory_fault }
{
    let opening = first_line(text);
    if !is_drawer_open(opening) {
        return Ok(None);
    }
    let mut lines = Texts::new(alloc);
    lines.push(opening)?;
    let mut at = opening.len();
    while at < text.len() {
        let line = first_line(&text[at..]);
        lines.push(line)?;
        at += line.len();
        if is_drawer_end(line) {
            return Ok(Some(FoundDrawer { lines, len: at }));
        }
        if !is_node(line) {
            return Ok(None);
        }
    }
    Ok(None)
}

// The first line of a text, with what ends it; empty where there is none.
pub(crate) fn first_line(text: &[u8]) -> &[u8]
    ensures value { result.now ≡ first_of text.now }
    ensures within { length result.now ≤ length text.now }
{
    match line_feed(text) {
        Some(place) => &text[..place + 1],
        None => text,
    }
}

// Where the first line feed stands.
fn line_feed(text: &[u8]) -> Option<usize>
    ensures value { result ≡ position (λ b. b == 10) text.now }
    ensures within { IfSome result (λ place. place < length text.now) }
{
    text.iter().position(|byte| *byte == b'\n')
}

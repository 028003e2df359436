//! The line of a property in its drawer.
ghost use Rattle.std.specs.Prelude.{◌≡◌, ◌+◌, ◌≤◌, length, true};
ghost use Rattle.org_amend.specs.PropertyChanges.{before_tail, gives, gives_value, indent_before, is_node_of, node_line, node_of, pair_of};
ghost use Rattle.org_base.specs.Results.{Adds, GivesItems};
ghost use Rattle.org_drawer.specs.Node.{has_plus, is_node, is_node_word, name_len};

use crate::aligned_tags::push_spaces;
use crate::line_tail::{line_tail, tail_len};
use crate::tags_column::spaces_behind;
use org_base::words::{first_word, same_word, trim, trim_start};
use org_drawer::is_node;
use org_stamp::leading_spaces;
use std::alloc::{AllocError, Global};

// The line of a property, as far in as another line and with its end.
pub(crate) fn node_line(
    alloc: Global,
    name: &[u8],
    value: &[u8],
    beside: &[u8],
) -> Result<Vec<u8>, AllocError>
    ensures value { GivesItems result (node_line name.now value.now beside.now) }
{
    let mut line = Vec::from_slice(alloc, indent_before(beside))?;
    push_pair(&mut line, name, value)?;
    line.extend_from_slice(line_tail(beside))?;
    Ok(line)
}

// The white space in front of what a line has before its end.
fn indent_before(line: &[u8]) -> &[u8]
    ensures value { result.now ≡ indent_before line.now }
{
    let body = before_tail(line);
    &body[..leading_spaces(body)]
}

fn before_tail(line: &[u8]) -> &[u8]
    ensures value { result.now ≡ before_tail line.now }
{
    let end = line.len().saturating_sub(tail_len(line));
    &line[..end]
}

// Puts a name between colons and a value at the end. As Org writes it the value begins in column 11 or one space behind.
fn push_pair(line: &mut Vec<u8>, name: &[u8], value: &[u8]) -> Result<(), AllocError>
    ensures ok { Adds result line.old line.new (pair_of name.now value.now) }
{
    line.extend_from_slice(b":")?;
    line.extend_from_slice(name)?;
    line.extend_from_slice(b":")?;
    push_spaces(line, spaces_behind(name))?;
    line.extend_from_slice(value)
}

// Whether a line gives a name a value, by itself or appended.
pub(crate) fn gives(name: &[u8], line: &[u8]) -> bool
    ensures value { result ≡ gives name.now line.now }
{
    is_node(line) && same_word(name_of(line), name)
}

// Whether a line gives just this value to just this name.
pub(crate) fn is_node_of(name: &[u8], value: &[u8], line: &[u8]) -> bool
    ensures value { result ≡ is_node_of name.now value.now line.now }
{
    is_node(line) && name_of(line) == name && gives_value(value, line)
}

// Whether a node line gives just this value, and doesn't append it.
pub(crate) fn gives_value(value: &[u8], line: &[u8]) -> bool
    requires node { is_node line.now ≡ true }
    ensures value { result ≡ gives_value value.now line.now }
{
    !has_plus(first_word(line)) && value_of(line) == value
}

// The name that a node line gives.
fn name_of(line: &[u8]) -> &[u8]
    requires node { is_node line.now ≡ true }
    ensures value { result.now ≡ (node_of line.now).name }
{
    let word = first_word(line);
    &word[1..][..name_len(word)]
}

// The value that a node line gives.
fn value_of(line: &[u8]) -> &[u8]
    ensures value { result.now ≡ (node_of line.now).value }
{
    let rest = trim_start(line);
    trim(&rest[first_word(line).len().min(rest.len())..])
}

// Whether a plus stands before the last byte.
fn has_plus(word: &[u8]) -> bool
    requires node { is_node_word word.now ≡ true }
    ensures value { result ≡ has_plus word.now }
{
    word[word.len() - 2] == b'+'
}

// The length of NAME in `:NAME:` and in `:NAME+:`.
fn name_len(word: &[u8]) -> usize
    requires node { is_node_word word.now ≡ true }
    ensures value { result ≡ name_len word.now }
    ensures within { result + 2 ≤ length word.now }
{
    let behind = if has_plus(word) { 3 } else { 2 };
    word.len() - behind
}

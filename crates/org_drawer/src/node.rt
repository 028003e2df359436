//! The node lines of a property drawer.
ghost use Rattle.std.specs.Prelude.{◌≡◌, ◌+◌, ◌≤◌, true, length};
ghost use Rattle.std.specs.Option.{option_map};
ghost use Rattle.org_drawer.specs.Node.{given, given_by, given_of, has_plus, is_node, is_node_word, name_len};

use org_base::words::{first_word, trim, trim_start};

// What a node line gives (Org Syntax, "Node Properties").
#[derive(Drop)]
pub(crate) struct Node<'a> {
    /// The name as it is written.
    pub name: &'a [u8],
    /// Whether the value is appended to those that the name has.
    pub appends: bool,
    /// The rest of the line, without white space at its ends.
    pub value: &'a [u8],
}

// What the line gives; None exactly where it is no node line.
pub(crate) fn node_of(line: &[u8]) -> Option<Node<'_>>
    ensures value { option_map given_by result ≡ given_of line.now }
{
    let word = first_word(line);
    if is_node_word(word) {
        Some(node_from(word, trim_start(line)))
    } else {
        None
    }
}

/// Whether the line is a node line (Org Syntax, "Node Properties"): its first word is `:NAME:` or `:NAME+:`, where NAME
/// isn't empty and doesn't end in `+`.
pub fn is_node(line: &[u8]) -> bool
    ensures value { result ≡ is_node line.now }
{
    is_node_word(first_word(line))
}

// `:NAME:` or `:NAME+:`, where NAME isn't empty and doesn't end in `+`.
fn is_node_word(word: &[u8]) -> bool
    ensures value { result ≡ is_node_word word.now }
{
    let n = word.len();
    if n < 3 || word[0] != b':' || word[n - 1] != b':' {
        return false;
    }
    let len = name_len(word);
    len > 0 && word[len] != b'+'
}

// Whether a plus stands before the last byte.
fn has_plus(word: &[u8]) -> bool
    requires { 3 ≤ length word.now }
    ensures value { result ≡ has_plus word.now }
{
    word[word.len() - 2] == b'+'
}

// The length of NAME.
fn name_len(word: &[u8]) -> usize
    requires { 3 ≤ length word.now }
    ensures value { result ≡ name_len word.now }
    ensures within { result + 2 ≤ length word.now }
{
    let behind = if has_plus(word) { 3 } else { 2 };
    word.len() - behind
}

// What a first word and the line from it on give.
fn node_from<'a>(word: &'a [u8], rest: &'a [u8]) -> Node<'a>
    requires is_node { is_node_word word.now ≡ true }
    requires within { length word.now ≤ length rest.now }
    ensures value { given_by result ≡ given word.now rest.now }
{
    let len = name_len(word);
    Node {
        name: &word[1..][..len],
        appends: has_plus(word),
        value: trim(&rest[word.len()..]),
    }
}

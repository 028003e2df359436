//! Headings that are below none of their kind.
ghost use Rattle.std.specs.List.{range_with_len};
ghost use Rattle.std.specs.Prelude.{◌≡◌, ◌<◌, length, map};
ghost use Rattle.org_base.specs.Results.{GivesItems};
ghost use Rattle.org_project.specs.Topmost.{all_topmost, all_under, both_at, either_at, flag_at, is_first, is_under, of_parent};

use org_outline::Outline;
use std::alloc::{AllocError, Global};

/// Of each entry, whether it is of a kind and none of its ancestors is.
pub fn topmost(alloc: Global, outline: &Outline, of_kind: &[bool]) -> Result<Vec<bool>, AllocError>
    ensures value { GivesItems result (all_topmost outline.now of_kind.now) }
{
    let under = under_kind(alloc, outline, of_kind)?;
    let mut topmost = Vec::new(alloc);
    for i in 0..outline.count() {
        topmost.push(is_first(of_kind, under.as_slice(), i))?;
    }
    Ok(topmost)
}

// Whether an entry is of a kind and under none of it.
fn is_first(of_kind: &[bool], under: &[bool], place: usize) -> bool
    ensures value { result ≡ is_first of_kind.now under.now place }
{
    flag_at(of_kind, place) && !flag_at(under, place)
}

/// What a list of flags says at a place; past its end false.
pub(crate) fn flag_at(flags: &[bool], place: usize) -> bool
    ensures value { result ≡ flag_at flags.now place }
{
    match flags.get(place) {
        Some(flag) => *flag,
        None => false,
    }
}

// Of each entry, whether one of its ancestors is of a kind.
fn under_kind(alloc: Global, outline: &Outline, of_kind: &[bool]) -> Result<Vec<bool>, AllocError>
    ensures value { GivesItems result (all_under outline.now of_kind.now) }
{
    let mut under = Vec::new(alloc);
    for i in 0..outline.count() {
        under.push(is_under(outline, of_kind, under.as_slice(), i))?;
    }
    Ok(under)
}

// Whether an ancestor of an entry is of a kind, where this is known of those before it.
fn is_under(outline: &Outline, of_kind: &[bool], under: &[bool], place: usize) -> bool
    requires within { place < length outline.now }
    requires known { under.now ≡ map (is_under outline.now of_kind.now) (range_with_len 0 place) }
    ensures value { result ≡ is_under outline.now of_kind.now place }
{
    is_below(of_kind, under, outline.parent(place))
}

// Whether a parent, if there is one, is of a kind or under it.
fn is_below(of_kind: &[bool], under: &[bool], parent: Option<usize>) -> bool
    ensures value { result ≡ of_parent parent (either_at of_kind.now under.now) }
{
    match parent {
        Some(parent) => either_at(of_kind, under, parent),
        None => false,
    }
}

/// What one of two lists of flags says at a place.
pub(crate) fn either_at(one: &[bool], other: &[bool], place: usize) -> bool
    ensures value { result ≡ either_at one.now other.now place }
{
    flag_at(one, place) || flag_at(other, place)
}

/// What both say.
pub(crate) fn both_at(one: &[bool], other: &[bool], place: usize) -> bool
    ensures value { result ≡ both_at one.now other.now place }
{
    flag_at(one, place) && flag_at(other, place)
}

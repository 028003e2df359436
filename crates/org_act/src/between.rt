//! The change between two texts.
ghost use Rattle.std.specs.Prelude.{◌≡◌, ◌-◌, ◌≤◌, IfOk, drop, length, take};
ghost use Rattle.org_act.specs.Changes.{LiesIn, with_change};

use org_store::OwnedChange;
use std::alloc::{AllocError, Global};

/// The change that makes one text of another, without what both have at the front and at the end. It cuts no character.
pub fn change_between(alloc: Global, old: &str, new: &str) -> Result<OwnedChange, AllocError>
    ensures within { IfOk result (LiesIn old.now) }
    ensures value { IfOk result (λ change. with_change old.now change ≡ new.now) }
{
    let front = new.floor_char_boundary(common_front(old.as_bytes(), new.as_bytes()));
    let back = common_back(&old.as_bytes()[front..], &new.as_bytes()[front..]);
    let end = new.ceil_char_boundary(new.len() - back);
    let behind = new.len() - end;
    Ok(OwnedChange {
        at: front as u64,
        del: (old.len() - behind - front) as u64,
        ins: String::from_str(alloc, &new[front..end])?,
    })
}

// How many bytes two texts have in common at the front.
fn common_front(one: &[u8], other: &[u8]) -> usize
    ensures in_one { result ≤ length one.now }
    ensures in_other { result ≤ length other.now }
    ensures same { take result one.now ≡ take result other.now }
{
    let mut len = 0;
    while len < one.len() && len < other.len() && one[len] == other[len] {
        len += 1;
    }
    len
}

// How many bytes two texts have in common at the end.
fn common_back(one: &[u8], other: &[u8]) -> usize
    ensures in_one { result ≤ length one.now }
    ensures in_other { result ≤ length other.now }
    ensures same { drop (length one.now - result) one.now ≡ drop (length other.now - result) other.now }
{
    let mut len = 0;
    while len < one.len()
        && len < other.len()
        && one[one.len() - len - 1] == other[other.len() - len - 1]
    {
        len += 1;
    }
    len
}

//! Where a row stands by a key.
ghost use Rattle.std.specs.Prelude.{◌≡◌};
ghost use Rattle.org_order.specs.Order.{rank_of};

use std::cmp::Reverse;

/// What a row has for a key.
#[derive(Debug, Drop, PartialEq, Eq, PartialOrd, Ord)]
pub enum KeyValue {
    /// A number: smaller ones stand first.
    Number(u64),
    /// A text: it stands by its bytes, as a dictionary has words by their letters.
    Text(Vec<u8>),
}

/// Where a row stands by a key.
#[derive(Debug, Drop, PartialEq, Eq, PartialOrd, Ord)]
pub enum Rank {
    /// Behind those with smaller values.
    Up(KeyValue),
    /// Behind those with larger values.
    Down(Reverse<KeyValue>),
    /// Behind all that have a value.
    Missing,
}

impl Rank {
    /// Where a row stands that has this for a key, if it has anything; smaller values stand last where the key goes down.
    pub fn of(value: Option<KeyValue>, is_down: bool) -> Rank
        ensures value { result ≡ rank_of is_down value }
    {
        match value {
            None => Rank::Missing,
            Some(value) if is_down => Rank::Down(Reverse(value)),
            Some(value) => Rank::Up(value),
        }
    }
}

//! Laws about the definitions in specs/.
ghost use Rattle.org_order.specs.Examples.{ExamplesHold};
ghost use Rattle.org_order.specs.Laws.{GroupsComeInOrder, GroupsHoldTheirRows, LaterKeysDecideTies, MinusTurnsTheOrder, MissingIsLast, UnnamedIsLast};

/// What has nothing for a key stands behind all that has something, whichever way the key goes.
#[tactic(auto, using(crate::proofs::OrderLemmas::missing_is_last))]
pub fn missing_is_last()
    ensures { MissingIsLast }
{}

/// Downward, values stand the other way round.
#[tactic(auto, using(crate::proofs::OrderLemmas::minus_turns_the_order))]
pub fn minus_turns_the_order()
    ensures { MinusTurnsTheOrder }
{}

/// Where rows have equal ranks for a key, the next key decides, and else it doesn't count.
#[tactic(auto, using(crate::proofs::OrderLemmas::later_keys_decide_ties))]
pub fn later_keys_decide_ties()
    ensures { LaterKeysDecideTies }
{}

/// Where each row has its groups, the rows of all groups, each as often as it was put in, are those that were put in.
#[tactic(auto, using(crate::proofs::GroupLemmas::groups_hold_their_rows))]
pub fn groups_hold_their_rows()
    ensures { GroupsHoldTheirRows }
{}

/// The group of a name that is new stands behind those of all names before.
#[tactic(auto, using(crate::proofs::OrderLemmas::groups_come_in_order))]
pub fn groups_come_in_order()
    ensures { GroupsComeInOrder }
{}

/// What is in no group stands behind all groups.
#[tactic(auto, using(crate::proofs::OrderLemmas::unnamed_is_last))]
pub fn unnamed_is_last()
    ensures { UnnamedIsLast }
{}

/// Numbers and texts up and down, what has none, several keys, equal rows, a row in two groups and one in none.
pub fn examples_hold()
    ensures { ExamplesHold }
{}

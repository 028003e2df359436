//! Laws about the definitions in specs/. Each is a function without parameters whose contract is the law.
ghost use Rattle.org_project.specs.Examples.{ExamplesHold};
ghost use Rattle.org_project.specs.Laws.{NoneIsBetween, OneIsBetween, UnderGoesDown, WaitingGoesDown};

/// A heading waits exactly where its parent is ordered and an open heading stands between the two, or its parent is open and waits.
#[tactic(auto, using(crate::proofs::WaitLemmas::waiting_goes_down))]
pub fn waiting_goes_down()
    ensures { WaitingGoesDown }
{}

/// What stands under one of its kind is told by its parent.
#[tactic(auto, using(crate::proofs::WaitLemmas::under_goes_down))]
pub fn under_goes_down()
    ensures { UnderGoesDown }
{}

/// Where no heading between two places is open, no open one stands there.
#[tactic(auto, using(crate::proofs::BetweenLemmas::none_is_between))]
pub fn none_is_between()
    ensures { NoneIsBetween }
{}

/// Where a heading between two places is open, an open one stands there.
#[tactic(auto, using(crate::proofs::BetweenLemmas::one_is_between))]
pub fn one_is_between()
    ensures { OneIsBetween }
{}

/// Why tasks are blocked, what a property says that is set, and flags of two lists.
pub fn examples_hold()
    ensures { ExamplesHold }
{}

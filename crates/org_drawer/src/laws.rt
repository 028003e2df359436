//! Laws of the definitions. Each is a function without parameters whose contract is the law.
ghost use Rattle.org_drawer.specs.Examples.{ExamplesHold};
ghost use Rattle.org_drawer.specs.Laws.{DrawersHaveValues, EffortsAreSpelled, MinutesAreCounted, NodesAreSpelled, PiecesMakeTheWhole, PlanningIsThere, ReversedClocksHaveNone};

use org_base::values_are_of_their_names;

/// What stands in a planning line where a kept stamp has its part is that stamp, and nothing else.
pub fn planning_is_there()
    ensures { PlanningIsThere }
{}

/// A line gives a name and a value exactly where its first word is `:NAME:`, or `:NAME+:` for an appended value, NAME not
/// empty and not ending in `+`, and the value is the trimmed rest.
pub fn nodes_are_spelled()
    ensures { NodesAreSpelled }
{}

/// What a name has in a drawer is the value that the node lines give to it: the first plain one, then the appended ones,
/// one space between.
pub fn drawers_have_values()
    ensures { DrawersHaveValues }
{
    values_are_of_their_names();
}

/// The minutes of a closed clock in days are as many as there are minutes of the days in which it runs.
#[tactic(auto, using(crate::proofs::ClockLemmas::minutes_are_counted))]
pub fn minutes_are_counted()
    ensures { MinutesAreCounted }
{}

/// What a clock has in the pieces of a period, as its days or weeks, is in sum what it has in the whole.
#[tactic(auto, using(crate::proofs::ClockLemmas::pieces_make_the_whole))]
pub fn pieces_make_the_whole()
    ensures { PiecesMakeTheWhole }
{}

/// A clock that ends before it starts has no minutes in any period.
pub fn reversed_clocks_have_none()
    ensures { ReversedClocksHaveNone }
{}

/// An effort is read exactly where it is spelled: hours of up to six digits, a colon and two digits below 60; minutes of
/// up to six digits; or a number of up to four digits, white space or none, and a unit. It is the sum or the product of
/// the numbers.
pub fn efforts_are_spelled()
    ensures { EffortsAreSpelled }
{}

/// Of a planning keyword that stands twice in a line the last one counts.
pub fn examples_hold()
    ensures { ExamplesHold }
{}

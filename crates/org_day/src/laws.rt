//! Laws about the definitions in specs/.
ghost use Rattle.org_day.specs.Examples.{ExamplesHold};
ghost use Rattle.org_day.specs.Laws.{EachRowHasItsPlace, LinesStand};

/// The rows that are placed are those of the day, each once.
#[tactic(auto, using(crate::proofs::PlacedLemmas::each_row_has_its_place))]
pub fn each_row_has_its_place()
    ensures { EachRowHasItsPlace }
{}

/// A row stands in the line of a row of its heading, which is in its own line: it is that row or a note of it.
#[tactic(auto, using(crate::proofs::PlacedLemmas::lines_stand))]
pub fn lines_stand()
    ensures { LinesStand }
{}

/// Rows in their sections, in their lines and in their order, characters that are hidden, and colours.
pub fn examples_hold()
    ensures { ExamplesHold }
{}

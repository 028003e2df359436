//! Laws of the definitions. Each is a function without parameters whose contract is the law.
ghost use Rattle.org_trace.specs.Examples.{ExamplesHold};
ghost use Rattle.org_trace.specs.Laws.{AllAreListed, RowsAreTrue};

/// Lines that log something, and lines that look so.
pub fn examples_hold()
    ensures { ExamplesHold }
{}

/// Whatever a line of a section logs that is asked for has its row, with the place of the line.
#[tactic(auto, using(crate::proofs::LogLemmas::all_are_listed))]
pub fn all_are_listed()
    ensures { AllAreListed }
{}

/// Each row is of a line of its own section which logs what the row says, stands where it says, and is asked for.
#[tactic(auto, using(crate::proofs::LogLemmas::rows_are_true))]
pub fn rows_are_true()
    ensures { RowsAreTrue }
{}

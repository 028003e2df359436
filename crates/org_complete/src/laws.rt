//! Laws of the definitions. Each is a function without parameters whose contract is the law.
ghost use Rattle.org_complete.specs.Examples.{ExamplesHold};
ghost use Rattle.org_complete.specs.Laws.{CompletionsAreApart, KeywordsAreWritten};
ghost use Rattle.org_complete.specs.Parts.{PartsAreOneChange};
ghost use Rattle.org_complete.specs.Reasons.{RefusalsComeInOrder};

/// Parts of a text that are replaced at once are one change, from the first replaced byte to the last.
#[tactic(auto, using(crate::proofs::PartLemmas::parts_are_one_change))]
pub fn parts_are_one_change()
    ensures { PartsAreOneChange }
{}

/// What a completion replaces, the keyword and the stamps that shift, stands in the text, one part after the other.
pub fn completions_are_apart()
    ensures { CompletionsAreApart }
{}

/// Where a keyword is a done one and an active stamp of the planning line has a repeater, each such stamp shifts in its place
/// and the first keyword of the sequence is written; else the keyword itself is, and no stamp shifts.
#[tactic(auto, using(crate::proofs::LawLemmas::keywords_written))]
pub fn keywords_are_written()
    ensures { KeywordsAreWritten }
{}

/// Completing a heading is refused exactly where a reason holds, and with the fault of the first: no heading stands on the
/// line, the word is no keyword of the file, a stamp that repeats by hours lacks a time, a shift leaves the years, the text
/// would be too long.
pub fn refusals_come_in_order()
    ensures { RefusalsComeInOrder }
{}

/// Want of a time in one stamp is refused before any date, and a keyword goes after all white space of its line.
pub fn examples_hold()
    ensures { ExamplesHold }
{}

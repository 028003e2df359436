//! Laws of clock tables. Each is a function without parameters whose contract is the law.
ghost use Rattle.org_clocktable.specs.Examples.{ExamplesHold};
ghost use Rattle.org_clocktable.specs.Laws.{LevelsAreSpelled, StepsMakeTheWhole, TotalsAreOfAllThatCount, TotalsAreOfFiles};
ghost use Rattle.org_clocktable.specs.Spelled.{OptionsAreSpelled};

/// What a heading has in the steps of a period adds up to what it has in the whole, whichever the step.
pub fn steps_make_the_whole()
    ensures { StepsMakeTheWhole }
{}

/// The total, which is the first row of a step, is the sum of the clock sums of the rows of files.
pub fn totals_are_of_files()
    ensures { TotalsAreOfFiles }
{}

/// The first row of a step has the clocks and the efforts of all headings that count, in all files of the table.
pub fn totals_are_of_all_that_count()
    ensures { TotalsAreOfAllThatCount }
{}

/// The word after `maxlevel=` is a level exactly where it is the decimal text of 1 to 99.
pub fn levels_are_spelled()
    ensures { LevelsAreSpelled }
{}

/// A text asks for a table exactly where it spells it: options in any order with one space between, one block, one level of
/// 1 to 99, each of the others at most once, and the expression after them with the rest of the text.
pub fn options_are_spelled()
    ensures { OptionsAreSpelled }
{}

/// Hours of a heading that lies too deep stand in the lines above it alone, a file without clocks has no line, and hidden
/// headings count.
pub fn examples_hold()
    ensures { ExamplesHold }
{}

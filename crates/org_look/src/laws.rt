//! Laws about the definitions in specs/.
ghost use Rattle.org_look.specs.Bars.{BarsAreWide};
ghost use Rattle.org_look.specs.Cells.{OthersHaveALine, RowsHaveLines};
ghost use Rattle.org_look.specs.Cuts.{FilledIsWide, SpreadIsWide, WholeStands};
ghost use Rattle.org_look.specs.Entries.{AllAreCounted, CellsFit, CellsHoldRows};
ghost use Rattle.org_look.specs.Examples.{ExamplesHold};
ghost use Rattle.org_look.specs.Ranges.{RangesHaveOneBar, SeenHaveNoBar};
ghost use Rattle.org_look.specs.Signs.{SignsAreColumns};
ghost use Rattle.org_look.specs.Strips.{LinesAddUp};

/// Each sign is one column wide.
#[tactic(auto, using(crate::proofs::SignLemmas::signs_are_columns))]
pub fn signs_are_columns()
    ensures { SignsAreColumns }
{}

/// A text in so many columns takes exactly so many, whatever it is.
#[tactic(auto, using(crate::proofs::CutLemmas::filled_is_wide))]
pub fn filled_is_wide()
    ensures { FilledIsWide }
{}

/// A text that is spread over so many columns takes exactly so many, whatever it is.
#[tactic(auto, using(crate::proofs::CutLemmas::spread_is_wide))]
pub fn spread_is_wide()
    ensures { SpreadIsWide }
{}

/// A text that fits isn't cut.
#[tactic(auto, using(crate::proofs::CutLemmas::whole_stands))]
pub fn whole_stands()
    ensures { WholeStands }
{}

/// A line is as wide as its strips are together, and the borders beside them, whatever the strips say.
#[tactic(auto, using(crate::proofs::LineLemmas::lines_add_up))]
pub fn lines_add_up()
    ensures { LinesAddUp }
{}

/// The rows of the cells of some days, joined in their order, are the rows of the days but for ranges, late ones and
/// warnings, each once.
#[tactic(auto, using(crate::proofs::EntryLemmas::cells_hold_rows))]
pub fn cells_hold_rows()
    ensures { CellsHoldRows }
{}

/// No row is left out of a cell without being counted.
#[tactic(auto, using(crate::proofs::EntryLemmas::all_are_counted))]
pub fn all_are_counted()
    ensures { AllAreCounted }
{}

/// What a cell shows takes no more lines than there is room for.
#[tactic(auto, using(crate::proofs::EntryLemmas::cells_fit))]
pub fn cells_fit()
    ensures { CellsFit }
{}

/// A bar takes exactly its columns, whatever its label is.
#[tactic(auto, using(crate::proofs::BarLemmas::bars_are_wide))]
pub fn bars_are_wide()
    ensures { BarsAreWide }
{}

/// A range has one bar in a week, from the first of its days that the week sees to the last one.
#[tactic(auto, using(crate::proofs::RangeLemmas::ranges_have_one_bar))]
pub fn ranges_have_one_bar()
    ensures { RangesHaveOneBar }
{}

/// A range that a week saw on an earlier day has no second bar.
#[tactic(auto, using(crate::proofs::RangeLemmas::seen_have_no_bar))]
pub fn seen_have_no_bar()
    ensures { SeenHaveNoBar }
{}

/// Each row that a cell shows has a line of its own, in order.
#[tactic(auto, using(crate::proofs::CellLemmas::rows_have_lines))]
pub fn rows_have_lines()
    ensures { RowsHaveLines }
{}

/// The number of the other rows has a line, where there are any.
#[tactic(auto, using(crate::proofs::CellLemmas::others_have_a_line))]
pub fn others_have_a_line()
    ensures { OthersHaveALine }
{}

/// Texts that fit and that don't, wide ones and accents, bars, and a full cell.
pub fn examples_hold()
    ensures { ExamplesHold }
{}

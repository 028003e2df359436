//! Laws about the definitions in specs/.
ghost use Rattle.org_overview.specs.Examples.{ExamplesHold};
ghost use Rattle.org_overview.specs.Laws.{ChartsMakeTheTotal, RowsAreInOnePart};

/// What the files of a chart have on a day is the total of the clock table of that day.
pub fn charts_make_the_total()
    ensures { ChartsMakeTheTotal }
{}

/// Each row of a day stands in one part of today, and in one part of its cell if it is of the day itself.
pub fn rows_are_in_one_part()
    ensures { RowsAreInOnePart }
{}

/// Parts, bytes, keywords, clocks over midnight, and the days of charts.
pub fn examples_hold()
    ensures { ExamplesHold }
{}

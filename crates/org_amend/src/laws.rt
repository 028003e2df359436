//! Laws of the definitions. Each is a function without parameters whose contract is the law.
ghost use Rattle.org_amend.specs.CancelLaws.{OthersStay};
ghost use Rattle.org_amend.specs.EndLaws.{OneClockEnds};
ghost use Rattle.org_amend.specs.EntryLaws.{EntriesAreReadBack, HeadsAreReadBack};
ghost use Rattle.org_amend.specs.Examples.{CancelExamplesHold, ExamplesHold, PartExamplesHold, PlanningExamplesHold};
ghost use Rattle.org_amend.specs.HeadChangeLaws.{HeadsAreChanged};
ghost use Rattle.org_amend.specs.Laws.{BegunClocksRun, EndedClocksAreRead, FoundClocksRun};
ghost use Rattle.org_amend.specs.PlanningLaws.{DatedLinesArePlanning, DatesAreSaid, LostStampsAreUnsaid, OtherLinesStay};
ghost use Rattle.org_amend.specs.PropertyLaws.{PropertiesAreGiven};

/// Where a running clock's line gets its end right behind its stamp, it is read as that clock, ended at that moment.
pub fn ended_clocks_are_read()
    ensures { EndedClocksAreRead }
{}

/// The line of a clock that begins at a moment is read as one that runs since that moment.
pub fn begun_clocks_run()
    ensures { BegunClocksRun }
{}

/// The running clock that is found is the first one among the section's lines, and stands where it is said to stand.
pub fn found_clocks_run()
    ensures { FoundClocksRun }
{}

/// The front ends before the first other line, and a drawer of small letters is one where it ends.
pub fn examples_hold()
    ensures { ExamplesHold }
{}

/// An empty line stays for a clock's where lines behind it would be read as planning or as properties without it; a body's drawer
/// is one where it ends.
pub fn cancel_examples_hold()
    ensures { CancelExamplesHold }
{}

/// In a property drawer that is changed one line alone gives the property, and gives its value, or none gives it; all other node lines
/// stay, in their order, and so does all that stands behind the drawer.
pub fn properties_are_given()
    ensures { PropertiesAreGiven }
{}

/// A line that gets a date under a planning keyword says it, with its repeater and its delay, or those that stood there, and all
/// else that it said.
pub fn dates_are_said()
    ensures { DatesAreSaid }
{}

/// A line that loses the stamps of a planning keyword says nothing under it, and all else that it said.
pub fn lost_stamps_are_unsaid()
    ensures { LostStampsAreUnsaid }
{}

/// A line that gets a date is the planning line of its heading, and the lines behind it are read as behind any planning line.
pub fn dated_lines_are_planning()
    ensures { DatedLinesArePlanning }
{}

/// What is left of a planning line is one or is text, and the lines behind it are read as before.
pub fn other_lines_stay()
    ensures { OtherLinesStay }
{}

/// A stamp takes the place of the last one of its keyword; a line of which nothing is left goes, unless the next one would be
/// read in its place.
pub fn planning_examples_hold()
    ensures { PlanningExamplesHold }
{}

/// A tag that stands there stays at its place; a cookie stands behind the keyword; a property's line takes the place of the first one.
pub fn part_examples_hold()
    ensures { PartExamplesHold }
{}

/// The heading line of a new heading is read as just the keyword, the priority, the title and the tags that were asked for.
pub fn heads_are_read_back()
    ensures { HeadsAreReadBack }
{}

/// A heading line that gets other tags or another priority, or loses its keyword, is read as what it said, but for that, and ends
/// as it did.
pub fn heads_are_changed()
    ensures { HeadsAreChanged }
{}

/// The lines of a new heading are read as one heading with just its words, its dates and its body, and none of them is a setting.
pub fn entries_are_read_back()
    ensures { EntriesAreReadBack }
{}

/// Where a running clock is cancelled, all other lines of its section stay and are read as they were: its line goes, or the drawer
/// that holds no other, and an empty line stays at most.
pub fn others_stay()
    ensures { OthersStay }
{}

/// Where a running clock gets its end, its line alone changes and says that, and all lines of the section keep their classes.
pub fn one_clock_ends()
    ensures { OneClockEnds }
{}

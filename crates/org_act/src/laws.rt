//! Laws of the definitions. Each is a function without parameters whose contract is the law.
ghost use Rattle.org_act.specs.AddingLaws.{HeadingsAreAdded};
ghost use Rattle.org_act.specs.ClockBegins.{ActsBeginOneClock};
ghost use Rattle.org_act.specs.ClockEntries.{OneClockCloses, OneClockGoes};
ghost use Rattle.org_act.specs.ClockSums.{OwnMinutesGrow, SumsGrowAbove};
ghost use Rattle.org_act.specs.ClockTexts.{ActsAddMinutes, ActsCancelOneClock, ActsEndOneClock};
ghost use Rattle.org_act.specs.Examples.{ActExamplesHold, ExamplesHold};
ghost use Rattle.org_act.specs.HeadActLaws.{HeadLinesAreChanged};
ghost use Rattle.org_act.specs.Laws.{ActsComplete, OneRefusalIsOfAll};
ghost use Rattle.org_act.specs.PlanningLaws.{HeadingsArePlanned};
ghost use Rattle.org_act.specs.PropertyActLaws.{HeadingsGetProperties};
ghost use Rattle.org_act.specs.TakingBack.{ActsAreTakenBack};

/// Where nothing is read after a text, an act that completes a heading leaves what the engine's completion leaves, and is
/// refused where that is.
#[tactic(auto, using(crate::proofs::LawLemmas::acts_complete))]
pub fn acts_complete()
    ensures { ActsComplete }
{}

/// Where an act is refused for one of several headings, it is refused for all of them.
pub fn one_refusal_is_of_all()
    ensures { OneRefusalIsOfAll }
{}

/// Ordinary headings are completed, and words that are no done keywords refused.
pub fn examples_hold()
    ensures { ExamplesHold }
{}

/// Under a heading that is planned stands a line that says the date, or nothing under its keyword, and under the others what was
/// said; all that stands before and behind it stays, and the lines behind it are read as before.
pub fn headings_are_planned()
    ensures { HeadingsArePlanned }
{}

/// A heading line that gets other tags or another priority, or loses its keyword, is read as what it said, but for that; all that
/// stands before it and behind it stays.
pub fn head_lines_are_changed()
    ensures { HeadLinesAreChanged }
{}

/// A heading that is added stands behind all others, or behind all that is below the one that is named, and is read as what was
/// asked for; all other bytes, sections and setting lines stay.
pub fn headings_are_added()
    ensures { HeadingsAreAdded }
{}

/// Right under a heading and its planning line one line of a property drawer alone gives the property, and gives its value, or none
/// gives it; the drawer's other lines stay, and all that stands before it and behind it.
pub fn headings_get_properties()
    ensures { HeadingsGetProperties }
{}

/// Headings are found by their lines, lose a stamp, alone or several at once, and go behind the last one below another; what an
/// act left goes back.
pub fn act_examples_hold()
    ensures { ActExamplesHold }
{}

/// Where lines went with a running clock, the entry says all that it said but for that clock, up to places.
pub fn one_clock_goes()
    ensures { OneClockGoes }
{}

/// Where the line of a running clock got its end, the entry says all that it said, and that this clock ended.
pub fn one_clock_closes()
    ensures { OneClockCloses }
{}

/// Where a clock of an entry ended, it has its minutes more in days that hold both ends.
pub fn own_minutes_grow()
    ensures { OwnMinutesGrow }
{}

/// Where the clock of one heading ended, its sum and those of its ancestors are the former ones and its minutes, and no other
/// sum changes.
pub fn sums_grow_above()
    ensures { SumsGrowAbove }
{}

/// Where a clock begins in a text, none ran in its heading's section, and there stand now the lines of one that runs; all other
/// bytes stay.
pub fn acts_begin_one_clock()
    ensures { ActsBeginOneClock }
{}

/// Where a clock ends in a text, only its heading's section changes, and of it only the clock's line.
pub fn acts_end_one_clock()
    ensures { ActsEndOneClock }
{}

/// Where a clock is cancelled in a text, only its heading's section changes, and loses the clock alone.
pub fn acts_cancel_one_clock()
    ensures { ActsCancelOneClock }
{}

/// Behind a clock that ends in a text the sums of its heading and of the ancestors are the former ones and its minutes, in days
/// that hold both ends, and no other sum changes.
pub fn acts_add_minutes()
    ensures { ActsAddMinutes }
{}

/// What an act left is taken back to the text in which it was done, byte for byte, and any other text is refused.
pub fn acts_are_taken_back()
    ensures { ActsAreTakenBack }
{}

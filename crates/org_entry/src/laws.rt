//! Laws of the definitions. Each is a function without parameters whose contract is the law.
ghost use Rattle.org_entry.specs.Examples.{ExamplesHold};
ghost use Rattle.org_entry.specs.Laws.{EntriesAreOfSections, HeadsAreOfTheirLines, LinesAreRead, PlanningIsOfItsLine, StampsRise};

/// A text that is cut where a heading line begins has the entries of its first part, then those of its second: what a
/// section says depends on the settings and on that section alone.
#[tactic(auto, using(crate::proofs::CutLemmas::entries_of_sections))]
pub fn entries_are_of_sections()
    ensures { EntriesAreOfSections }
{}

/// The head of a section's entry is what its heading line says by the file's settings, the heading line being the first
/// of the entry's text.
#[tactic(auto, using(crate::proofs::HeadLemmas::heads_are_of_their_lines))]
pub fn heads_are_of_their_lines()
    ensures { HeadsAreOfTheirLines }
{}

/// The planning of a section's entry is what its line of the class Planning says, with places from the section's start,
/// and none where no line has that class.
pub fn planning_is_of_its_line()
    ensures { PlanningIsOfItsLine }
{}

/// In every section a line of the class Planning is read as planning, one of the class Clock as a clock, and one of the
/// class Node as a property.
#[tactic(auto, using(crate::proofs::ReadLemmas::lines_are_read))]
pub fn lines_are_read()
    ensures { LinesAreRead }
{}

/// The active stamps of an entry stand by their places in the section, those of its planning line among them.
pub fn stamps_rise()
    ensures { StampsRise }
{}

/// An active stamp counts, and an inactive one doesn't.
pub fn examples_hold()
    ensures { ExamplesHold }
{}

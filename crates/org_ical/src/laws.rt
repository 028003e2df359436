//! Laws about the definitions in specs/.
ghost use Rattle.org_ical.specs.Examples.{ExamplesHold};
ghost use Rattle.org_ical.specs.Laws.{LinesAreShort, LinesReadBack, ListsReadBack, UidsDiffer, ValuesReadBack};

/// Whatever the texts of a calendar are, a reader finds the lines of its properties, one for each, and no other.
pub fn lines_read_back()
    ensures { LinesReadBack }
{}

/// No line has more octets than it may.
pub fn lines_are_short()
    ensures { LinesAreShort }
{}

/// A reader takes the value of a text for that one text, without its control characters.
#[tactic(auto, using(crate::proofs::ValueLemmas::values_read_back))]
pub fn values_read_back()
    ensures { ValuesReadBack }
{}

/// And the values of some texts for these.
#[tactic(auto, using(crate::proofs::ValueLemmas::lists_read_back))]
pub fn lists_read_back()
    ensures { ListsReadBack }
{}

/// No two components have one name, whatever their keys are.
#[tactic(auto, using(crate::proofs::UidLemmas::uids_differ))]
pub fn uids_differ()
    ensures { UidsDiffer }
{}

/// Texts with signs and without, lines that are folded and that aren't, days and times, equal keys, and a calendar.
pub fn examples_hold()
    ensures { ExamplesHold }
{}

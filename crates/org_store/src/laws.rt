//! Laws of the definitions. Each is a function without parameters whose contract is the law.
ghost use Rattle.org_store.specs.Laws.{HeadingsAreThere, KeepsUntouchedEntries};

/// Where a file's settings stay, a change leaves what the sections outside the touched ones say.
#[tactic(auto, using(crate::proofs::LawLemmas::change_keeps_untouched_entries))]
pub fn change_keeps_untouched_entries()
    ensures { KeepsUntouchedEntries }
{}

/// At the place of a heading its text has the heading line that rows show: from the byte on, and as the line of that
/// number.
pub fn headings_are_there()
    ensures { HeadingsAreThere }
{}

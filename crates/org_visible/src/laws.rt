//! Laws about the definitions in specs/.
ghost use Rattle.org_visible.specs.Examples.{ExamplesHold};
ghost use Rattle.org_visible.specs.Laws.{CleanStands, StringsReadBack, VisibleIsClean};

/// What is shown of a text has no control character, no mark that turns text around, and none that hides it.
#[tactic(auto, using(crate::proofs::CleanLemmas::visible_is_clean))]
pub fn visible_is_clean()
    ensures { VisibleIsClean }
{}

/// A text without such characters is shown to a person as it is.
#[tactic(auto, using(crate::proofs::StandLemmas::clean_stands))]
pub fn clean_stands()
    ensures { CleanStands }
{}

/// What is written of a text in a string of JSON is read as that text.
pub fn strings_read_back()
    ensures { StringsReadBack }
{}

/// Control characters, marks that turn and marks that hide, with their neighbours, in each form.
pub fn examples_hold()
    ensures { ExamplesHold }
{}

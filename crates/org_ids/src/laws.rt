//! Laws about the definitions in specs/.
ghost use Rattle.org_ids.specs.Examples.{ExamplesHold};
ghost use Rattle.org_ids.specs.Laws.{FewStrangersFit, IdsNameWhatWasListed, SummedAreMeant};

/// Whatever has the same bytes summed has that file and those titles, or that ID, and that text where others had the same.
#[tactic(auto, using(crate::proofs::LawLemmas::summed_are_meant))]
pub fn summed_are_meant()
    ensures { SummedAreMeant }
{}

/// From files where an id was printed to any files later: what it names was meant, or it names none. The premise is that no
/// stranger has its letters.
#[tactic(auto, using(crate::proofs::LawLemmas::ids_name_what_was_listed))]
pub fn ids_name_what_was_listed()
    ensures { IdsNameWhatWasListed }
{}

/// Of all sums so few begin with an id's letters that this premise fails by one chance in a million.
pub fn few_strangers_fit()
    ensures { FewStrangersFit }
{}

/// Titles with counts and without, headings of one name, and ids at their borders.
pub fn examples_hold()
    ensures { ExamplesHold }
{}

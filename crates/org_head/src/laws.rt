//! Laws of the definitions. Each is a function without parameters whose contract is the law.
ghost use Rattle.org_head.specs.Examples.{ExamplesHold};
ghost use Rattle.org_head.specs.Laws.{PartsAreThose, PartsAreDetermined};

/// Each heading line is the spelling of the parts that are read.
#[tactic(auto, using(crate::proofs::PartsHold::has_parts))]
pub fn heading_line_has_its_parts()
    ensures { PartsAreThose }
{}

/// A heading line is the spelling of no other parts.
pub fn heading_line_has_no_other_parts()
    ensures { PartsAreDetermined }
{}

/// A heading without a cookie has the default that its file names, and a minus stands in no tag.
pub fn examples_hold()
    ensures { ExamplesHold }
{}

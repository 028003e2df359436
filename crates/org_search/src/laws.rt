//! Laws of the definitions. Each is a function without parameters whose contract is the law.
ghost use Rattle.org_search.specs.Examples.{ExamplesHold};

/// Case is folded in full, a word stands in longer ones, and slashes want something between them.
pub fn examples_hold()
    ensures { ExamplesHold }
{}

//! Laws of the definitions. Each is a function without parameters whose contract is the law.
ghost use Rattle.org_log.specs.Examples.{ExamplesHold};

/// Marks are read, and what is written of a heading follows from what its file asks for.
pub fn examples_hold()
    ensures { ExamplesHold }
{}

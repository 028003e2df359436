//! Laws about the definitions in specs/.
ghost use Rattle.org_answer.specs.Examples.{ExamplesHold};

/// Colours of lines and of parts of pictures, where they begin and where they end.
pub fn examples_hold()
    ensures { ExamplesHold }
{}

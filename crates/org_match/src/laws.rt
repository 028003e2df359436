//! Laws of match expressions. Each is a function without parameters whose contract is the law.
ghost use Rattle.org_match.specs.Examples.{ExamplesHold};

/// What stands between `&` is taken together before what stands between `|`, and `<>` with a pattern holds where it isn't
/// found.
pub fn examples_hold()
    ensures { ExamplesHold }
{}

//! Laws about the definitions in specs/. Each is a function without parameters whose contract is the law.
ghost use Rattle.org_habit.specs.Examples.{ExamplesHold};

/// Units in days, limits, and how urgent a habit is before, on and past its days.
pub fn examples_hold()
    ensures { ExamplesHold }
{}

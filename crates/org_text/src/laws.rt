//! Laws of the definitions. Each is a function without parameters whose contract is the law.
ghost use Rattle.org_text.specs.Laws.{BoundariesCutNothing, LimitsAreNamed};

/// No character of a text is cut at a place exactly where what stands before it and what stands after it are UTF-8.
pub fn boundaries_cut_nothing()
    ensures { BoundariesCutNothing }
{}

/// A text has at most 67,108,864 bytes.
pub fn limits_are_named()
    ensures { LimitsAreNamed }
{}

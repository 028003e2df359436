//! Laws of what every layer shares. Each is a function without parameters whose contract is the law.
ghost use Rattle.org_base.specs.Examples.{ExamplesHold};
ghost use Rattle.org_base.specs.Limits.{LimitsAreNamed};

/// There are at most 256 files, and an agenda has at most 366 days.
pub fn limits_are_named()
    ensures { LimitsAreNamed }
{}

/// Words stand between white space, `Todo` and `TODO` are one, names are kept in small letters, and a file's name has at most
/// 255 bytes, none of them a space or a control character. A tick adds one to its own count.
pub fn examples_hold()
    ensures { ExamplesHold }
{}

//! Laws of the definitions. Each is a function without parameters whose contract is the law.
ghost use Rattle.orgq_files.specs.Examples.{ExamplesHold};

/// A text's own keywords count, those of a block don't, and a line of keywords stands after a text that names none. An option
/// that is named before counts alone, and the others of a file count with those that are named.
pub fn examples_hold()
    ensures { ExamplesHold }
{}

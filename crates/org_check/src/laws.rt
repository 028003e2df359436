//! Laws of the definitions. Each is a function without parameters whose contract is the law.
ghost use Rattle.org_check.specs.Clocks.{TheseCountNothing};
ghost use Rattle.org_check.specs.Examples.{ExamplesHold, PrintedExamplesHold};
ghost use Rattle.org_check.specs.Marked.{AllAreMarked, MarksAreTrue};
ghost use Rattle.org_check.specs.Unclosed.{UnclosedBlocksDontEnd};
ghost use Rattle.org_check.specs.UnreadStamps.{UnreadAreFound};

/// Of a line just those places are found at which a bracket and a date-like text begin and no stamp does.
pub fn unread_are_found()
    ensures { UnreadAreFound }
{}

/// Whatever looks planned in a line of a section and isn't read so has its mark: a bracket and a date-like text where no
/// stamp begins, and in lines of text a planning word, `:PROPERTIES:` alone, `#+BEGIN_X` or `CLOCK:` in front.
pub fn all_are_marked()
    ensures { AllAreMarked }
{}

/// And each mark stands where something looks so.
pub fn marks_are_true()
    ensures { MarksAreTrue }
{}

/// Where a line of text of a section says that a block opens, none of the section's later lines ends that block.
pub fn unclosed_blocks_dont_end()
    ensures { UnclosedBlocksDontEnd }
{}

/// A clock has no minute in any period just where it runs still, or ends no later than it begins.
pub fn these_count_nothing()
    ensures { TheseCountNothing }
{}

/// What looks like a stamp, lines that look planned, clocks that count nothing, and what is shown of control characters.
pub fn examples_hold()
    ensures { ExamplesHold }
{}

/// Which kinds are wanted and count, what is said of a finding, and how it is printed.
pub fn printed_examples_hold()
    ensures { PrintedExamplesHold }
{}

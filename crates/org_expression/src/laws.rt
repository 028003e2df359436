//! Laws of the grammar, of numbers and of named days. Each is a function without parameters whose contract is the law.
ghost use Rattle.org_expression.specs.Examples.{ExamplesHold};
ghost use Rattle.org_expression.specs.Laws.{DaysAreNamed, FrontsAreDecimals, NumbersAreValues, OneLongestFront, OneTree, ReadAgain};

/// No text is the spelling of two expressions.
pub fn one_tree()
    ensures { OneTree }
{}

/// What the automaton gathers of a spelled expression is the expression.
pub fn read_again()
    ensures { ReadAgain }
{}

/// The place of a refusal is determined: a text has one longest front that begins some expression.
pub fn one_longest_front()
    ensures { OneLongestFront }
{}

/// The number of one to eighteen digits, and of those after a point, is their value: its billionths are the digits before
/// the point and nine after it, with zeros where digits lack.
pub fn numbers_are_values()
    ensures { NumbersAreValues }
{}

/// The number at the front of a text is that of the longest decimal there, and that of 0 where there is none.
pub fn fronts_are_decimals()
    ensures { FrontsAreDecimals }
{}

/// A time in angle brackets names a day just where it is spelled so, as `<today>`, `<tomorrow>` or `<+5d>`, and the day is
/// the calendar's.
pub fn days_are_named()
    ensures { DaysAreNamed }
{}

/// A negative number is less than 0, and a property has the time of the stamp at its front, whatever follows.
pub fn examples_hold()
    ensures { ExamplesHold }
{}

//! Laws of the definitions. Each is a function without parameters whose contract is the law.
ghost use Rattle.org_history.specs.Examples.{ExamplesHold};
ghost use Rattle.org_history.specs.Laws.{ChangesAreFound, ChangesAreTakenBack, HistoriesAreRead};
ghost use Rattle.org_history.specs.Settled.{NewestMayFail};

/// A history that was written is read back: its path, the text that was left, and the bytes of its changes.
pub fn histories_are_read()
    ensures { HistoriesAreRead }
{}

/// The change that was put in front of others is the one that is found, and behind it the others are.
pub fn changes_are_found()
    ensures { ChangesAreFound }
{}

/// Before a change stands the text in which it was made, byte for byte.
pub fn changes_are_taken_back()
    ensures { ChangesAreTakenBack }
{}

/// With a change put in front of others before it is made, both the text that it leaves and the one in which it is made have the changes
/// by which they came to be: wherever the write is stopped, the right one is taken back.
pub fn newest_may_fail()
    ensures { NewestMayFail }
{}

/// Numbers, pieces and histories are read, and ordinary changes taken back.
pub fn examples_hold()
    ensures { ExamplesHold }
{}

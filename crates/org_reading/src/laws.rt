//! That what is shown folded is what it stands for.
ghost use Rattle.org_reading.specs.Laws.{FoldsHold};

/// Each definition is what the page of the definitions shows in its place.
pub fn folds_hold()
    ensures { FoldsHold }
{}

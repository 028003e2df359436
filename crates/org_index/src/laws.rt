//! Laws of the definitions. Each is a function without parameters whose contract is the law.
ghost use Rattle.org_index.specs.Laws.{NearIsMeant};

/// A stamp is near days just where it repeats from a day no later than their last; or a day of its written range lies in
/// them, or its day, or its day plus its delay; or today does, and its day less its warning time is no later than today. A
/// range with a repeater repeats in the second profile alone.
pub fn near_is_meant()
    ensures { NearIsMeant }
{}

//! Laws of the tree. Each is a function without parameters whose contract is the law.
ghost use Rattle.org_outline.specs.Laws.{AncestorsAreParentsUp, AncestorsFall, AncestorsOfAncestors, EndIsNotBelow, LaterHasNoSay, OthersStandAlone, ParentIsNearest, SubtreeIsWhatIsBelow, SubtreesNest, TreesStandAlone};

/// The parent is the nearest earlier heading of a smaller level, and missing exactly where there is no such heading.
pub fn parent_is_nearest()
    ensures { ParentIsNearest }
{}

/// The ancestors are the parent, if there is one, and its ancestors.
#[tactic(auto, using(crate::proofs::Chain::ancestors_step))]
pub fn ancestors_are_parents_up()
    ensures { AncestorsAreParentsUp }
{}

/// Ancestors stand earlier and have smaller levels.
pub fn ancestors_fall()
    ensures { AncestorsFall }
{}

/// An ancestor of an ancestor is an ancestor.
#[tactic(auto, using(crate::proofs::Below::ancestors_of_ancestors))]
pub fn ancestors_of_ancestors()
    ensures { AncestorsOfAncestors }
{}

/// The entries below a heading are the headings after it up to its subtree's end.
pub fn subtree_is_what_is_below()
    ensures { SubtreeIsWhatIsBelow }
{}

/// A subtree ends at a heading that isn't below its heading.
pub fn end_is_not_below()
    ensures { EndIsNotBelow }
{}

/// Two subtrees nest or are apart.
#[tactic(auto, using(crate::proofs::Below::subtrees_nest))]
pub fn subtrees_nest()
    ensures { SubtreesNest }
{}

/// An entry that is no heading has no parent, and its end is right after it.
pub fn others_stand_alone()
    ensures { OthersStandAlone }
{}

/// Entries before a tree have no say in it.
#[tactic(auto, using(crate::proofs::Trees::trees_stand_alone))]
pub fn trees_stand_alone()
    ensures { TreesStandAlone }
{}

/// Entries after an entry have no say in its ancestors.
#[tactic(auto, using(crate::proofs::Trees::later_has_no_say))]
pub fn later_has_no_say()
    ensures { LaterHasNoSay }
{}

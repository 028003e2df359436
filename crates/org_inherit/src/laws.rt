//! Laws of inheritance. Each is a function without parameters whose contract is the law.
ghost use Rattle.org_inherit.specs.Examples.{ExamplesHold};
ghost use Rattle.org_inherit.specs.Laws.{HiddenIsInherited, LaterSaysNothing, TagsAreInherited, TagsAreOnce, TagsKeepTheirOrder, TreesInheritAlone};

/// What has a hidden ancestor is hidden.
pub fn hidden_is_inherited()
    ensures { HiddenIsInherited }
{}

/// The tags of an entry are those of the file, its own and those of its ancestors.
pub fn tags_are_inherited()
    ensures { TagsAreInherited }
{}

/// No tag stands twice among all tags of an entry.
pub fn tags_are_once()
    ensures { TagsAreOnce }
{}

/// Of equal tags the first stays, and the others keep their order: one tag stands before another exactly where it is named
/// first before the other is, by the file, by the ancestors from the outermost, or by the heading itself.
pub fn tags_keep_their_order()
    ensures { TagsKeepTheirOrder }
{}

/// Entries before a tree have no say in what its entries inherit.
pub fn trees_inherit_alone()
    ensures { TreesInheritAlone }
{}

/// Entries after an entry have no say in what it inherits.
pub fn later_says_nothing()
    ensures { LaterSaysNothing }
{}

/// Only `ARCHIVE` in capitals hides; a heading's own category comes before the file's, and the file's drawer before its setting
/// lines.
pub fn examples_hold()
    ensures { ExamplesHold }
{}

//! Laws of sums. Each is a function without parameters whose contract is the law.
ghost use Rattle.org_sum.specs.Laws.{ClocksAreSmall, EffortsAreSmall, PartsHaveNoMore, PiecesMakeTheWhole, SumsAreOwnAndChildren};

/// A heading's sum is what it counts itself and the sums of its children.
pub fn sums_are_own_and_children()
    ensures { SumsAreOwnAndChildren }
{}

/// What a heading has in the pieces of a period adds up to what it has in the whole.
pub fn pieces_make_the_whole()
    ensures { PiecesMakeTheWhole }
{}

/// A heading has no more in a part of a period than in the whole. So one that has nothing in the whole has nothing in any
/// part.
pub fn parts_have_no_more()
    ensures { PartsHaveNoMore }
{}

/// The clocks of a text have at most the minutes of all years for every eighteen of its bytes: 256 texts of 67,108,864
/// bytes have fewer than 2^63.
pub fn clocks_are_small()
    ensures { ClocksAreSmall }
{}

/// The efforts of a text are at most 9,999 years for every ten of its bytes: those of 256 texts of 67,108,864 bytes are
/// fewer than 2^63 minutes.
pub fn efforts_are_small()
    ensures { EffortsAreSmall }
{}

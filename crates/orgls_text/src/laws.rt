//! Laws of positions and of texts that are open. Each is a function without parameters whose contract is the law.
ghost use Rattle.orgls_text.specs.Examples.{ExamplesHold};
ghost use Rattle.orgls_text.specs.Laws.{BeyondALineIsItsEnd, BeyondTheTextIsItsEnd, OffsetsComeBack, PositionsComeBack, PositionsCutNothing, TextsAreTheirOwn};

/// Where a position can stand, the byte of its position is that place again.
#[tactic(auto, using(crate::proofs::LawLemmas::offsets_come_back))]
pub fn offsets_come_back()
    ensures { OffsetsComeBack }
{}

/// A position that a text has is that of its byte.
#[tactic(auto, using(crate::proofs::LawLemmas::positions_come_back))]
pub fn positions_come_back()
    ensures { PositionsComeBack }
{}

/// A position beyond a line's end is that end.
pub fn beyond_a_line_is_its_end()
    ensures { BeyondALineIsItsEnd }
{}

/// A position beyond the last line is the text's end.
#[tactic(auto, using(crate::proofs::LawLemmas::beyond_the_text_is_its_end))]
pub fn beyond_the_text_is_its_end()
    ensures { BeyondTheTextIsItsEnd }
{}

/// No position cuts a character or the end of a line, whatever it says.
#[tactic(auto, using(crate::proofs::LawLemmas::positions_cut_nothing))]
pub fn positions_cut_nothing()
    ensures { PositionsCutNothing }
{}

/// After any events an address has the text that its own events leave, whatever was told of others.
#[tactic(auto, using(crate::proofs::DocumentLemmas::texts_are_their_own))]
pub fn texts_are_their_own()
    ensures { TextsAreTheirOwn }
{}

/// Characters of two and four bytes, the three ends of lines, positions inside a character, beyond a line and beyond the text.
pub fn examples_hold()
    ensures { ExamplesHold }
{}

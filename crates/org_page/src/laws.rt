//! Laws about the definitions in specs/.
ghost use Rattle.org_page.specs.Examples.{ExamplesHold};
ghost use Rattle.org_page.specs.Laws.{CharactersStand, NoTextMakesMarkup, PagesReadBack, TextsAreHarmless, TitlesReadBack};
ghost use Rattle.org_page.specs.Links.{PathsArePlain};
ghost use Rattle.org_page.specs.Sums.{BlocksAddUp, ColumnsAddUp};

/// A page is read as it is meant: which characters are of tags, which of values, and which are words.
#[tactic(auto, using(crate::proofs::ReaderLemmas::pages_read_back))]
pub fn pages_read_back()
    ensures { PagesReadBack }
{}

/// The tags of a page are those of its pieces, with the names of their attributes, whatever the texts are.
#[tactic(auto, using(crate::proofs::ReaderLemmas::no_text_makes_markup))]
pub fn no_text_makes_markup()
    ensures { NoTextMakesMarkup }
{}

/// The words between the tags of a title are the title, and the value in them is its link, character by character.
#[tactic(auto, using(crate::proofs::ReaderLemmas::titles_read_back))]
pub fn titles_read_back()
    ensures { TitlesReadBack }
{}

/// A text has no sign of a tag and no quotation mark but by its name.
#[tactic(auto, using(crate::proofs::ReaderLemmas::texts_are_harmless))]
pub fn texts_are_harmless()
    ensures { TextsAreHarmless }
{}

/// What is a character of a page is shown as it is.
pub fn characters_stand()
    ensures { CharactersStand }
{}

/// An encoded path has nothing but letters, digits, a few signs that mean nothing, and percent signs.
#[tactic(auto, using(crate::proofs::LinkLemmas::paths_are_plain))]
pub fn paths_are_plain()
    ensures { PathsArePlain }
{}

/// The numbers of a table add up: what its files have is what all its days have.
#[tactic(auto, using(crate::proofs::SumLemmas::columns_add_up))]
pub fn columns_add_up()
    ensures { ColumnsAddUp }
{}

/// The parts of a bar are as long together as its minutes.
#[tactic(auto, using(crate::proofs::SumLemmas::blocks_add_up))]
pub fn blocks_add_up()
    ensures { BlocksAddUp }
{}

/// Texts, tags, paths, times and sums.
pub fn examples_hold()
    ensures { ExamplesHold }
{}

//! What holds of every picture.

ghost use Rattle.svg_text.specs.Picture.{WordsAreNoMarkup};

/// The characters `<`, `>` and `"` of a picture are those that it has with empty words, an empty title and an empty
/// description: what words say opens and closes no element and no value.
#[tactic(auto, using(crate::proofs::Markup::no_markup))]
pub fn words_are_no_markup()
    ensures { WordsAreNoMarkup }
{}

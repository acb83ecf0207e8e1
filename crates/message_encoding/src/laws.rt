//! What holds of each description that tells its parts as claimdecode does, as a fact that a caller cites by a call.

ghost use Rattle.std.specs.Prelude.{◌≡◌, ◌↔◌, ℕ, List, All, Some, None};
ghost use Rattle.serde_json.specs.Data.{Items};
ghost use Rattle.message_encoding.specs.JsonParts.{IsOfBytes, PrintedReadsBack, Told, description_of, told_bytes};
ghost use Rattle.message_encoding.specs.Parts.{AreAlike, DifferAt, first_unlike, message_of};

/// Parts that are told in JSON are these parts' bytes again. The premise is what input_text proves of all bytes.
pub fn parts_read_back()
    ensures { PrintedReadsBack → (parts : List Told) → All IsOfBytes parts
        → message_of (description_of parts) ≡ told_bytes parts }
{}

/// The first part that two descriptions tell otherwise: a place is told exactly where the parts there differ and none
/// before them does, and none exactly where all parts are alike.
pub fn first_other_laws()
    ensures place { (parts others : Items) (place : ℕ)
        → first_unlike 0 parts others ≡ Some place ↔ DifferAt place parts others }
    ensures none { (parts others : Items) → first_unlike 0 parts others ≡ None ↔ AreAlike parts others }
{}

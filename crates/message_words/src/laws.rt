//! What holds of all sentences and of all descriptions.

ghost use Rattle.std.specs.Prelude.{◌≡◌, ◌<◌, ℕ, Bool, List, Some, true};
ghost use Rattle.std.specs.List.{AllByRecursion, list_all};
ghost use Rattle.input_text.specs.Printing.{printed};
ghost use Rattle.message_words.specs.Described.{description};
ghost use Rattle.message_parts.specs.declared.dissecting.MessageKind.{MessageKind};
ghost use Rattle.message_words.specs.declared.page.Style.TheVariants.{Json};
ghost use Rattle.message_words.specs.Members.{is_well_formed, sentences};
ghost use Rattle.message_words.specs.Objects.{listing_in, shown};
ghost use Rattle.message_words.specs.ReadBack.{message_listing};

/// The members of each sentence, in which the places of facts are marked, are members of an object of JSON, each after
/// a comma: a key, and a word or a fact.
pub fn sentence_laws()
    ensures { list_all is_well_formed sentences ≡ true }
{}

/// From the text of a description in JSON is read again what it tells of its message and of each part: the members of
/// its object up to the list of parts, and the members of each part. A value is told as it is printed.
#[tactic(auto, using(crate::proofs::ReadBack::description_read, crate::proofs::ReadBack::printed_shown))]
pub fn description_laws()
    ensures read { (dropped : Bool × Bool) (line : ℕ) (kind : MessageKind) (bytes : List ℕ)
        → listing_in (description Json dropped line kind bytes) ≡ Some (message_listing dropped line kind bytes) }
    ensures printed { (bytes : List ℕ) → AllByRecursion (λ b. b < 256) bytes → shown (printed bytes) ≡ printed bytes }
{}

//! What holds of each line that spells a message.

ghost use Rattle.std.specs.Prelude.{◌≡◌, ◌<◌, ◌^◌, ℕ, All, List, [], Ok, false};
ghost use Rattle.input_text.specs.Lines.{is_skipped};
ghost use Rattle.message_encoding.specs.JsonParts.{PrintedReadsBack};
ghost use Rattle.message_lines.specs.Lines.{spelled};
ghost use Rattle.message_lines.specs.Answers.{spelling_of};
ghost use Rattle.message_words.specs.declared.spelling.Spelling.TheVariants.{Hex, Printed};

/// The line that spells a message is not skipped where lines are read, and spells that message. The premise is what input_text proves
/// of all bytes.
pub fn line_laws()
    ensures printed { PrintedReadsBack → (bytes : List ℕ) → All (λ b. b < 2 ^ 8) bytes
        → spelled Printed (spelling_of Printed bytes) ≡ Ok bytes }
    ensures hex { (bytes : List ℕ) → All (λ b. b < 2 ^ 8) bytes → spelled Hex (spelling_of Hex bytes) ≡ Ok bytes }
    ensures kept { (bytes : List ℕ) → All (λ b. b < 2 ^ 8) bytes → (bytes ≡ [] → ⊥)
        → is_skipped (spelling_of Printed bytes) ≡ false }
    ensures kept_hex { (bytes : List ℕ) → All (λ b. b < 2 ^ 8) bytes → (bytes ≡ [] → ⊥)
        → is_skipped (spelling_of Hex bytes) ≡ false }
{}

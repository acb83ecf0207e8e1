//! What holds of every text, as facts that a caller cites by a call.

ghost use Rattle.std.specs.Prelude.{◌≡◌, ◌≢◌, ℕ, ℤ, ◌^◌, ◌<◌, ◌≤◌, pos, List, length, codes, false, Ok};
ghost use Rattle.std.specs.Char.{is_ascii_digit};
ghost use Rattle.overpunch.specs.Number.{number_of, number_text};
ghost use Rattle.overpunch.specs.Amount.{IsAmount, last_of, amount_of, amount_text};

/// What a number text spells has at most its digits.
#[tactic(auto, using(crate::proofs::OwnNumbers::read_in_range))]
pub fn number_in_range()
    ensures { (digits : ℕ) (text : List ℕ) (number : ℕ) → number_of digits text ≡ Ok number → number < 10 ^ digits }
{}

/// A number's own text reads back as that number, where the field has room for it.
#[tactic(auto, using(crate::proofs::OwnNumbers::own_reads))]
pub fn number_reads_back()
    ensures { (digits number : ℕ) → 1 ≤ digits → number < 10 ^ digits
        → number_of digits (number_text number) ≡ Ok number }
{}

/// No text of a number is shorter than its own, and no other is as short.
#[tactic(auto, using(crate::proofs::OwnNumbers::own_shortest, crate::proofs::OnlyShortest::number_only))]
pub fn number_shortest()
    ensures shortest { (digits : ℕ) (text : List ℕ) (number : ℕ) → number_of digits text ≡ Ok number
        → length (number_text number) ≤ length text }
    ensures only { (digits : ℕ) (text : List ℕ) (number : ℕ) → number_of digits text ≡ Ok number
        → length text ≤ length (number_text number) → text ≡ number_text number }
{}

/// What an amount text spells is an amount.
#[tactic(auto, using(crate::proofs::OwnAmounts::amount_fits))]
pub fn amount_in_range()
    ensures { (text : List ℕ) (cents : ℤ) → amount_of text ≡ Ok cents → IsAmount cents }
{}

/// An amount's own text reads back as that amount.
#[tactic(auto, using(crate::proofs::OwnAmounts::own_amount_reads))]
pub fn amount_reads_back()
    ensures { (cents : ℤ) → IsAmount cents → amount_of (amount_text cents) ≡ Ok cents }
{}

/// The text of zero is `{`. No text of an amount is shorter than its own, and of an amount other
/// than zero no other text that ends in a byte of the table is as short.
#[tactic(auto, unfolding(crate::specs::Amount::amount_text), using(crate::proofs::OwnAmounts::own_amount_shortest, crate::proofs::OnlyShortest::amount_only))]
pub fn amount_shortest()
    ensures zero { amount_text (pos 0) ≡ codes "{" }
    ensures shortest { (text : List ℕ) (cents : ℤ) → amount_of text ≡ Ok cents
        → length (amount_text cents) ≤ length text }
    ensures only { (text : List ℕ) (cents : ℤ) → amount_of text ≡ Ok cents → cents ≢ pos 0
        → is_ascii_digit (last_of text) ≡ false → length text ≤ length (amount_text cents) → text ≡ amount_text cents }
{}

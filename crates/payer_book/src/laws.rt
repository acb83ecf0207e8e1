//! What is true of the rows that a book at rest takes, for the proofs of the crates above.

ghost use Rattle.std.specs.Prelude.{◌≡◌, ℕ, List, [], ◌∷◌, Some};
ghost use Rattle.claim_model.specs.Words.{TxnId};
ghost use Rattle.claim_model.specs.Rows.{Book};
ghost use Rattle.payer_book.specs.Added.{KeptRow, added, added_all};
ghost use Rattle.payer_book.specs.Following.{RowStands, IsKeptBook, KeepsRows};

use claim_model::bytes_keep_laws;

/// The rows that `BookAtRest::add` takes are those that follow the rules: at each place the ruling is the one that is
/// settled, or, of a claim that is to be priced, a rejection with 70, or with any codes where the payer asks, or a payment
/// in any amounts that can be written.
pub fn kept_rows_follow_rules()
    ensures only { (b : Book) (id : TxnId) (request answer : List ℕ) (after : Book)
        → added b id request answer ≡ Some after → RowStands b id request answer after }
    ensures each { (b : Book) (id : TxnId) (request answer : List ℕ) (after : Book)
        → IsKeptBook b → RowStands b id request answer after → added b id request answer ≡ Some after }
{
    bytes_keep_laws();
}

/// What was added to a book stands after its rows as it was kept, and nothing else is changed.
pub fn added_rows_are_kept()
    ensures one { (b : Book) (id : TxnId) (request answer : List ℕ) (after : Book)
        → added b id request answer ≡ Some after
        → KeepsRows b (record { id = id; request = request; answer = answer } ∷ []) after }
    ensures all { (b : Book) (rows : List KeptRow) (after : Book)
        → added_all (Some b) rows ≡ Some after → KeepsRows b rows after }
{
    bytes_keep_laws();
}

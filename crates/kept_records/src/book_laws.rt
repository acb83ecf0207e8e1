//! What holds of every book at rest and its text, as facts that a caller cites by a call.

ghost use Rattle.std.specs.Prelude.{◌≡◌, ◌<◌, ℕ, List, map, slice_index, Ok};
ghost use Rattle.claim_model.specs.Rows.{Book, BookSettings};
ghost use Rattle.payer_book.specs.Added.{kept_row};
ghost use Rattle.kept_records.specs.Books.{book_text, book_in};
ghost use Rattle.kept_records.specs.BookLaws.{HaveOne, FitsBook, IsKeepable, IsTextOf};

use payer_book::added_rows_are_kept;

/// A book that can be made is read back from its text: that of version 2, and that of version 1 where each request has
/// exactly one transaction.
pub fn book_reads_back()
    ensures current { (b : Book) → IsKeepable b → book_in b.payer b.settings (book_text 2 b) ≡ Ok b }
    ensures earlier { (b : Book)
        → IsKeepable b → HaveOne (map kept_row b.rows) → book_in b.payer b.settings (book_text 1 b) ≡ Ok b }
{}

/// Bytes that are read as a book are its text, of version 2, or of version 1 where each request has exactly one
/// transaction, and it has the payer and the settings that were asked for and can be made.
pub fn book_is_its_text()
    ensures { (payer : ℕ) (settings : BookSettings) (bytes : List ℕ) (b : Book)
        → ((i : ℕ) → slice_index bytes i < 256)
        → book_in payer settings bytes ≡ Ok b → IsTextOf payer settings bytes b }
{
    added_rows_are_kept();
}

/// Two books share no text of any version, but where the payer, the first serial, the plan and what is kept of each row
/// are the same: a text does not have the cap.
pub fn books_share_no_text()
    ensures { (version other : ℕ) (b d : Book) → FitsBook b → FitsBook d → book_text version b ≡ book_text other d
        → (version ≡ other) × (b.payer ≡ d.payer) × (b.settings.serial ≡ d.settings.serial)
        × (b.plan ≡ d.plan) × (map kept_row b.rows ≡ map kept_row d.rows) }
{}

//! What is true of the reports over several books of a payer, for whoever adds them up.

ghost use Rattle.std.specs.Prelude.{◌≡◌, ℕ, List, Option, Some, filter, true};
ghost use Rattle.claim_reports.specs.declared.books.Span.{Span};
ghost use Rattle.claim_reports.specs.declared.choice.Choice.{Choice};
ghost use Rattle.claim_reports.specs.declared.choice.Paid.{Paid};
ghost use Rattle.claim_reports.specs.declared.daily.DailyColumns.{DailyColumns};
ghost use Rattle.claim_reports.specs.declared.daily.DailyRemittance.{DailyRemittance};
ghost use Rattle.claim_reports.specs.declared.daily.DailyRuling.{DailyRuling};
ghost use Rattle.claim_reports.specs.declared.totals.By.{By};
ghost use Rattle.claim_reports.specs.BookLaws.{AreOwned, AreSplit, RemitTogether, added, of_all, of_books, paid_of, remitted_of, rulings_of, total_over};
ghost use Rattle.claim_reports.specs.Daily.{daily_in};
ghost use Rattle.claim_reports.specs.Shelves.{has};
ghost use Rattle.claim_reports.specs.Tables.{given_by};
ghost use Rattle.claim_reports.specs.Totals.{is_chosen};

/// The payments that are chosen over some books are those that are chosen of the payments of these books. And where books are
/// split into two parts, the totals of each number over all of them are those over both parts added up: payments, cents,
/// reversed payments and reversed cents.
#[tactic(auto, using(crate::proofs::Shares::members_chosen, crate::proofs::Shares::totals_together))]
pub fn totals_laws()
    ensures members { (c : Choice) (books : List Span) (paid : List Paid)
        → filter (is_chosen (of_books c books)) paid ≡ filter (is_chosen (of_all c)) (paid_of books paid) }
    ensures together { (by : By) (key : Option ℕ) (c : Choice) (all these those : List Span) (paid : List Paid)
        → AreSplit all these those
        → total_over by key c paid all ≡ added (total_over by key c paid these) (total_over by key c paid those) }
{}

/// The rulings of some books in a table are, of those of more books, those of these. And where books are split into two parts,
/// and each authorization is of the book that ruled on it, what stood, what was paid, what was taken back and what stands over
/// all of them are those over both parts added up.
#[tactic(auto, using(crate::proofs::Members::members_ruled))]
pub fn remittance_laws()
    ensures members { (c : DailyColumns) (asked : DailyRemittance) (all these : List Span)
        (rows : List (List (List ℕ))) (rulings : List DailyRuling)
        → ((number : ℕ) → has these number ≡ true → has all number ≡ true)
        → given_by (daily_in c (remitted_of asked all)) rows ≡ Some rulings
        → given_by (daily_in c (remitted_of asked these)) rows ≡ Some (rulings_of these rulings) }
    ensures together { (asked : DailyRemittance) (owner : ℕ → ℕ) (all these those : List Span)
        (rulings : List DailyRuling) → AreSplit all these those → AreOwned owner rulings
        → RemitTogether asked rulings all these those }
{}

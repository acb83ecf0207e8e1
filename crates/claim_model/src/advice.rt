//! What payers that ask rule, and what those that do not.

ghost use Rattle.std.specs.Prelude.{◌≡◌, ℕ, true, false, List, None, Ok};
ghost use Rattle.claim_model.specs.Words.{Advice, TxnId, Ruling};
ghost use Rattle.claim_model.specs.Context.{Context};
ghost use Rattle.claim_model.specs.Rows.{Book};
ghost use Rattle.claim_model.specs.Book.{row_of, unadvised, Answered, answered};
ghost use Rattle.claim_model.specs.Advised.{EntersAdvised};

/// A payer that asks rules a new request as its advice says: at each place what is settled without a price, or the amounts or
/// the codes that the advice has there. Nothing is paid or rejected in their place. Amounts are taken from a payment and from a
/// duplicate alike, since a system that is asked again after a crash says a duplicate; and only of the claim's own prescription.
/// A payment is taken back by its reversal, where the payer does not ask about reversals; where it does, as the advice says of
/// the reversal's own prescription: taken back, or rejected with its codes.
#[tactic(auto, using(crate::proofs::Advising::enters_advised))]
pub fn asking_payers_rule_as_advised()
    ensures { (ctx : Context) (b : Book) (advice : Advice) (id : TxnId) (request : List ℕ) (a : Answered)
        → b.settings.asks ≡ true → row_of id b.rows ≡ None → answered ctx b advice id request ≡ Ok a
        → EntersAdvised ctx b advice id request a }
{}

/// A payer that does not ask rules by its plan, whatever an advice says.
#[tactic(auto, using(crate::proofs::Advising::asks_nobody))]
pub fn other_payers_ask_nobody()
    ensures { (ctx : Context) (b : Book) (advice : Advice) (id : TxnId) (request : List ℕ)
        → b.settings.asks ≡ false → answered ctx b advice id request ≡ answered ctx b unadvised id request }
{}

//! What a pharmacy tells before it keeps it.

ghost use Rattle.std.specs.Prelude.{◌≡◌, ℕ, List, Option, Some, None, Ok};
ghost use Rattle.claim_model.specs.Words.{Advice, TxnId, RequestHeader, Plan, RouteKey, Ruling};
ghost use Rattle.claim_model.specs.Context.{Context};
ghost use Rattle.claim_model.specs.Laws.{Laws, AdvisesWell};
ghost use Rattle.claim_model.specs.Readable.{payer_for, rejection, route_key};
ghost use Rattle.claim_model.specs.Rows.{Book};
ghost use Rattle.claim_model.specs.Book.{Answered, answered, new_row};
ghost use Rattle.claim_model.specs.Settings.{WorldSettings, Accepts};
ghost use Rattle.claim_model.specs.World.{World};
ghost use Rattle.claim_model.specs.Held.{decided, row_at};
ghost use Rattle.claim_model.specs.Promises.{Reached};
ghost use Rattle.crash_safety.specs.Story.{ToldAfterTwo, TwoAnswers};
ghost use Rattle.crash_safety.specs.Told.{IsAsked, ToldForGood, ToldForGoodHere, bad_bins, rerouted};

/// A pharmacy may tell an answer as soon as it has heard it: whatever dies then, no other answer is ever held for that number,
/// and this one comes again, from the payer's row or as the fixed rejection. So what a crash takes of its last hearings is no
/// loss to whom it was told.
pub fn told_answers_are_final()
    ensures disks { ToldForGood }
    ensures here { ToldForGoodHere }
{}

/// Where routes grow, an answer of a payer stays decided, and so does the rejection of a request that has no route still.
#[tactic(auto, using(crate::proofs::Rerouted::answers_outlive, crate::proofs::Rerouted::rejections_outlive))]
pub fn told_answers_outlive_growth()
    ensures answers { (ctx : Context) (route : ℕ → RouteKey → Option ℕ) (w : World) (id : TxnId) (request a : List ℕ)
        (h : RequestHeader) (payer : ℕ) → IsAsked ctx w id request h → payer_for ctx id h ≡ Some payer
        → route id.number (route_key h) ≡ Some payer → decided ctx w id ≡ Some a → decided (rerouted ctx route) w id ≡ Some a }
    ensures rejections { (ctx : Context) (route : ℕ → RouteKey → Option ℕ) (w : World) (id : TxnId) (request : List ℕ)
        (h : RequestHeader) → IsAsked ctx w id request h → payer_for ctx id h ≡ None
        → route id.number (route_key h) ≡ None → decided (rerouted ctx route) w id ≡ Some (rejection ctx h) }
{}

/// But the rejection of a request that gets a route is decided no more: the payer that has no row for it rules on it, and
/// unless it rejects each transaction with the same code, what it answers is not what was told. So a rejection is to be kept
/// before it is told, or no such route may ever be given.
pub fn told_rejections_do_not()
    ensures undecided { (ctx : Context) (route : ℕ → RouteKey → Option ℕ) (w : World) (id : TxnId) (request : List ℕ)
        (h : RequestHeader) (payer : ℕ) → IsAsked ctx w id request h → payer_for ctx id h ≡ None
        → route id.number (route_key h) ≡ Some payer → row_at w payer id ≡ None
        → (decided ctx w id ≡ Some (rejection ctx h)) × (decided (rerouted ctx route) w id ≡ None) }
    ensures another { (ctx : Context) (s : WorldSettings) (route : ℕ → RouteKey → Option ℕ) (w : World) (id : TxnId)
        (request : List ℕ) (h : RequestHeader) (b : Book) (advice : Advice) (a : Answered) → AdvisesWell advice.rulings
        → Reached (rerouted ctx route) s w
        → IsAsked ctx w id request h → Rattle.claim_model.specs.Book.row_of id b.rows ≡ None
        → Rattle.claim_model.specs.Held.book_at w b.payer ≡ Some b
        → answered (rerouted ctx route) b advice id request ≡ Ok a
        → ((new_row (rerouted ctx route) b advice id request).rulings ≡ bad_bins h → ⊥) → a.bytes ≡ rejection ctx h → ⊥ }
{}

/// A computed story of it: one number gets two answers, once its pharmacy has lost the rejection that it told.
pub fn a_lost_rejection_gets_another_answer()
    ensures { (plan : Plan) → TwoAnswers plan }
{}

/// A computed story of a claim: where switches have no disk, its answer may be told after two syncs, the pharmacy's of the
/// submission and the payer's of the ruling.
#[tactic(auto, using(crate::proofs::Storied::told_after_two))]
pub fn told_after_two_syncs()
    ensures { (plan : Plan) → ToldAfterTwo plan }
{}

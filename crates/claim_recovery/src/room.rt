//! What a full book, or one without serials, means for an open entry.

ghost use Rattle.bin_routes.specs.Table.{RouteMaps};
ghost use Rattle.std.specs.Prelude.{◌≡◌, ℕ, ◌<◌, ◌≤◌, true, false, List, length, Option, Some, None, Ok};
ghost use Rattle.plan_rules.specs.Terms.{cleared};
ghost use Rattle.claim_model.specs.Words.{TxnId, RequestHeader, Plan, Change, SetPrice};
ghost use Rattle.claim_model.specs.Bytes.{bytes_with};
ghost use Rattle.claim_model.specs.Context.{Context};
ghost use Rattle.claim_model.specs.Rows.{Book, ruled_rows};
ghost use Rattle.claim_model.specs.Judgement.{next_serial};
ghost use Rattle.claim_model.specs.Book.{last_serial, row_of, Answered, answered};
ghost use Rattle.claim_model.specs.Numbered.{numbered};
ghost use Rattle.claim_model.specs.Journal.{JournalAtRest};
ghost use Rattle.claim_model.specs.Node.{Up, advice_in};
ghost use Rattle.claim_model.specs.Settings.{WorldSettings};
ghost use Rattle.claim_model.specs.World.{World};
ghost use Rattle.claim_model.specs.Held.{journal_at};
ghost use Rattle.claim_model.specs.Promises.{Reached};
ghost use Rattle.claim_recovery.specs.Help.{Timely};
ghost use Rattle.claim_recovery.specs.Recovered.{IsOpen, WouldAnswer, Recovered};
ghost use Rattle.claim_recovery.specs.Room.{HasRoom, IsAskedOf, RoomInBook, Never, AnyEvent, KeepsPlan, WantsSerial, AdvisesAll, AsksOnlyFor, PaysNone, RejectedAfter};

use plan_rules::{cleared_price_is_gone, same_bytes_are_one_product};

/// A book that has no row of a request yet would answer it where it has room for one row and a serial for each
/// of the request's transactions; one that has its row answers it in any case. Where its payer asks, with some advice.
pub fn room_and_serials_suffice()
    ensures { (ctx : Context) (settings : WorldSettings) (w : World) (id : TxnId) (request : List ℕ)
        (header : RequestHeader) (payer : ℕ) (b : Book) → Reached ctx settings w
        → IsAskedOf ctx w id request header payer b → (row_of id b.rows ≡ None → HasRoom ctx b header.count)
        → WouldAnswer ctx w payer id request }
{}

/// Where the payer asks, any advice with a verdict on each claim, and with a consent to each reversal where it asks about these, will do.
pub fn every_advice_suffices()
    ensures { (ctx : Context) (settings : WorldSettings) (w : World) (id : TxnId) (request advice : List ℕ)
        (header : RequestHeader) (payer : ℕ) (b : Book) → Reached ctx settings w
        → IsAskedOf ctx w id request header payer b → b.settings.asks ≡ true → row_of id b.rows ≡ None
        → HasRoom ctx b header.count → AdvisesAll b.settings (advice_in ctx advice).rulings (ctx.orders request)
        → (answer : Answered) × (answered ctx b (advice_in ctx advice) id request ≡ Ok answer) }
{}

/// So an open entry recovers, as `open_entries_recover` says, where the book of its route has its row already, or
/// room for one and serials for its transactions; where it has no route, it does in any case.
pub fn entries_with_room_recover()
    ensures { (ctx : Context) (settings : WorldSettings) (w : World) (id : TxnId) (request : List ℕ)
        (journal : JournalAtRest) → Reached ctx settings w → Timely settings → journal_at w id.pharmacy ≡ Some journal
        → IsOpen w id request → RoomInBook ctx w id request → Recovered ctx w journal id }
{}

/// Where that book is full and has no row of the id, no node ever holds an answer to it, whatever events come.
pub fn full_books_never_answer()
    ensures { (ctx : Context) (settings : WorldSettings) (w : World) (id : TxnId) (request : List ℕ)
        (header : RequestHeader) (payer : ℕ) (b : Book) → Reached ctx settings w
        → IsAskedOf ctx w id request header payer b → row_of id b.rows ≡ None → b.settings.cap ≤ length b.rows
        → Never ctx w id AnyEvent }
{}

/// Where its serials are used up, and its payer does not ask, and the request has a claim that the plan would pay and whose fill has no
/// standing payment, no node ever holds an answer to it, whatever events come but changes of this payer's plan.
pub fn without_serials_no_answer()
    ensures { (ctx : Context) (settings : WorldSettings) (w : World) (id : TxnId) (request : List ℕ)
        (header : RequestHeader) (payer : ℕ) (b : Book) → Reached ctx settings w
        → IsAskedOf ctx w id request header payer b → row_of id b.rows ≡ None
        → last_serial < next_serial b (ruled_rows ctx b.rows) → WantsSerial ctx b request
        → Never ctx w id (KeepsPlan payer) }
{}

/// A change of plan after which none of the request's claims is paid lets it be answered without a serial, where
/// the book has room: each of its claims without a standing payment is then rejected with 70.
pub fn a_plan_change_lets_it_be_rejected()
    ensures { (ctx : Context) (settings : WorldSettings) (w : World) (journal : JournalAtRest) (id : TxnId)
        (request : List ℕ) (header : RequestHeader) (payer : ℕ) (b : Book) (change : Change) (plan : Plan)
        → Reached ctx settings w → Timely settings → journal_at w id.pharmacy ≡ Some journal
        → IsOpen w id request → IsAskedOf ctx w id request header payer b → numbered w.payers payer ≡ Some (Up b)
        → row_of id b.rows ≡ None → b.settings.asks ≡ false → length b.rows < b.settings.cap
        → ctx.reprice b.plan change ≡ Ok plan
        → PaysNone ctx plan request → RejectedAfter ctx w journal id request payer b change plan }
{}

/// As the crates below read bytes, taking a product off the plan is such a change for every request whose claims
/// are all for this product.
pub fn clearing_the_product_is_such_a_change()
    ensures reprices { (routes : RouteMaps) (plan : Plan) (product : List ℕ)
        → (bytes_with routes).reprice plan (SetPrice product None) ≡ Ok (cleared plan product) }
    ensures pays_none { (routes : RouteMaps) (plan : Plan) (product request : List ℕ)
        → AsksOnlyFor (bytes_with routes) product request
        → PaysNone (bytes_with routes) (cleared plan product) request }
{
    cleared_price_is_gone();
    same_bytes_are_one_product();
}

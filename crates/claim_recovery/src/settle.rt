//! How one open entry can always be settled.

ghost use Rattle.std.specs.Prelude.{◌≡◌, ℕ, List, Some};
ghost use Rattle.claim_model.specs.Words.{TxnId};
ghost use Rattle.claim_model.specs.Context.{Context};
ghost use Rattle.claim_model.specs.Journal.{JournalAtRest};
ghost use Rattle.claim_model.specs.Settings.{WorldSettings};
ghost use Rattle.claim_model.specs.World.{World};
ghost use Rattle.claim_model.specs.Held.{journal_at};
ghost use Rattle.claim_model.specs.Promises.{Reached};
ghost use Rattle.claim_recovery.specs.Help.{Timely};
ghost use Rattle.claim_recovery.specs.Recovered.{IsOpen, Answerable, Recovered, RecoveredAlone};

/// From every world that events lead to, an open entry whose request has no route, or whose payer's book would
/// answer it, is settled by a list of accepted events: at most `again` ticks of its own pharmacy, at most three
/// starts of nodes that are down, and at most four deliveries, all of packets that are sent on the way.
pub fn open_entries_recover()
    ensures { (ctx : Context) (settings : WorldSettings) (w : World) (id : TxnId) (request : List ℕ)
        (journal : JournalAtRest) → Reached ctx settings w → Timely settings → journal_at w id.pharmacy ≡ Some journal
        → IsOpen w id request → Answerable ctx w id request → Recovered ctx w journal id }
{}

/// Such a list leaves every other pharmacy, every other entry of this one, and every book as it was, but for
/// the one row that the request may have got in the book of its payer.
pub fn nobody_else_is_touched()
    ensures { (ctx : Context) (settings : WorldSettings) (w : World) (id : TxnId) (request : List ℕ)
        (journal : JournalAtRest) → Reached ctx settings w → Timely settings → journal_at w id.pharmacy ≡ Some journal
        → IsOpen w id request → Answerable ctx w id request → RecoveredAlone ctx w journal id request }
{}

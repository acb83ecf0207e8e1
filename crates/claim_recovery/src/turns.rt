//! Which switches an open entry is sent to in turn.

ghost use Rattle.std.specs.Prelude.{◌≡◌, ℕ, List, Some, slice_get};
ghost use Rattle.claim_model.specs.Words.{TxnId};
ghost use Rattle.claim_model.specs.Context.{Context};
ghost use Rattle.claim_model.specs.Numbered.{numbered};
ghost use Rattle.claim_model.specs.Journal.{Journal, JournalAtRest, circle};
ghost use Rattle.claim_model.specs.Table.{Table};
ghost use Rattle.claim_model.specs.Node.{Up};
ghost use Rattle.claim_model.specs.Settings.{WorldSettings};
ghost use Rattle.claim_model.specs.World.{World};
ghost use Rattle.claim_model.specs.Held.{journal_at};
ghost use Rattle.claim_model.specs.Promises.{Reached};
ghost use Rattle.claim_recovery.specs.Help.{Timely};
ghost use Rattle.claim_recovery.specs.Recovered.{IsOpen, Answerable, RecoveredThrough};
ghost use Rattle.claim_recovery.specs.Turn.{SentTo};

/// Within one circle of ticks an open entry is sent to the switch of each place of its pharmacy's list.
pub fn listed_switches_get_their_turn()
    ensures { (ctx : Context) (settings : WorldSettings) (w : World) (id : TxnId) (request : List ℕ) (j : Journal)
        (place switch : ℕ) → Reached ctx settings w → Timely settings → numbered w.pharmacies id.pharmacy ≡ Some (Up j)
        → IsOpen w id request → slice_get j.rule.nodes place ≡ Some switch
        → SentTo ctx w id request switch (circle j.rule) }
{}

/// So where one listed switch is up, an open entry is settled with no start of a switch: by at most one circle
/// of ticks of its pharmacy, four deliveries, and a start of the pharmacy and of the payer where they are down.
pub fn one_listed_switch_suffices()
    ensures { (ctx : Context) (settings : WorldSettings) (w : World) (id : TxnId) (request : List ℕ)
        (journal : JournalAtRest) (place switch : ℕ) (table : Table) → Reached ctx settings w → Timely settings
        → journal_at w id.pharmacy ≡ Some journal → IsOpen w id request → Answerable ctx w id request
        → slice_get journal.rule.nodes place ≡ Some switch → numbered w.switches switch ≡ Some (Up table)
        → RecoveredThrough ctx w journal id }
{}

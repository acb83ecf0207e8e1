//! What holds wherever the receipts at the tills are those of the journals, and wherever logs are merged.

ghost use Rattle.std.specs.Prelude.{List, IsPermutation};
ghost use Rattle.claim_model.specs.Settings.{opening};
ghost use Rattle.claim_model.specs.World.{Event, run};
ghost use Rattle.claim_model.specs.Logs.{NodeLog};
ghost use Rattle.world_setup.specs.Seen.{settings_seen};
ghost use Rattle.world_setup.specs.declared.settings.WorldSettings.{WorldSettings};
ghost use Rattle.run_merge.specs.Merged.{IsMerged};
ghost use Rattle.node_logged.specs.Setting.{context_of};
ghost use Rattle.node_logged.specs.Replayed.{AreOfWorld, ledgers_of};
ghost use Rattle.node_logged.specs.Tills.{Till};
ghost use Rattle.node_logged.specs.Ledgers.{Ledger, receipts_at, receipts_for};
ghost use Rattle.node_logged.specs.Judged.{AreReceipts};

/// Receipts of which there are as many as entries, and among which each entry has its number and its request, are the entries'
/// numbers and requests in some order, each exactly once: none is missing, none stands twice, and none is of no entry.
pub fn receipts_are_the_entries_each_once()
    ensures { (tills : List Till) (ledger : Ledger)
        → AreReceipts tills ledger → IsPermutation (receipts_at ledger.pharmacy tills) (receipts_for ledger.entries) }
{}

/// Where events are a legal interleaving of logs, each pharmacy's ledger after the calls of its log is that of its journal in
/// the world after the events. So what `judge` compares with the tills is what stands in the world that it gives.
pub fn ledgers_are_the_worlds()
    ensures { (s : WorldSettings) (logs : List NodeLog) (events : List Event) → IsMerged s logs events
        → AreOfWorld (ledgers_of s logs) (run (context_of s) (opening (settings_seen s)) events) }
{}

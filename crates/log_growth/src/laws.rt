//! What the comparison of settings decides, and what it means for logs.

ghost use Rattle.std.specs.Prelude.{◌≡◌, ◌↔◌, ℕ, List, None};
ghost use Rattle.claim_model.specs.Settings.{WorldSettings};
ghost use Rattle.kept_logs.specs.Stamps.{KeptLog};
ghost use Rattle.kept_logs.specs.Logs.{kept_text};
ghost use Rattle.node_service.specs.Refused.{IsRefused};
ghost use Rattle.node_service.specs.declared.fault.ServiceFault.TheVariants.{NotMade};
ghost use Rattle.settings_digest.specs.Digests.{digest_in};
ghost use Rattle.log_growth.specs.Compared.{NodesGrow, node_ungrown};
ghost use Rattle.log_growth.specs.OlderLogs.{WasMade, WasMadeWithRoutes};

/// Of nodes the comparison is exact: it finds none that has not grown where each is there, as it was or with a larger cap,
/// and nowhere else.
#[tactic(auto, using(crate::proofs::NodesGrown::exact))]
pub fn nodes_are_compared_exactly()
    ensures { (old new : WorldSettings) → (node_ungrown old new ≡ None) ↔ NodesGrow old new }
{}

/// A log that its node made under settings that have grown since is never refused as one that the node does not make, but for
/// the one premise: at a switch, that what it rejected for want of a route has none now.
pub fn made_logs_go_over()
    ensures { (text : List ℕ) (log : KeptLog) (place : ℕ) → WasMade text log
        → IsRefused text log.node None (kept_text (digest_in text) log) (NotMade place) → ⊥ }
{}

/// Where settings have grown for the pharmacies that there were, and for new ones in another way, the same holds of a log in
/// which each request has the payer that it had.
pub fn made_logs_with_their_routes_go_over()
    ensures { (text : List ℕ) (log : KeptLog) (place : ℕ) → WasMadeWithRoutes text log
        → IsRefused text log.node None (kept_text (digest_in text) log) (NotMade place) → ⊥ }
{}

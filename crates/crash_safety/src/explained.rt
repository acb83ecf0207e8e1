//! Logs of pharmacies and payers alone.

ghost use Rattle.std.specs.Prelude.{◌≡◌, ℕ, true, List, Option};
ghost use Rattle.std.specs.List.{AllByRecursion};
ghost use Rattle.claim_model.specs.Words.{RouteKey};
ghost use Rattle.claim_model.specs.Context.{Context};
ghost use Rattle.claim_model.specs.Laws.{Laws};
ghost use Rattle.claim_model.specs.Settings.{WorldSettings, Accepts, opening};
ghost use Rattle.claim_model.specs.Node.{Node, Call, Pharmacy, Payer};
ghost use Rattle.claim_model.specs.World.{World, Event};
ghost use Rattle.claim_model.specs.Logs.{log_in};
ghost use Rattle.claim_model.specs.World.{Packet};
ghost use Rattle.crash_safety.specs.Network.{Move};
ghost use Rattle.crash_safety.specs.Runs.{on_disks, in_files};
ghost use Rattle.crash_safety.specs.Diskless.{light};
ghost use Rattle.crash_safety.specs.Explained.{Turn, Explained, IsExplained, IsExplainedOrder, Goes, log_among, outside};
ghost use Rattle.crash_safety.specs.Explains.{explains};
ghost use Rattle.crash_safety.specs.Told.{rerouted};
ghost use Rattle.crash_safety.specs.Greedy.{BeginsAs, GoesOn, HasOrder, RejectionStays};

/// Where each packet that a pharmacy or a payer took is explained by what pharmacies and payers had sent before, there is a
/// legal run with these very calls of pharmacies and payers, in this order: calls of switches are put in. So an audit needs
/// no log of a switch.
#[tactic(auto, using(crate::proofs::Explaining::explained_goes))]
pub fn explained_orders_are_runs()
    ensures { (ctx : Context) (s : WorldSettings) (turns : List Turn)
        → Laws ctx → Accepts ctx s → IsExplainedOrder ctx s turns → Goes ctx (opening s) turns }
{}

/// And of every run the calls of pharmacies and payers are explained, in its order. So such an audit finds a run wherever
/// there is one.
#[tactic(auto, using(crate::proofs::Tracking::runs_explained))]
pub fn runs_are_explained()
    ensures { (ctx : Context) (s : WorldSettings) (events : List Event)
        → Laws ctx → Accepts ctx s → IsExplainedOrder ctx s (outside ctx (opening s) events) }
{}

/// The calls of a pharmacy or a payer among those are its log.
#[tactic(auto, using(crate::proofs::Tracking::pharmacy_logs, crate::proofs::Tracking::payer_logs))]
pub fn outside_has_the_logs()
    ensures pharmacies { (ctx : Context) (w : World) (events : List Event) (k : ℕ)
        → log_among (outside ctx w events) (Pharmacy k) ≡ log_in ctx w events (Pharmacy k) }
    ensures payers { (ctx : Context) (w : World) (events : List Event) (k : ℕ)
        → log_among (outside ctx w events) (Payer k) ≡ log_in ctx w events (Payer k) }
{}

/// Whoever takes one explained call after another is never caught where the logs have an explained order: some node's next call
/// is explained by what was sent so far, whatever was taken before.
#[tactic(auto, using(crate::proofs::Taking::goes_on_explained))]
pub fn explained_calls_go_on()
    ensures { (ctx : Context) (s : WorldSettings) (done turns : List Turn)
        → IsExplainedOrder ctx s turns → BeginsAs done turns → GoesOn ctx done turns }
{}

/// What pharmacies and payers have on their disks, and what lies in their files, has an explained order, whatever was killed
/// and though switches have no disk.
#[tactic(auto, using(crate::proofs::Taking::disks_order, crate::proofs::Taking::files_order))]
pub fn disks_have_orders()
    ensures disks { (ctx : Context) (s : WorldSettings) (moves : List Move)
        → Laws ctx → Accepts ctx s → HasOrder ctx s (on_disks (light ctx s moves)) }
    ensures files { (ctx : Context) (s : WorldSettings) (moves : List Move)
        → Laws ctx → Accepts ctx s → HasOrder ctx s (in_files (light ctx s moves)) }
{}

/// An order that is explained by some routes is explained by others, where no rejection that a pharmacy has on its disk is for
/// a request that they give a route.
#[tactic(auto, using(crate::proofs::Taking::goes_over))]
pub fn explained_orders_go_over()
    ensures { (ctx : Context) (route : ℕ → RouteKey → Option ℕ) (packets : List Packet) (turns : List Turn)
        → AllByRecursion (λ (t : Turn). RejectionStays ctx route t.node t.logged.call) turns
        → Explained ctx packets turns → Explained (rerouted ctx route) packets turns }
{}

/// Whether a call is explained is a test of the packets that were sent, exactly.
#[tactic(auto, using(crate::proofs::Deciding::explains_only, crate::proofs::Deciding::explains_all))]
pub fn explanations_are_tested()
    ensures only { (ctx : Context) (packets : List Packet) (node : Node) (call : Call)
        → explains ctx packets node call ≡ true → IsExplained ctx packets node call }
    ensures all { (ctx : Context) (packets : List Packet) (node : Node) (call : Call)
        → IsExplained ctx packets node call → explains ctx packets node call ≡ true }
{}

//! Logs and the order of their calls.

ghost use Rattle.std.specs.Prelude.{List};
ghost use Rattle.std.specs.List.{AllByRecursion};
ghost use Rattle.claim_model.specs.Context.{Context};
ghost use Rattle.claim_model.specs.Settings.{WorldSettings};
ghost use Rattle.claim_model.specs.World.{Event};
ghost use Rattle.claim_model.specs.Logs.{NodeLog};
ghost use Rattle.claim_model.specs.Interleavings.{OnePerNode, IsInterleaving};
ghost use Rattle.settings_growth.specs.Orders.{AreTurnsOf, HasTurns, IsMade, Turn, events_of};

/// Logs of which each is made by its node, and an order of their calls in which each packet is sent before it is taken, are a
/// legal run. The order mentions no settings, so under which each node made its calls at their time is no matter: where it
/// makes its log under these ones, the run is legal under these.
pub fn made_logs_are_legal()
    ensures { (ctx : Context) (s : WorldSettings) (logs : List NodeLog) (turns : List Turn)
        → OnePerNode s logs → AllByRecursion (IsMade ctx s) logs → AreTurnsOf logs turns
        → IsInterleaving ctx s logs (events_of turns) }
{}

/// And back: each log of a legal run is made by its node, and the run has such an order.
#[tactic(auto, using(crate::proofs::Running::all_made, crate::proofs::Running::has_turns))]
pub fn legal_logs_have_turns()
    ensures made { (ctx : Context) (s : WorldSettings) (logs : List NodeLog) (events : List Event)
        → IsInterleaving ctx s logs events → AllByRecursion (IsMade ctx s) logs }
    ensures turns { (ctx : Context) (s : WorldSettings) (logs : List NodeLog) (events : List Event)
        → IsInterleaving ctx s logs events → HasTurns logs events }
{}

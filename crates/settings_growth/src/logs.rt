//! Logs under settings that have grown.

ghost use Rattle.std.specs.Prelude.{◌≡◌, ℕ, [], ◌++◌, List, Some};
ghost use Rattle.std.specs.List.{AllByRecursion};
ghost use Rattle.claim_model.specs.Context.{Context};
ghost use Rattle.claim_model.specs.Settings.{WorldSettings, opening};
ghost use Rattle.claim_model.specs.Node.{Node, Switch, Up};
ghost use Rattle.claim_model.specs.World.{Event};
ghost use Rattle.claim_model.specs.Nodes.{AnyNode, OfSwitch, node_at};
ghost use Rattle.claim_model.specs.Logs.{Logged, NodeLog, replay, Makes};
ghost use Rattle.claim_model.specs.Interleavings.{IsInterleaving};
ghost use Rattle.settings_growth.specs.Growth.{Grows, RejectionsStay};
ghost use Rattle.settings_growth.specs.GoingOver.{Added, GoesOver};

/// What a node did under the old settings it does under the new ones, with every byte that it sent, and comes to the same but
/// for its cap. At a switch this asks that what it rejected for want of a route has none now.
#[tactic(auto, using(crate::proofs::Replayed::goes_over))]
pub fn logs_go_over()
    ensures { (ctx wider : Context) (s t : WorldSettings) (node : Node) (before : AnyNode) (log : List Logged)
        → Grows ctx wider s t → node_at (opening s) node ≡ Some before → RejectionsStay ctx wider node log
        → Makes ctx before log → GoesOver ctx wider t node before log }
{}

/// A node goes over at a moment of its own: a log that was made under the old settings so far, and under the new ones from
/// there on, is made under the new ones.
#[tactic(auto, using(crate::proofs::Replayed::goes_on))]
pub fn logs_go_on()
    ensures { (ctx wider : Context) (s t : WorldSettings) (node : Node) (before after : AnyNode) (log more : List Logged)
        → Grows ctx wider s t → node_at (opening s) node ≡ Some before → node_at (opening t) node ≡ Some after
        → RejectionsStay ctx wider node log → Makes ctx before log
        → Makes wider (replay wider after log) more → Makes wider after (log ++ more) }
{}

/// A legal run under the old settings is one under the new ones, of the same logs and of empty ones for the new nodes.
pub fn runs_go_over()
    ensures { (ctx wider : Context) (s t : WorldSettings) (logs more : List NodeLog) (events : List Event)
        → Grows ctx wider s t → AllByRecursion (λ log. RejectionsStay ctx wider log.node log.calls) logs → Added t logs more
        → IsInterleaving ctx s logs events → IsInterleaving wider t (logs ++ more) events }
{}

/// Nothing weaker would do: where a switch makes its log under both settings, what it rejected for want of a route has none
/// under the new ones.
#[tactic(auto, using(crate::proofs::Sharp::have_to_stay))]
pub fn rejections_have_to_stay()
    ensures { (ctx wider : Context) (s t : WorldSettings) (node : Node) (before after : AnyNode) (log : List Logged)
        → Grows ctx wider s t → node_at (opening s) node ≡ Some before → node_at (opening t) node ≡ Some after
        → Makes ctx before log → Makes wider after log → RejectionsStay ctx wider node log }
{}

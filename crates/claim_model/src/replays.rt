//! Logs of a run, replayed node by node.

ghost use Rattle.std.specs.Prelude.{◌≡◌, [], ◌∷◌, ◌++◌, List, None, Some};
ghost use Rattle.claim_model.specs.Context.{Context};
ghost use Rattle.claim_model.specs.Node.{Node, Done};
ghost use Rattle.claim_model.specs.World.{World, Event, step, run};
ghost use Rattle.claim_model.specs.Nodes.{AnyNode, node_at, asked};
ghost use Rattle.claim_model.specs.Logs.{Logged, log_in, Makes};
ghost use Rattle.claim_model.specs.Interleavings.{AllAccepted};
ghost use Rattle.claim_model.specs.Replays.{Replays, ArePosted};

/// A node makes its log in a run by itself, and the replay of the log is the node in the run's world. A node that is not there
/// has no log, and never comes.
pub fn logs_replay()
    ensures there { (ctx : Context) (w : World) (events : List Event) (node : Node) (before : AnyNode)
        → node_at w node ≡ Some before → Replays ctx w events node before }
    ensures absent { (ctx : Context) (w : World) (events : List Event) (node : Node) → node_at w node ≡ None
        → (log_in ctx w events node ≡ []) × (node_at (run ctx w events) node ≡ None) }
{}

/// The packets of a run are, node for node and in order, those that stood there and those that the node's log sent.
#[tactic(auto, using(crate::proofs::Posting::are_posted))]
pub fn logs_are_posted()
    ensures { (ctx : Context) (w : World) (events : List Event) (node : Node) → ArePosted ctx w events node }
{}

/// Runs and logs go on: what is true of a list of events and of the list after it is true of both as one.
#[tactic(auto, using(crate::proofs::GoingOn::run_append, crate::proofs::GoingOn::log_append, crate::proofs::GoingOn::accepted_append))]
pub fn logs_go_on()
    ensures runs { (ctx : Context) (w : World) (events more : List Event)
        → run ctx w (events ++ more) ≡ run ctx (run ctx w events) more }
    ensures logs { (ctx : Context) (w : World) (events more : List Event) (node : Node)
        → log_in ctx w (events ++ more) node ≡ log_in ctx w events node ++ log_in ctx (run ctx w events) more node }
    ensures accepted { (ctx : Context) (w : World) (events more : List Event) → AllAccepted ctx w events
        → AllAccepted ctx (run ctx w events) more → AllAccepted ctx w (events ++ more) }
{}

/// Where a node makes its log by itself, each call of the log is accepted and sends what the log says as soon as an event asks
/// for it and the calls before it are made. So of a log that is replayed once, only the order of its deliveries is open.
#[tactic(auto, using(crate::proofs::GoingOn::asked_accepted))]
pub fn asked_calls_are_accepted()
    ensures { (ctx : Context) (w : World) (made : List Event) (node : Node) (before : AnyNode) (next : Logged)
        (more : List Logged) (event : Event)
        → node_at w node ≡ Some before → Makes ctx before (log_in ctx w made node ++ next ∷ more)
        → asked (run ctx w made).packets event ≡ Some (record { node = node; call = next.call })
        → (v : World) × (step ctx (run ctx w made) event ≡ Done v next.sent) }
{}

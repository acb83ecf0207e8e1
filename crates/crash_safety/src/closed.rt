//! Logs that are closed, and the new ones in which their nodes go on.

ghost use Rattle.std.specs.Prelude.{◌≡◌, List, [], ◌++◌, Option, None};
ghost use Rattle.claim_model.specs.Context.{Context};
ghost use Rattle.claim_model.specs.Nodes.{AnyNode};
ghost use Rattle.claim_model.specs.Logs.{Logged, Makes, replay};
ghost use Rattle.crash_safety.specs.Network.{Process};
ghost use Rattle.crash_safety.specs.Steps.{Step, in_front, process_after, replayed_from, steps_from};

/// Logs that are closed: a node goes on in a new log, which begins with the node that the closed ones make.
/// What a log makes of a node, more calls make of that what both together make; and a process over the new log alone does,
/// step by step, what the process over all logs does. So from an empty disk it is the process over all logs, from the disk
/// that has the closed ones.
#[tactic(auto, using(crate::proofs::Closing::replays_on, crate::proofs::Closing::makes_on, crate::proofs::Closing::makes_parts, crate::proofs::Closing::steps_in_front, crate::proofs::Closing::from_closed))]
pub fn closed_logs_go_on()
    ensures replays { (ctx : Context) (begins : Option AnyNode) (closed log : List Logged)
        → replayed_from ctx begins (closed ++ log) ≡ replayed_from ctx (replayed_from ctx begins closed) log }
    ensures makes { (ctx : Context) (before : AnyNode) (closed log : List Logged)
        → Makes ctx before closed → Makes ctx (replay ctx before closed) log → Makes ctx before (closed ++ log) }
    ensures parted { (ctx : Context) (before : AnyNode) (closed log : List Logged)
        → Makes ctx before (closed ++ log) → Makes ctx before closed × Makes ctx (replay ctx before closed) log }
    ensures processes { (ctx : Context) (begins : Option AnyNode) (closed : List Logged) (p : Process) (steps : List Step)
        → steps_from ctx begins (in_front closed p) steps
        ≡ in_front closed (steps_from ctx (replayed_from ctx begins closed) p steps) }
    ensures whole { (ctx : Context) (begins : Option AnyNode) (closed : List Logged) (steps : List Step)
        → steps_from ctx begins (record { memory = None; synced = closed; unsynced = [] }) steps
        ≡ in_front closed (process_after ctx (replayed_from ctx begins closed) steps) }
{}

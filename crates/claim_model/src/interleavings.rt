//! Legal interleavings of logs: how one is found, and that all of them agree.

ghost use Rattle.std.specs.Prelude.{◌⊎◌, List};
ghost use Rattle.std.specs.List.{AllByRecursion};
ghost use Rattle.claim_model.specs.Context.{Context};
ghost use Rattle.claim_model.specs.Settings.{WorldSettings, opening};
ghost use Rattle.claim_model.specs.Node.{Node};
ghost use Rattle.claim_model.specs.World.{World, Event, run};
ghost use Rattle.claim_model.specs.Logs.{NodeLog, log_in};
ghost use Rattle.claim_model.specs.Interleavings.{Begins, GoesOn, IsInterleaving, IsBegun, NextCall, IsLogOf, SameNodes};

/// Where the logs of a run are how the logs of another run begin, some node can make the next call of its own, or all are made.
#[tactic(auto, using(crate::proofs::Walking::goes_on))]
pub fn enabled_calls_lead_on()
    ensures { (ctx : Context) (w : World) (events made : List Event)
        → ((node : Node) → Begins (log_in ctx w made node) (log_in ctx w events node)) → GoesOn ctx w events made }
{}

/// Where logs have a legal interleaving, a run that is begun along them is one itself, or the next call of one of them is
/// enabled. So one enabled call after another finds an interleaving, whichever is taken; and where none is enabled and calls
/// are left, there is none.
#[tactic(auto, using(crate::proofs::Finding::found))]
pub fn interleavings_are_found()
    ensures { (ctx : Context) (settings : WorldSettings) (logs : List NodeLog) (events made : List Event)
        → IsInterleaving ctx settings logs events → IsBegun ctx settings logs made
        → NextCall ctx settings logs made ⊎ IsInterleaving ctx settings logs made }
{}

/// Each log of an interleaving is made by its node alone, and tells what the node is at the end and all that it sent.
#[tactic(auto, using(crate::proofs::Finding::are_logs))]
pub fn logs_of_interleavings()
    ensures { (ctx : Context) (settings : WorldSettings) (logs : List NodeLog) (events : List Event)
        → IsInterleaving ctx settings logs events → AllByRecursion (IsLogOf ctx settings events) logs }
{}

/// All interleavings of the same logs end with the same nodes, and with the same packets of each sender in the same order.
#[tactic(auto, using(crate::proofs::Finding::agree))]
pub fn interleavings_agree()
    ensures { (ctx : Context) (settings : WorldSettings) (logs : List NodeLog) (events others : List Event)
        → IsInterleaving ctx settings logs events → IsInterleaving ctx settings logs others
        → SameNodes (run ctx (opening settings) events) (run ctx (opening settings) others) }
{}

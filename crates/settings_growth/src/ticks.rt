//! Ticks that need not be made, and not be logged.

ghost use Rattle.std.specs.Prelude.{◌∷◌, [], ◌++◌, List};
ghost use Rattle.claim_model.specs.Context.{Context};
ghost use Rattle.claim_model.specs.Journal.{Journal};
ghost use Rattle.claim_model.specs.Node.{Node, Sent};
ghost use Rattle.claim_model.specs.Nodes.{AnyNode};
ghost use Rattle.claim_model.specs.Logs.{Logged, replay, Makes};
ghost use Rattle.settings_growth.specs.Ticks.{HasNoOpenEntry, TickDoesNothing, HasNothingToSend, IsSameWithout, tick_that_sent};

/// Where every entry of a pharmacy has its answer, a tick changes nothing and sends nothing. So whoever holds a pharmacy need
/// not tick it, nor write a tick into its log, while it has no open entry.
#[tactic(auto, using(crate::proofs::Vain::tick_does_nothing))]
pub fn ticks_without_open_entries_do_nothing()
    ensures { (ctx : Context) (j : Journal) → HasNoOpenEntry j → TickDoesNothing ctx j }
{}

/// Such a tick may be left out of a log, and so one after another each of them: the node makes the log without it, comes to
/// the same, and its packets are the same, in their order. And it may be put in where it was left out, having sent nothing.
#[tactic(auto, using(crate::proofs::Vain::makes_with))]
pub fn such_ticks_may_be_left_out()
    ensures out { (ctx : Context) (name : Node) (before : AnyNode) (log more : List Logged) (sent : List Sent)
        → HasNothingToSend (replay ctx before log) → Makes ctx before (log ++ tick_that_sent sent ∷ more)
        → IsSameWithout ctx name before log (tick_that_sent sent) more }
    ensures back { (ctx : Context) (before : AnyNode) (log more : List Logged)
        → HasNothingToSend (replay ctx before log) → Makes ctx before (log ++ more)
        → Makes ctx before (log ++ tick_that_sent [] ∷ more) }
{}

//! Steps of a process are moves of a network.

ghost use Rattle.std.specs.Prelude.{List};
ghost use Rattle.claim_model.specs.Context.{Context};
ghost use Rattle.claim_model.specs.Node.{Node};
ghost use Rattle.claim_model.specs.World.{Packet};
ghost use Rattle.claim_model.specs.Settings.{WorldSettings};
ghost use Rattle.claim_model.specs.Logs.{posted_by};
ghost use Rattle.crash_safety.specs.Network.{Network};
ghost use Rattle.crash_safety.specs.Runs.{IsAmong};
ghost use Rattle.crash_safety.specs.Steps.{AreMoves, CanCome, IsSaid, Step};

/// Steps of a process from the opening of the settings are moves of a network, wherever their calls can come over its wire:
/// at this node, with nothing else changed. What the synced calls of a process sent can be said there.
#[tactic(auto, using(crate::proofs::Stepping::are_moves, crate::proofs::Stepping::can_be_said))]
pub fn steps_are_moves()
    ensures moves { (ctx : Context) (s : WorldSettings) (n : Network) (node : Node) (steps : List Step)
        → CanCome n.wire node steps → AreMoves ctx s n node steps }
    ensures words { (ctx : Context) (s : WorldSettings) (n : Network) (node : Node) (p : Packet)
        → IsAmong (posted_by node (n.at node).synced) p → IsSaid ctx s n node p }
{}

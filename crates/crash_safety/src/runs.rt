//! A network with crashes is a run without any.

ghost use Rattle.std.specs.Prelude.{◌≡◌, ℕ, List, ◌++◌, Some};
ghost use Rattle.claim_model.specs.Context.{Context};
ghost use Rattle.claim_model.specs.Numbered.{numbered};
ghost use Rattle.claim_model.specs.Node.{Node};
ghost use Rattle.claim_model.specs.World.{World, Packet, Event};
ghost use Rattle.claim_model.specs.Settings.{WorldSettings};
ghost use Rattle.claim_model.specs.Logs.{Logged, posted_by};
ghost use Rattle.crash_safety.specs.Network.{Move, network};
ghost use Rattle.crash_safety.specs.Runs.{IsAmong, HasRun, Course, IsReplay, on_disks, in_files};
ghost use Rattle.crash_safety.specs.Kept.{AreNodes};

/// At every moment the synced logs of all disks are the logs of a run that never crashed and that has sent all that was
/// said; later moves lead that run on; and it goes on to the files as they lie, so what crashes leave can be audited.
#[tactic(auto, using(crate::proofs::Courses::course))]
pub fn disks_are_a_run()
    ensures { (ctx : Context) (s : WorldSettings) (moves more : List Move)
        → Course ctx s (network ctx s moves) (network ctx s (moves ++ more)) }
{}

/// A process that lives is its log's replay, also after any restart; and its node makes every call of the log.
#[tactic(auto, using(crate::proofs::Courses::replays))]
pub fn memories_are_replays()
    ensures { (ctx : Context) (s : WorldSettings) (moves : List Move) (node : Node)
        → IsReplay ctx s node ((network ctx s moves).at node) }
{}

/// What was said stands in the log of who said it, wherever logs are those of a run. So a packet that was said before the
/// sync of its record, and whose record is lost, leaves logs that no run has.
#[tactic(auto, using(crate::proofs::Courses::recorded))]
pub fn what_is_said_is_recorded()
    ensures { (ctx : Context) (s : WorldSettings) (logs : Node → List Logged) (said : List Packet) (events : List Event)
        (k : ℕ) (p : Packet) → HasRun ctx s logs said events → numbered said k ≡ Some p
        → IsAmong (posted_by p.from (logs p.from)) p }
{}

/// There is a world of what the disks hold, and one of what the files have: the promises speak of some world.
#[tactic(auto, using(crate::proofs::Worlds::world_on_disks, crate::proofs::Worlds::world_in_files))]
pub fn networks_have_worlds()
    ensures disks { (ctx : Context) (s : WorldSettings) (moves : List Move)
        → (w : World) × AreNodes ctx s (on_disks (network ctx s moves)) w }
    ensures files { (ctx : Context) (s : WorldSettings) (moves : List Move)
        → (w : World) × AreNodes ctx s (in_files (network ctx s moves)) w }
{}

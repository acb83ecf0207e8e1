//! Logs in streams: several processes of one name, of which one can append at a time.

ghost use Rattle.std.specs.Prelude.{ℕ, List, ◌++◌};
ghost use Rattle.claim_model.specs.Context.{Context};
ghost use Rattle.claim_model.specs.Node.{Node};
ghost use Rattle.claim_model.specs.Settings.{WorldSettings};
ghost use Rattle.crash_safety.specs.Fenced.{Deed, Fences, IsReplayOfKnown, fenced};

/// However many processes of one name there are, and whatever they do: where a stream takes an append only if it is expected
/// to end where it ends, the streams are the disks of a network with one process a node, and what was said is what that
/// network said. So "one process a node" is no premise there, and every promise of disks is one of streams. Acknowledgements
/// may be lost: an entry that its owner finds after what it knows is its first pending call.
#[tactic(auto, using(crate::proofs::Streams::fences))]
pub fn fences_make_one_process()
    ensures { (ctx : Context) (s : WorldSettings) (deeds more : List Deed)
        → Fences ctx s (fenced ctx s deeds) (fenced ctx s (deeds ++ more)) }
{}

/// A process over a stream has in memory what it knows of the stream, and what it made after it. So one that knows the whole
/// stream, and has nothing pending, answers as the log's replay does.
#[tactic(auto, using(crate::proofs::Streams::candidate_replays))]
pub fn candidates_are_replays()
    ensures { (ctx : Context) (s : WorldSettings) (deeds : List Deed) (node : Node) (number : ℕ)
        → IsReplayOfKnown ctx s (fenced ctx s deeds) node number }
{}

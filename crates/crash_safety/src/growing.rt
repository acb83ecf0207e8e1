//! Settings that grow while processes die.

ghost use Rattle.std.specs.Prelude.{ℕ, List};
ghost use Rattle.claim_model.specs.Context.{Context};
ghost use Rattle.claim_model.specs.Node.{Node};
ghost use Rattle.claim_model.specs.World.{World};
ghost use Rattle.claim_model.specs.Promises.{
  CountedPaymentsStand,
  OneAnswer,
  OneStandingPayment,
  ReversedByOwner,
  StandingAreCounted,
};
ghost use Rattle.crash_safety.specs.Kept.{AreNodes};
ghost use Rattle.crash_safety.specs.Runs.{IsReplay, in_files, on_disks};
ghost use Rattle.crash_safety.specs.Growing.{
  AreWithin,
  Change,
  Grow,
  RunsAt,
  Stage,
  Stay,
  WhateverGrows,
  grown,
};

/// Settings grow, again and again; each node goes over to the next ones at a moment of its own, with its log as it lies, and any
/// process dies at any moment. At every moment what all disks hold, and what lies in all files, is that of one run under any of
/// the settings that no node is beyond: those of the node that is furthest, or later ones. The one premise is that of each
/// growth: what a switch has rejected for want of a route has none when it goes over, nor under the settings that are asked about.
/// And a process that lives has in memory the replay of its log under its own settings.
#[tactic(auto, using(crate::proofs::Grown::runs_at, crate::proofs::Grown::replays_at))]
pub fn growing_networks_are_runs()
    ensures runs { (stages : ℕ → Stage) (changes : List Change) (k : ℕ) → Grow stages → Stay stages changes
        → AreWithin stages (grown stages changes) k → RunsAt (stages k) (grown stages changes).network }
    ensures memories { (stages : ℕ → Stage) (changes : List Change) (node : Node) → Grow stages → Stay stages changes
        → IsReplay (stages ((grown stages changes).stage node)).ctx (stages ((grown stages changes).stage node)).settings
        node ((grown stages changes).network.at node) }
{}

/// There is a world of what the disks hold, and one of what lies in the files.
#[tactic(auto, using(crate::proofs::Grown::grown_disks, crate::proofs::Grown::grown_files))]
pub fn growing_networks_have_worlds()
    ensures disks { (stages : ℕ → Stage) (changes : List Change) (k : ℕ) → Grow stages → Stay stages changes
        → AreWithin stages (grown stages changes) k
        → (w : World) × AreNodes (stages k).ctx (stages k).settings (on_disks (grown stages changes).network) w }
    ensures files { (stages : ℕ → Stage) (changes : List Change) (k : ℕ) → Grow stages → Stay stages changes
        → AreWithin stages (grown stages changes) k
        → (w : World) × AreNodes (stages k).ctx (stages k).settings (in_files (grown stages changes).network) w }
{}

/// So the promises hold of them.
pub fn growing_networks_keep_promises()
    ensures one_answer { WhateverGrows (λ (ctx : Context) (w : World). OneAnswer ctx w w) }
    ensures one_standing { WhateverGrows OneStandingPayment }
    ensures reversed { WhateverGrows ReversedByOwner }
    ensures counted { WhateverGrows CountedPaymentsStand }
    ensures in_full { WhateverGrows StandingAreCounted }
{}

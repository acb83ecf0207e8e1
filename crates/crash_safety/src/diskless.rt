//! Switches need no disk.

ghost use Rattle.std.specs.Prelude.{List, ◌++◌};
ghost use Rattle.claim_model.specs.Context.{Context};
ghost use Rattle.claim_model.specs.Settings.{WorldSettings};
ghost use Rattle.claim_model.specs.World.{World};
ghost use Rattle.claim_model.specs.Promises.{
  AnswersAsDecided,
  AsksAsSubmitted,
  CountedPaymentsStand,
  OneAnswer,
  OneStandingPayment,
  ReversedByOwner,
  StandingAreCounted,
  StaysDecided,
};
ghost use Rattle.crash_safety.specs.Network.{Move};
ghost use Rattle.crash_safety.specs.Diskless.{
  AtAnyLaterMomentHere,
  CourseHere,
  OnceSaidHere,
  WithNoDiskAtSwitches,
  AreNodesHere,
  light,
};
ghost use Rattle.crash_safety.specs.Runs.{on_disks, in_files};

/// Where a switch keeps nothing, begins anew with an empty table after any death, and says what it sent at once: at every
/// moment the synced logs of pharmacies and payers are those of a run that never crashed and that has sent all that was
/// said; later moves lead that run on, and it goes on to their files as they lie.
#[tactic(auto, using(crate::proofs::Lightness::course_here))]
pub fn disks_without_switches_are_a_run()
    ensures { (ctx : Context) (s : WorldSettings) (moves more : List Move)
        → CourseHere ctx s (light ctx s moves) (light ctx s (moves ++ more)) }
{}

/// There is a world of what the disks and the tables in memory hold, and one of the files and the tables.
#[tactic(auto, using(crate::proofs::Lightness::world_here, crate::proofs::Lightness::files_here))]
pub fn networks_without_disks_have_worlds()
    ensures disks { (ctx : Context) (s : WorldSettings) (moves : List Move)
        → (w : World) × AreNodesHere ctx s (on_disks (light ctx s moves)) (light ctx s moves) w }
    ensures files { (ctx : Context) (s : WorldSettings) (moves : List Move)
        → (w : World) × AreNodesHere ctx s (in_files (light ctx s moves)) (light ctx s moves) w }
{}

/// So every promise holds, with the disks of pharmacies and payers alone.
pub fn promises_without_disks()
    ensures one_answer { WithNoDiskAtSwitches (λ (ctx : Context) (w : World). OneAnswer ctx w w) }
    ensures one_standing { WithNoDiskAtSwitches OneStandingPayment }
    ensures reversed { WithNoDiskAtSwitches ReversedByOwner }
    ensures counted { WithNoDiskAtSwitches CountedPaymentsStand }
    ensures in_full { WithNoDiskAtSwitches StandingAreCounted }
    ensures one_answer_later { AtAnyLaterMomentHere OneAnswer }
    ensures stays { AtAnyLaterMomentHere (λ (ctx : Context) (w v : World). StaysDecided w v) }
    ensures requests { OnceSaidHere AsksAsSubmitted }
    ensures answers { OnceSaidHere AnswersAsDecided }
{}

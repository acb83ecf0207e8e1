//! Answers, whatever is killed.

ghost use Rattle.std.specs.Prelude.{List};
ghost use Rattle.claim_model.specs.Context.{Context};
ghost use Rattle.claim_model.specs.World.{World};
ghost use Rattle.claim_model.specs.Promises.{OneAnswer, StaysDecided, AsksAsSubmitted, AnswersAsDecided};
ghost use Rattle.crash_safety.specs.Kept.{WhateverIsKilled, AtAnyLaterMoment, OnceSaid};

/// No two nodes hold different answers to one numbered transaction: neither on the disks nor in the memories of one moment,
/// nor between what a disk holds and what disks or memories hold at any later moment.
pub fn one_answer()
    ensures at_once { WhateverIsKilled (λ (ctx : Context) (w : World). OneAnswer ctx w w) }
    ensures later { AtAnyLaterMoment OneAnswer }
{}

/// What journals and books on the disks had decided stays decided.
pub fn decisions_stay()
    ensures { AtAnyLaterMoment (λ (ctx : Context) (w v : World). StaysDecided w v) }
{}

/// Each request that was ever said is its pharmacy's entry of that number, and each answer that was ever said is what was
/// decided: on the disks and in the memories of that moment and of every later one.
pub fn words_stay_true()
    ensures requests { OnceSaid AsksAsSubmitted }
    ensures answers { OnceSaid AnswersAsDecided }
{}

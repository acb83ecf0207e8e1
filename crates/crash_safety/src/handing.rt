//! Switches that are anything at all, as long as they hand on what came.

ghost use Rattle.std.specs.Prelude.{List, ◌++◌};
ghost use Rattle.claim_model.specs.Context.{Context};
ghost use Rattle.claim_model.specs.Laws.{Laws};
ghost use Rattle.claim_model.specs.Settings.{WorldSettings, Accepts};
ghost use Rattle.claim_model.specs.World.{World};
ghost use Rattle.claim_model.specs.Promises.{CountedPaymentsStand, OneStandingPayment, ReversedByOwner, StandingAreCounted, StaysDecided};
ghost use Rattle.crash_safety.specs.Handing.{Happening, LaterWhateverSwitchesAre, OneAnswerOutside, OrdersFiles, OrdersGoOn, ToldWhateverSwitchesAre, WhateverSwitchesAre, handing};

/// Any number of processes may speak in the name of a switch, with tables or without, at any time: where each says only what it
/// may hand on, the disks of pharmacies and payers have an explained order at every moment, which later ones go on from. So they
/// are those of a run.
#[tactic(auto, using(crate::proofs::Happening::orders_go_on))]
pub fn any_switches_will_do()
    ensures { (ctx : Context) (s : WorldSettings) (all more : List Happening)
        → Laws ctx → Accepts ctx s → OrdersGoOn ctx s (handing ctx s all) (handing ctx s (all ++ more)) }
{}

/// And no fill is paid twice, reversals come from their owners, and what is counted is what stands.
#[tactic(auto, using(crate::proofs::WhateverSwitches::one_standing_whatever, crate::proofs::WhateverSwitches::reversed_whatever, crate::proofs::WhateverSwitches::counted_whatever, crate::proofs::WhateverSwitches::in_full_whatever))]
pub fn payments_whatever_switches_are()
    ensures one_standing { WhateverSwitchesAre OneStandingPayment }
    ensures reversed { WhateverSwitchesAre ReversedByOwner }
    ensures counted { WhateverSwitchesAre CountedPaymentsStand }
    ensures in_full { WhateverSwitchesAre StandingAreCounted }
{}

/// No two pharmacies or payers hold different answers to one numbered transaction, at one moment or at two; what they decided
/// stays decided; and what a pharmacy has heard it may tell before it keeps it.
#[tactic(auto, using(crate::proofs::WhateverSwitches::one_answer_whatever, crate::proofs::WhateverSwitches::stays_whatever))]
pub fn answers_whatever_switches_are()
    ensures one_answer { LaterWhateverSwitchesAre OneAnswerOutside }
    ensures stays { LaterWhateverSwitchesAre (λ (ctx : Context) (w v : World). StaysDecided w v) }
    ensures told { ToldWhateverSwitchesAre }
{}

/// What lies in the files of pharmacies and payers has an explained order too, so what crashes leave can be audited.
#[tactic(auto, using(crate::proofs::Filed::files_orders))]
pub fn files_whatever_switches_are()
    ensures { (ctx : Context) (s : WorldSettings) (all : List Happening)
        → Laws ctx → Accepts ctx s → OrdersFiles ctx s (handing ctx s all) }
{}

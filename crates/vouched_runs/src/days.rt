//! Days of vouched calls.

ghost use Rattle.std.specs.Prelude.{List, ◌++◌};
ghost use Rattle.claim_model.specs.Context.{Context};
ghost use Rattle.claim_model.specs.Promises.{Reached};
ghost use Rattle.claim_model.specs.Settings.{WorldSettings};
ghost use Rattle.claim_model.specs.World.{World, Event, run};
ghost use Rattle.crash_safety.specs.Explained.{Turn, outside};
ghost use Rattle.crash_safety.specs.Greedy.{BeginsAs};
ghost use Rattle.vouched_runs.specs.Parties.{Parties, parties_in};
ghost use Rattle.vouched_runs.specs.Vouched.{Leads, Vouched};
ghost use Rattle.vouched_runs.specs.Days.{GoesOn};

/// Days that begin where others ended are days of both, and so are vouched from the opening where those were.
#[tactic(auto, using(crate::proofs::Leading::leads_joined, crate::proofs::Leading::vouched_on))]
pub fn days_follow_days()
    ensures joined { (ctx : Context) (p q r : Parties) (turns more : List Turn)
        → Leads ctx p turns q → Leads ctx q more r → Leads ctx p (turns ++ more) r }
    ensures vouched { (ctx : Context) (settings : WorldSettings) (p q : Parties) (turns : List Turn)
        → Vouched ctx settings p → Leads ctx p turns q → Vouched ctx settings q }
{}

/// What pharmacies and payers do in a legal run is vouched for: such calls lead to where a run leads, and go on as it goes on.
#[tactic(auto, using(crate::proofs::Running::runs_vouched))]
pub fn runs_are_vouched()
    ensures reached { (ctx : Context) (settings : WorldSettings) (w : World) → Reached ctx settings w
        → Vouched ctx settings (parties_in w) }
    ensures on { (ctx : Context) (settings : WorldSettings) (w : World) (events : List Event) → Reached ctx settings w
        → Leads ctx (parties_in w) (outside ctx w events) (parties_in (run ctx w events)) }
{}

/// Whoever takes one vouched call after another is never caught where the calls have an order.
#[tactic(auto, using(crate::proofs::Walking::vouched_goes_on))]
pub fn vouched_calls_go_on()
    ensures { (ctx : Context) (p q r : Parties) (turns made : List Turn)
        → Leads ctx p turns q → Leads ctx p made r → BeginsAs made turns → GoesOn ctx r made turns }
{}

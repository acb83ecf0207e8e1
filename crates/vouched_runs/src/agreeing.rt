//! States that agree: all that the promises want of where days begin.

ghost use Rattle.std.specs.Prelude.{List};
ghost use Rattle.claim_model.specs.Context.{Context};
ghost use Rattle.claim_model.specs.Promises.{AnswersAreDecided, AnswersAreWhole, CountedPaymentsStand, OneAnswer, OneStandingPayment, RequestsAreSubmitted, ReversedByOwner, StandingAreCounted};
ghost use Rattle.claim_model.specs.Settings.{WorldSettings};
ghost use Rattle.crash_safety.specs.Explained.{Turn};
ghost use Rattle.vouched_runs.specs.Parties.{Parties};
ghost use Rattle.vouched_runs.specs.Vouched.{Leads, Vouched};
ghost use Rattle.vouched_runs.specs.Agreeing.{Agreeing, AlwaysFromAgreeing, LaterFromAgreeing};

/// Where each state is what its node keeps, and they agree, vouched calls lead to nodes that keep all promises: how the states came
/// about is not asked.
#[tactic(auto, using(crate::proofs::Agreed::agreeing_standing, crate::proofs::Agreed::agreeing_counted, crate::proofs::Agreed::agreeing_in_full, crate::proofs::Agreed::agreeing_reversed, crate::proofs::Agreed::agreeing_requests, crate::proofs::Agreed::agreeing_answers, crate::proofs::Agreed::agreeing_whole, crate::proofs::Agreed::agreeing_one_answer))]
pub fn agreeing_states_keep_promises()
    ensures one_standing { AlwaysFromAgreeing OneStandingPayment }
    ensures counted { AlwaysFromAgreeing CountedPaymentsStand }
    ensures in_full { AlwaysFromAgreeing StandingAreCounted }
    ensures reversed { AlwaysFromAgreeing ReversedByOwner }
    ensures requests { AlwaysFromAgreeing RequestsAreSubmitted }
    ensures answers { AlwaysFromAgreeing AnswersAreDecided }
    ensures whole { AlwaysFromAgreeing AnswersAreWhole }
    ensures one_answer { LaterFromAgreeing OneAnswer }
{}

/// Nothing honest is refused: states that vouched calls lead to from the opening are such, and from such states such calls lead to
/// such states again.
pub fn vouched_states_agree()
    ensures vouched { (ctx : Context) (settings : WorldSettings) (p : Parties) → Vouched ctx settings p
        → Agreeing ctx settings p }
    ensures on { (ctx : Context) (settings : WorldSettings) (p q : Parties) (turns : List Turn)
        → Agreeing ctx settings p → Leads ctx p turns q → Agreeing ctx settings q }
{}

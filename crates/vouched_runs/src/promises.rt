//! What is true of journals and books, where each packet that is taken is vouched for.

ghost use Rattle.claim_model.specs.Promises.{AnswersAreDecided, AnswersAreWhole, CountedPaymentsStand, OneAnswer, OneStandingPayment, RequestsAreSubmitted, ReversedByOwner, StandingAreCounted};
ghost use Rattle.vouched_runs.specs.Vouched.{AlwaysVouched, VouchedLater};

/// No fill is paid twice, what pharmacies count stands or is reversed by an open reversal of their own, nothing too little is
/// counted, reversals come from their owners, and requests and answers are those of their ids.
pub fn vouched_calls_keep_promises()
    ensures one_standing { AlwaysVouched OneStandingPayment }
    ensures counted { AlwaysVouched CountedPaymentsStand }
    ensures in_full { AlwaysVouched StandingAreCounted }
    ensures reversed { AlwaysVouched ReversedByOwner }
    ensures requests { AlwaysVouched RequestsAreSubmitted }
    ensures answers { AlwaysVouched AnswersAreDecided }
    ensures whole { AlwaysVouched AnswersAreWhole }
{}

/// No two pharmacies or payers hold different answers to one numbered transaction, at one time or at two.
pub fn vouched_answers_agree()
    ensures { VouchedLater OneAnswer }
{}

//! What is true of payments, whatever events come.

ghost use Rattle.claim_model.specs.Promises.{Always, OneStandingPayment, ReversedByOwner, CountedPaymentsStand, StandingAreCounted};

/// No fill has two standing payments, over all books together.
pub fn one_standing_payment()
    ensures { Always OneStandingPayment }
{}

/// Each Reversed ruling came from the pharmacy whose provider identity the payment has.
pub fn reversed_by_owner()
    ensures { Always ReversedByOwner }
{}

/// Each payment that a pharmacy counts stands in the book of its payer with the same fill and amounts, or
/// was reversed there by a reversal that this pharmacy asked for and still holds open, as it does each id whose
/// ruling reverses that payment.
pub fn counted_payments_stand()
    ensures { Always CountedPaymentsStand }
{}

/// Each payment that an answer in a pharmacy's journal names, and that stands in the book of its payer, is counted
/// by that pharmacy: it counts nothing too little.
pub fn standing_payments_are_counted()
    ensures { Always StandingAreCounted }
{}

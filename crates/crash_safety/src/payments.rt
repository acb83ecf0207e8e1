//! Payments, whatever is killed.

ghost use Rattle.claim_model.specs.Promises.{OneStandingPayment, ReversedByOwner, CountedPaymentsStand, StandingAreCounted};
ghost use Rattle.crash_safety.specs.Kept.{WhateverIsKilled};

/// No fill has two standing payments, over all books together: on the disks, and in the memories.
pub fn one_standing_payment()
    ensures { WhateverIsKilled OneStandingPayment }
{}

/// Each Reversed ruling came from the pharmacy whose provider identity the payment has.
pub fn reversed_by_owner()
    ensures { WhateverIsKilled ReversedByOwner }
{}

/// Each payment that a pharmacy counts stands at its payer with the same fill and amounts, or was reversed there by a
/// reversal that this pharmacy asked for and still holds open.
pub fn counted_payments_stand()
    ensures { WhateverIsKilled CountedPaymentsStand }
{}

/// Each payment that an answer in a pharmacy's journal names, and that stands at its payer, is counted by that pharmacy.
pub fn standing_payments_are_counted()
    ensures { WhateverIsKilled StandingAreCounted }
{}

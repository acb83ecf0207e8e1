//! What a delivery can be refused for.

ghost use Rattle.claim_model.specs.Promises.{Always, DeliveriesMeet, AdjudicationsMeet};

/// A delivery is refused only because the packet was never sent or the node is down, because the switch
/// does not wait for the answer or the pharmacy has it, because the book or its serials are used up, or because the payer
/// asks and has no advice. So is an adjudication of a packet for a payer that asks.
pub fn deliveries_meet_few_refusals()
    ensures deliveries { Always DeliveriesMeet }
    ensures adjudications { Always AdjudicationsMeet }
{}

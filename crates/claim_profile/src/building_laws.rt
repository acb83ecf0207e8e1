//! What holds of every billing and reversal that was written, as facts that a caller cites by a call.

ghost use Rattle.std.specs.Prelude.{◌≡◌, Some, Ok, codes};
ghost use Rattle.d0_segments.specs.Framing.{request_kind, transmission_of};
ghost use Rattle.claim_profile.specs.declared.order.Order.TheVariants as order;
ghost use Rattle.claim_profile.specs.Order.{order_of};
ghost use Rattle.claim_profile.specs.Readable.{readable_header};
ghost use Rattle.claim_profile.specs.Building.{Billing, IsBilling, billing_parts, billing_group, billing_text, claim_billed, Reversing, IsReversing, reversal_parts, reversal_group, reversal_text, reversal_asked};

use d0_header::request_text_laws;
use d0_segments::request_laws;
use overpunch::{amount_reads_back, number_reads_back};

/// A billing of parts as callers hand them is read again, and its order is a claim with those parts.
#[tactic(auto, using(crate::proofs::BuiltOrders::billing_order))]
pub fn billing_laws()
    ensures again { (b : Billing) → IsBilling b → transmission_of request_kind (billing_text b)
        ≡ Some (billing_parts b) }
    // With the version that this product carries it is readable.
    ensures readable { (b : Billing) → IsBilling b → b.header.version ≡ codes "D0"
        → readable_header (billing_text b) ≡ Some b.header }
    ensures order { (b : Billing) → IsBilling b → order_of b.header (billing_parts b).shared (billing_group b)
        ≡ Ok (order.Claim (claim_billed b)) }
{
    request_text_laws();
    request_laws();
    number_reads_back();
    amount_reads_back();
}

/// A reversal of parts as callers hand them is read again, and its order is a reversal with those
/// parts.
#[tactic(auto, using(crate::proofs::BuiltOrders::reversal_order_is))]
pub fn reversal_laws()
    ensures again { (r : Reversing) → IsReversing r → transmission_of request_kind (reversal_text r)
        ≡ Some (reversal_parts r) }
    // With the version that this product carries it is readable.
    ensures readable { (r : Reversing) → IsReversing r → r.header.version ≡ codes "D0"
        → readable_header (reversal_text r) ≡ Some r.header }
    ensures order { (r : Reversing) → IsReversing r → order_of r.header (reversal_parts r).shared (reversal_group r)
        ≡ Ok (order.Reversal (reversal_asked r)) }
{
    request_text_laws();
    request_laws();
    number_reads_back();
}

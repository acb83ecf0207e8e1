//! What a pharmacy asked for, as it stands in its request.

ghost use Rattle.std.specs.Prelude.{◌≡◌, ◌≤◌};
ghost use Rattle.log_audit.specs.Claims.{billing_in, claim_asked, claim_seen, claim_shown};

use claim_profile::{Claim, Order, OrderFault, check_readable, order_at};

/// What is told of a billing.
#[derive(Clone, Copy)]
pub(crate) struct ClaimTexts<'a> {
    /// The cardholder ID (302-C2).
    pub(crate) cardholder: &'a [u8],
    /// The product ID (407-D7).
    pub(crate) product: &'a [u8],
    /// The quantity dispensed (442-E7), in thousandths of a unit.
    pub(crate) quantity: Option<u64>,
    /// The ingredient cost submitted (409-D9), in cents.
    pub(crate) cost: Option<u64>,
    /// The dispensing fee submitted (412-DC), in cents.
    pub(crate) fee: Option<u64>,
}

/// The billing of a transaction, from 1, of a request.
pub(crate) fn claim_of(request: &[u8], transaction: u64) -> Option<Claim>
    requires { 1 ≤ transaction }
    ensures { result ≡ claim_asked request.now transaction }
{
    let Some(framed) = check_readable(request) else {
        return None;
    };
    let place = transaction - 1;
    if place < framed.group_count() as u64 {
        billing_in(order_at(&framed, place as usize))
    } else {
        None
    }
}

/// A billing, where an order is one.
fn billing_in(order: Result<Order, OrderFault>) -> Option<Claim>
    ensures { result ≡ billing_in order }
{
    match order {
        Ok(Order::Claim(claim)) => Some(claim),
        Ok(Order::Reversal(_)) => None,
        Err(_) => None,
    }
}

/// What is told of a billing; nothing where there is none.
pub(crate) fn texts_of(claim: &Option<Claim>) -> ClaimTexts<'_>
    ensures { claim_seen result ≡ claim_shown claim.now }
{
    match claim {
        Some(claim) => ClaimTexts {
            cardholder: claim.cardholder.as_slice(),
            product: claim.product.as_slice(),
            quantity: Some(claim.quantity),
            cost: Some(u64::from(claim.cost)),
            fee: Some(u64::from(claim.fee)),
        },
        None => ClaimTexts {
            cardholder: b"",
            product: b"",
            quantity: None,
            cost: None,
            fee: None,
        },
    }
}

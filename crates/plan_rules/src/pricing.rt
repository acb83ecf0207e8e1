//! What is paid for a claim.

ghost use Rattle.std.specs.Prelude.{◌≡◌, ◌≤◌, ◌+◌, ◌-◌, [], pos};
ghost use Rattle.plan_rules.specs.Terms.{largest};
ghost use Rattle.plan_rules.specs.Pricing.{amounts_at};

use claim_profile::{Amount, Amounts, Claim};

/// The largest amount in cents, and the largest price.
pub const LARGEST: u32 = 99_999_999;

/// The amounts for a claim at a plan's fee and copay and the price of the product.
///
/// The fee paid is at most what the claim asks for and the plan's fee. The cost paid is at most what the claim asks
/// for and what the quantity is worth, in whole cents, and leaves cost and fee together an amount. The patient pays
/// the copay, but no more than there is to pay; the plan pays the rest.
pub fn amounts_at(fee: u32, copay: u32, price: u32, claim: &Claim) -> Amounts
    requires { fee ≤ largest }
    ensures paid { result ≡ amounts_at (record { fee = fee; copay = copay; prices = [] }) claim.now price }
    // What patient and plan pay is what cost and fee come to.
    ensures sum { result.total + result.copay ≡ result.cost + result.fee }
{
    let fee = claim.fee.min(fee);
    let worth = claim.quantity.saturating_mul(u64::from(price)) / 100_000;
    let cost = claim.cost.min(LARGEST - fee);
    let cost = if worth < u64::from(cost) {
        worth as u32
    } else {
        cost
    };
    let copay = copay.min(cost + fee);
    amounts(cost, fee, copay)
}

/// The amounts of these cents, of which the plan pays what the patient does not.
fn amounts(cost: u32, fee: u32, copay: u32) -> Amounts
    requires sum { cost + fee ≤ largest }
    requires part { copay ≤ cost + fee }
    ensures { result ≡ record { cost = cost; fee = fee; copay = copay; total = cost + fee - copay } }
{
    Amounts::new(
        amount(cost),
        amount(fee),
        amount(copay),
        amount(cost + fee - copay),
    )
    .unwrap()
}

/// The amount of this many cents.
fn amount(cents: u32) -> Amount
    requires { cents ≤ largest }
    ensures { result ≡ pos cents }
{
    Amount::new(i64::from(cents)).unwrap()
}

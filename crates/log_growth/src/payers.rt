//! Payers under old and new settings.

ghost use Rattle.std.specs.Prelude.{◌≡◌, ◌==◌, ◌&&◌, ◌<◌, bytes_eq, length, map, slice_get, IfSome};
ghost use Rattle.world_setup.specs.Seen.{payer_seen};
ghost use Rattle.log_growth.specs.Compared.{first_other, payer_grows, same_prices};

use plan_rules::Plan;
use world_setup::PayerSettings;

/// The number of the first payer that is gone or has not grown.
pub(crate) fn first_payer(old: &[PayerSettings], new: &[PayerSettings]) -> Option<usize>
    ensures { result ≡ first_other payer_grows 1 (map payer_seen old.now) (map payer_seen new.now) }
{
    for (place, one) in old.iter().enumerate() {
        let Some(other) = new.get(place) else {
            return Some(place + 1);
        };
        if !payer_grows(one, other) {
            return Some(place + 1);
        }
    }
    None
}

/// Whether a payer is the same, with as large a cap or a larger one.
fn payer_grows(old: &PayerSettings, new: &PayerSettings) -> bool
    ensures { result ≡ payer_grows (payer_seen old.now) (payer_seen new.now) }
{
    old.book.serial() == new.book.serial()
        && old.book.asks() == new.book.asks()
        && old.book.reversals() == new.book.reversals()
        && old.book.carries() == new.book.carries()
        && old.book.cap() <= new.book.cap()
        && old.plan.fee() == new.plan.fee()
        && old.plan.copay() == new.plan.copay()
        && same_prices(&old.plan, &new.plan)
}

/// Whether two plans have the same products at the same prices.
#[tactic(auto, using(crate::proofs::Counts::other_counts))]
fn same_prices(old: &Plan, new: &Plan) -> bool
    ensures { result ≡ same_prices old.now.prices new.now.prices }
{
    let count = old.products();
    if count != new.products() {
        return false;
    }
    for place in 0..count {
        if !same_price(old, new, place) {
            return false;
        }
    }
    true
}

/// Whether two plans have the same product at this place, at the same price.
fn same_price(old: &Plan, new: &Plan, place: usize) -> bool
    requires old { place < length old.now.prices }
    requires new { place < length new.now.prices }
    ensures { IfSome (slice_get old.now.prices place) (λ p. IfSome (slice_get new.now.prices place) (λ q.
        result ≡ (bytes_eq p.0 q.0 && (p.1 == q.1)))) }
{
    let Some((product, price)) = old.product(place) else {
        return false;
    };
    let Some((other, other_price)) = new.product(place) else {
        return false;
    };
    product == other && price == other_price
}

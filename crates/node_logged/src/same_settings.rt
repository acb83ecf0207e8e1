//! Whether two settings are the same.

ghost use Rattle.std.specs.Prelude.{◌≡◌, IsTrue, option_map};
ghost use Rattle.node_logged.specs.SameSettings.{AreAlike, priced};

use bin_routes::{Providers, RouteRow};
use pharmacy_journal::PharmacySettings;
use plan_rules::Plan;
use switch_node::SwitchSettings;
use world_setup::{PayerSettings, WorldSettings};

/// Settings of which a test finds out that they are the same.
trait Alike {
    /// Whether they are the same; true only where they are.
    fn is_alike(&self, other: &Self) -> bool
        ensures { IsTrue result → self.now ≡ other.now };
}

/// Whether two settings open the same nodes under the same routes; true only where they do.
pub(crate) fn is_alike(a: &WorldSettings, b: &WorldSettings) -> bool
    ensures { IsTrue result → AreAlike a.now b.now }
{
    are_alike(a.pharmacies.as_slice(), b.pharmacies.as_slice())
        && are_alike(a.switches.as_slice(), b.switches.as_slice())
        && are_alike(a.payers.as_slice(), b.payers.as_slice())
        && are_alike(a.routes.as_slice(), b.routes.as_slice())
}

/// Whether two lists are the same.
fn are_alike<T: Alike>(a: &[T], b: &[T]) -> bool
    ensures { IsTrue result → a.now ≡ b.now }
{
    if a.len() != b.len() {
        return false;
    }
    for (place, one) in a.iter().enumerate() {
        if !one.is_alike(&b[place]) {
            return false;
        }
    }
    true
}

impl Alike for PharmacySettings {
    #[tactic(auto, using(crate::proofs::Sameness::same_pharmacy))]
    fn is_alike(&self, other: &PharmacySettings) -> bool {
        is_same_text(&self.qualifier(), &other.qualifier())
            && is_same_text(&self.provider(), &other.provider())
            && are_alike(self.nodes(), other.nodes())
            && self.again() == other.again()
            && self.tries() == other.tries()
            && self.cap() == other.cap()
    }
}

impl Alike for u16 {
    fn is_alike(&self, other: &u16) -> bool {
        *self == *other
    }
}

impl Alike for SwitchSettings {
    fn is_alike(&self, other: &SwitchSettings) -> bool {
        self.cap() == other.cap()
    }
}

impl Alike for PayerSettings {
    #[tactic(auto, using(crate::proofs::Sameness::same_payer))]
    fn is_alike(&self, other: &PayerSettings) -> bool {
        self.book.serial() == other.book.serial()
            && self.book.cap() == other.book.cap()
            && self.book.asks() == other.book.asks()
            && self.book.reversals() == other.book.reversals()
            && self.book.carries() == other.book.carries()
            && is_same_plan(&self.plan, &other.plan)
    }
}

impl Alike for RouteRow {
    #[tactic(auto, using(crate::proofs::Sameness::same_row))]
    fn is_alike(&self, other: &RouteRow) -> bool {
        is_same_text(self.bin(), other.bin())
            && is_same_number(self.pcn(), other.pcn())
            && is_same_range(self.providers(), other.providers())
            && self.payer() == other.payer()
            && self.rejected() == other.rejected()
    }
}

/// Whether two plans are the same.
#[tactic(auto, using(crate::proofs::Sameness::same_plan))]
fn is_same_plan(a: &Plan, b: &Plan) -> bool
    ensures { IsTrue result → a.now ≡ b.now }
{
    a.fee() == b.fee() && a.copay() == b.copay() && have_same_prices(a, b)
}

/// Whether two plans have the same products at the same prices.
fn have_same_prices(a: &Plan, b: &Plan) -> bool
    ensures { IsTrue result → a.now.prices ≡ b.now.prices }
{
    let products = a.products();
    if products != b.products() {
        return false;
    }
    for place in 0..products {
        if !is_same_price(a.product(place), b.product(place)) {
            return false;
        }
    }
    true
}

/// Whether two products have the same name and price.
fn is_same_price(a: Option<(&[u8], u32)>, b: Option<(&[u8], u32)>) -> bool
    ensures { IsTrue result → priced a.entry ≡ priced b.entry }
{
    match a {
        Some((a, price)) => match b {
            Some((b, other)) => price == other && is_same_text(a, b),
            None => false,
        },
        None => b.is_none(),
    }
}

/// Whether two processor control numbers are the same, or both are none.
fn is_same_number(a: Option<&[u8]>, b: Option<&[u8]>) -> bool
    ensures { IsTrue result → option_map (λ t. t.now) a.entry ≡ option_map (λ t. t.now) b.entry }
{
    match a {
        Some(a) => match b {
            Some(b) => is_same_text(a, b),
            None => false,
        },
        None => b.is_none(),
    }
}

/// Whether two ranges of providers are the same, or both are none.
#[tactic(auto, using(crate::proofs::Sameness::same_range))]
fn is_same_range(a: Option<Providers>, b: Option<Providers>) -> bool
    ensures { IsTrue result → a ≡ b }
{
    match a {
        Some(a) => match b {
            Some(b) => {
                is_same_text(&a.qualifier, &b.qualifier)
                    && is_same_text(&a.first, &b.first)
                    && is_same_text(&a.last, &b.last)
            }
            None => false,
        },
        None => b.is_none(),
    }
}

/// Whether two texts are the same bytes.
fn is_same_text(a: &[u8], b: &[u8]) -> bool
    ensures { IsTrue result → a.now ≡ b.now }
{
    a == b
}

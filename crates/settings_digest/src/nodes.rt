//! What settings say of pharmacies, switches and payers.

ghost use Rattle.std.specs.Prelude.{◌≡◌, ◌<◌, ◌++◌, length, map, slice_get, OnOk, IfSome};
ghost use Rattle.std.specs.List.{AllByRecursion, flat_map};
ghost use Rattle.world_setup.specs.Seen.{payer_seen};
ghost use Rattle.settings_digest.specs.Said.{number_text, identity_text, retries_text, pharmacy_text, serial_text, book_text, plan_text, payer_text, price_text, list_text};
ghost use Rattle.settings_digest.specs.Fits.{FitsNumber, FitsIdentity, FitsRetries, FitsPharmacy, FitsSerial, FitsBook, FitsPlan, FitsPayer, FitsPrice, FitsList};

use crate::fields::{Say, put_list, put_number, put_text};
use payer_book::BookSettings;
use pharmacy_journal::PharmacySettings;
use plan_rules::Plan;
use std::alloc::AllocError;
use switch_node::SwitchSettings;
use world_setup::PayerSettings;

impl Say for PharmacySettings {
    ghost text = { λ pharmacy. pharmacy_text pharmacy };

    ghost Fits = { λ pharmacy. FitsPharmacy pharmacy };

    #[tactic(auto, unfolding(crate::specs::Said::pharmacy_text))]
    fn say(&self, out: &mut Vec<u8>) -> Result<(), AllocError> {
        put_identity(out, self)?;
        put_list(out, self.nodes())?;
        put_retries(out, self)
    }
}

impl Say for SwitchSettings {
    ghost text = { λ cap. number_text cap };

    ghost Fits = { λ cap. FitsNumber cap };

    fn say(&self, out: &mut Vec<u8>) -> Result<(), AllocError> {
        put_number(out, u64::from(self.cap()))
    }
}

impl Say for PayerSettings {
    ghost text = { λ payer. payer_text (payer_seen payer) };

    ghost Fits = { λ payer. FitsPayer (payer_seen payer) };

    #[tactic(auto, unfolding(crate::specs::Said::payer_text))]
    fn say(&self, out: &mut Vec<u8>) -> Result<(), AllocError> {
        put_book(out, self.book)?;
        put_plan(out, &self.plan)
    }
}

/// Puts what a pharmacy is known by.
fn put_identity(out: &mut Vec<u8>, pharmacy: &PharmacySettings) -> Result<(), AllocError>
    ensures text { OnOk result (out.new.items ≡ out.old.items ++ identity_text pharmacy.now) }
    ensures fits { OnOk result (FitsIdentity pharmacy.now) }
{
    put_text(out, &pharmacy.qualifier())?;
    put_text(out, &pharmacy.provider())
}

/// Puts when a pharmacy sends again, and its cap.
fn put_retries(out: &mut Vec<u8>, pharmacy: &PharmacySettings) -> Result<(), AllocError>
    ensures text { OnOk result (out.new.items ≡ out.old.items ++ retries_text pharmacy.now) }
    ensures fits { OnOk result (FitsRetries pharmacy.now) }
{
    put_number(out, u64::from(pharmacy.again()))?;
    put_number(out, u64::from(pharmacy.tries()))?;
    put_number(out, u64::from(pharmacy.cap()))
}

/// Puts what a book is opened with.
fn put_book(out: &mut Vec<u8>, book: BookSettings) -> Result<(), AllocError>
    ensures text { OnOk result (out.new.items ≡ out.old.items ++ book_text book) }
    ensures fits { OnOk result (FitsBook book) }
{
    put_serial(out, book)?;
    put_number(out, u64::from(book.cap()))
}

/// Puts the first serial number of a book. Where its payer asks, 0 stands before it, which is no serial number, where it asks about
/// reversals twice more, and where answers carry what advices say beside their rulings four times more.
fn put_serial(out: &mut Vec<u8>, book: BookSettings) -> Result<(), AllocError>
    ensures text { OnOk result (out.new.items
        ≡ out.old.items ++ serial_text book.asks book.reversals book.carries book.serial) }
    ensures fits { OnOk result (FitsSerial book.serial) }
{
    if book.asks() {
        put_number(out, 0)?;
    }
    if book.reversals() {
        put_number(out, 0)?;
        put_number(out, 0)?;
    }
    if book.carries() {
        put_number(out, 0)?;
        put_number(out, 0)?;
        put_number(out, 0)?;
        put_number(out, 0)?;
    }
    put_number(out, book.serial())
}

/// Puts a plan.
fn put_plan(out: &mut Vec<u8>, plan: &Plan) -> Result<(), AllocError>
    ensures text { OnOk result (out.new.items ≡ out.old.items ++ plan_text plan.now) }
    ensures fits { OnOk result (FitsPlan plan.now) }
{
    put_number(out, u64::from(plan.fee()))?;
    put_number(out, u64::from(plan.copay()))?;
    put_prices(out, plan)
}

/// Puts payers, in the words of the model.
pub(crate) fn put_payers(out: &mut Vec<u8>, payers: &[PayerSettings]) -> Result<(), AllocError>
    ensures text { OnOk result (out.new.items ≡ out.old.items ++ list_text payer_text (map payer_seen payers.now)) }
    ensures fits { OnOk result (FitsList FitsPayer (map payer_seen payers.now)) }
{
    put_list(out, payers)
}

/// Puts the prices of a plan, in the order of their products.
#[tactic(auto, unfolding(crate::specs::Said::list_text))]
fn put_prices(out: &mut Vec<u8>, plan: &Plan) -> Result<(), AllocError>
    ensures text { OnOk result (out.new.items ≡ out.old.items ++ list_text price_text plan.now.prices) }
    ensures fits { OnOk result (FitsList FitsPrice plan.now.prices) }
{
    put_number(out, plan.products() as u64)?;
    put_each_price(out, plan)
}

/// Puts each price of a plan, one after the other.
fn put_each_price(out: &mut Vec<u8>, plan: &Plan) -> Result<(), AllocError>
    ensures text { OnOk result (out.new.items ≡ out.old.items ++ flat_map price_text plan.now.prices) }
    ensures fits { OnOk result (AllByRecursion FitsPrice plan.now.prices) }
{
    for place in 0..plan.products() {
        put_price(out, plan, place)?;
    }
    Ok(())
}

/// Puts the product at a place of a plan, and its price.
fn put_price(out: &mut Vec<u8>, plan: &Plan, place: usize) -> Result<(), AllocError>
    requires { place < length plan.now.prices }
    ensures text { OnOk result (IfSome (slice_get plan.now.prices place) (λ p.
        out.new.items ≡ out.old.items ++ price_text p)) }
    ensures fits { OnOk result (IfSome (slice_get plan.now.prices place) FitsPrice) }
{
    let Some((product, price)) = plan.product(place) else {
        return Err(AllocError);
    };
    put_text(out, product)?;
    put_number(out, u64::from(price))
}

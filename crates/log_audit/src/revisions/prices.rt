//! The rows of price changes.

ghost use Rattle.std.specs.Prelude.{◌≡◌, ◌∷◌, [], bytes_eq, cond, map, option_map, slice_get, Some, None, OnOk};
ghost use Rattle.table_text.specs.Adding.{Adds, AddsRows};
ghost use Rattle.table_text.specs.Rows.{head_text};
ghost use Rattle.table_text.specs.declared.layout.Style.TheVariants.{Csv};
ghost use Rattle.log_audit.specs.Changes.{change_seen, to_seen};
ghost use Rattle.log_audit.specs.Prices.{listed_price, opening_price, price_after, price_if, price_names, price_of, price_row, price_rows, price_set, price_then};

use crate::revisions::changes::{Change, To};
use plan_rules::Plan;
use std::alloc::AllocError;
use table_text::{Field, Style, put_head, put_row};
use world_setup::WorldSettings;

/// Appends the names of the columns, of which that of the place is this one.
pub(crate) fn put_price_names(out: &mut Vec<u8>, name: &[u8]) -> Result<(), AllocError>
    ensures { OnOk result (Adds out.old out.new (head_text (price_names name.now))) }
{
    put_head(
        out,
        &[
            b"payer",
            name,
            b"product",
            b"price_before_ten_thousandths",
            b"price_after_ten_thousandths",
        ],
    )
}

/// Appends the row of a change after these, if it is one of a price.
#[tactic(auto, using(crate::proofs::Changing::unseen_told))]
pub(crate) fn put_price_change(
    out: &mut Vec<u8>,
    settings: &WorldSettings,
    name: &'static [u8],
    before: &[Change<'_>],
    change: &Change<'_>,
) -> Result<(), AllocError>
    ensures { OnOk result (AddsRows Csv out.old out.new
        (price_rows settings.now name.now (map change_seen before.now) (change_seen change.now))) }
{
    match price_of(change.to) {
        Some((product, price)) => {
            let opening = opening_price(settings, change.number, product);
            let before = price_after(change.number, product, opening, before);
            put_price(out, name, change, product, before, price)
        }
        None => Ok(()),
    }
}

/// Appends the row of a change of a product that cost this before, and costs this then.
#[tactic(auto, unfolding(crate::specs::Prices::price_row))]
fn put_price(
    out: &mut Vec<u8>,
    name: &'static [u8],
    change: &Change<'_>,
    product: &[u8],
    before: Option<u64>,
    after: Option<u64>,
) -> Result<(), AllocError>
    ensures { OnOk result (AddsRows Csv out.old out.new
        (price_row name.now change.now.number change.now.place product.now before after ∷ [])) }
{
    let fields = [
        Field::number(b"payer", change.number),
        Field::number(name, change.place),
        Field::text(b"product", product),
        Field::number_or_nothing(b"price_before_ten_thousandths", before),
        Field::number_or_nothing(b"price_after_ten_thousandths", after),
    ];
    put_row(out, Style::Csv, &fields)
}

/// The price of a product under the settings of a payer.
fn opening_price(settings: &WorldSettings, payer: u64, product: &[u8]) -> Option<u64>
    ensures { result ≡ opening_price settings.now payer product.now }
{
    match settings.payers.get((payer as usize).saturating_sub(1)) {
        Some(payer) => listed_price(&payer.plan, product),
        None => None,
    }
}

/// The price of a product on a plan.
#[tactic(auto, using(crate::proofs::Pricing::listed_here, crate::proofs::Pricing::listed_behind))]
fn listed_price(plan: &Plan, product: &[u8]) -> Option<u64>
    ensures { result ≡ listed_price plan.now.prices product.now }
{
    for place in 0..plan.products() {
        if let Some(price) = price_at(plan, place, product) {
            return Some(price);
        }
    }
    None
}

/// The price at a place of a plan, if it is that of a product.
fn price_at(plan: &Plan, place: usize, product: &[u8]) -> Option<u64>
    ensures { result ≡ price_if (slice_get plan.now.prices place) product.now }
{
    match plan.product(place) {
        Some((listed, price)) => price_if(listed, price, product),
        None => None,
    }
}

/// A price, if it is that of a product.
fn price_if(listed: &[u8], price: u32, product: &[u8]) -> Option<u64>
    ensures { result ≡ cond (bytes_eq listed.now product.now) (Some price) None }
{
    if listed == product {
        Some(u64::from(price))
    } else {
        None
    }
}

/// The price of a payer's product that cost this before, after some changes.
fn price_after(
    payer: u64,
    product: &[u8],
    price: Option<u64>,
    changes: &[Change<'_>],
) -> Option<u64>
    ensures { result ≡ price_after payer product.now price (map change_seen changes.now) }
{
    let mut then = price;
    for change in changes {
        then = price_then(payer, product, then, change);
    }
    then
}

/// The same after one change.
fn price_then(payer: u64, product: &[u8], price: Option<u64>, change: &Change<'_>) -> Option<u64>
    ensures { result ≡ price_then payer product.now price (change_seen change.now) }
{
    if change.number == payer {
        price_set(product, price, change.to)
    } else {
        price
    }
}

/// The price of a product that cost this before, after a change of its payer.
fn price_set(product: &[u8], price: Option<u64>, to: To<'_>) -> Option<u64>
    ensures { result ≡ price_set product.now price (price_of (to_seen to.entry)) }
{
    match price_of(to) {
        Some((changed, after)) => { if changed == product { after } else { price } }
        None => price,
    }
}

/// The product and the price of a change, if it is one of a price.
fn price_of(to: To<'_>) -> Option<(&[u8], Option<u64>)>
    ensures { option_map (λ p. (p.0.now, p.1)) result ≡ price_of (to_seen to.entry) }
{
    match to {
        To::Price { product, price } => Some((product, price)),
        To::Terms(_) => None,
        To::Rule(_) => None,
        To::Cap(_) => None,
    }
}

//! The prices of products, sorted by product.

ghost use Rattle.std.specs.Prelude.{◌≡◌, ◌<◌, ◌≤◌, length, insert, IfErr, IsOk, IsSome, Ok, OnErr, OnOk};
ghost use Rattle.std.specs.List.Sorted.{IsSearchInRange};
ghost use Rattle.plan_rules.specs.Prices.{IsInOrder, by_bytes, price_of, without_product};
ghost use Rattle.plan_rules.specs.Searching.{place_in};
ghost use Rattle.plan_rules.specs.Terms.{IsNoRoom, RefusedFor, most_products, stored};

use crate::fault::PlanFault;
use claim_profile::Text;
use std::cmp::Ordering;

/// A product and its price in ten-thousandths of a dollar a unit.
pub type Price = (Text<19>, u32);

/// The most products that a plan has.
const MOST_PRODUCTS: usize = 4096;

/// How an entry's product compares with a product, byte by byte.
fn compare(entry: &Price, product: &[u8]) -> Ordering
    ensures { result ≡ by_bytes entry.now.0 product.now }
{
    entry.0.as_slice().cmp(product)
}

/// Where a product stands, or where it would stand.
fn place_of(prices: &[Price], product: &[u8]) -> Result<usize, usize>
    requires { IsInOrder prices.now }
    ensures place { result ≡ place_in by_bytes product.now prices.now }
    ensures in_range { IsSearchInRange result (length prices.now) }
{
    prices.binary_search_by(|entry| compare(entry, product))
}

/// The price of a product.
pub fn price_of(prices: &[Price], product: &[u8]) -> Option<u32>
    requires { IsInOrder prices.now }
    ensures { result ≡ price_of prices.now product.now }
{
    match place_of(prices, product) {
        Ok(place) => Some(prices[place].1),
        Err(_) => None,
    }
}

/// Sets the price of a product. A new product beside the most that a plan has is PlanFull.
pub fn set_price(prices: &mut Vec<Price>, product: Text<19>, price: u32) -> Result<(), PlanFault>
    requires { IsInOrder prices.old.items }
    ensures ok { OnOk result (stored prices.old.items product price ≡ Ok prices.new.items) }
    ensures err { OnErr result (prices.new.items ≡ prices.old.items) }
    ensures cause { IfErr result (λ fault. RefusedFor fault (stored prices.old.items product price)) }
    ensures known { IsSome (price_of prices.old.items product) → IsOk result }
{
    match place_of(prices, product.as_slice()) {
        Ok(place) => {
            prices[place] = (product, price);
            Ok(())
        }
        Err(place) => insert_price(prices, place, (product, price)),
    }
}

/// Inserts a new product at its place, if the plan is not full.
fn insert_price(prices: &mut Vec<Price>, place: usize, entry: Price) -> Result<(), PlanFault>
    requires { place ≤ length prices.old.items }
    ensures ok { OnOk result (prices.new.items ≡ insert prices.old.items place entry) }
    ensures room { OnOk result (length prices.old.items < most_products) }
    ensures err { OnErr result (prices.new.items ≡ prices.old.items) }
    ensures cause { IfErr result (λ fault. IsNoRoom fault (length prices.old.items)) }
{
    if prices.len() >= MOST_PRODUCTS {
        return Err(PlanFault::PlanFull);
    }
    prices.insert(place, entry)?;
    Ok(())
}

/// Takes a product away, if it is there.
pub fn remove_price(prices: &mut Vec<Price>, product: &[u8])
    requires { IsInOrder prices.old.items }
    ensures { prices.new.items ≡ without_product prices.old.items product.now }
{
    if let Ok(place) = place_of(prices, product) {
        prices.remove(place);
    }
}

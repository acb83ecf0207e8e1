//! The prices are a finite map from products to prices.

ghost use Rattle.std.specs.Prelude.{◌≡◌, ◌↔◌, ℕ, List, None, Some, if◌then◌else◌};
ghost use Rattle.std.specs.Ordering.{is_eq};
ghost use Rattle.plan_rules.specs.Prices.{Prices, by_bytes, price_of, with_price, without_product};

use std::cmp::Ordering;

/// A price that was set is found, and every other product keeps its price.
pub fn set_price_is_found()
    ensures { (prices : Prices) → (product other : List ℕ) → (price : ℕ) →
        price_of (with_price prices product price) other
        ≡ (if is_eq (by_bytes other product) then Some price else price_of prices other) }
{}

/// A product that was cleared has no price, and every other product keeps its price.
pub fn cleared_price_is_gone()
    ensures { (prices : Prices) → (product other : List ℕ) →
        price_of (without_product prices product) other
        ≡ (if is_eq (by_bytes other product) then None else price_of prices other) }
{}

/// Two products are one exactly where their bytes are the same.
pub fn same_bytes_are_one_product()
    ensures { (product other : List ℕ) → (by_bytes other product ≡ Ordering.Equal) ↔ (other ≡ product) }
{}

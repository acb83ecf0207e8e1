//! A processor's plan: what it pays for a claim, from its dispensing fee, its copay and the prices of its products.
#![tactic(auto)]

mod fault;
mod laws;
mod plan;
mod prices;
mod pricing;
mod product;

pub use fault::PlanFault;
pub use laws::{cleared_price_is_gone, same_bytes_are_one_product, set_price_is_found};
pub use plan::Plan;

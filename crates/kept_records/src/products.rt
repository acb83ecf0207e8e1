//! The products of a plan, as they are written and as they are read.

ghost use Rattle.std.specs.Prelude.{◌≡◌, ◌≤◌, ◌<◌, ◌++◌, length, slice_get, Ok, None, IfOk, OnOk};
ghost use Rattle.std.specs.Option.{option_map};
ghost use Rattle.std.specs.Result.{result_ok};
ghost use Rattle.plan_rules.specs.Terms.{repriced};
ghost use Rattle.kept_records.specs.Faults.{RefusesAs, RefusesAt, each_in};
ghost use Rattle.kept_records.specs.Products.{product_codec, products_text, text_there};
ghost use Rattle.kept_records.specs.Plans.{is_next, listed};

use crate::fault::RecordFault;
use codec::{put_u8, put_u32, take_bytes, take_u8, take_u32};
use plan_rules::{Plan, PlanFault};
use std::alloc::AllocError;

/// A product as it stands in bytes, and its price in ten-thousandths of a dollar a unit.
#[derive(Clone, Copy)]
struct Listed<'a> {
    product: &'a [u8],
    price: u32,
}

/// The product at the front and what follows it; none where it is cut off.
#[tactic(auto, unfolding(crate::specs::Products::product_codec))]
fn take_product(bytes: &[u8]) -> Option<(Listed<'_>, &[u8])>
    ensures { option_map (λ taken. ((taken.0.product.now, taken.0.price), taken.1.now)) result
        ≡ product_codec.at bytes.now }
{
    let (count, rest) = take_u8(bytes)?;
    let (product, rest) = take_bytes(u64::from(count), rest)?;
    let (price, rest) = take_u32(rest)?;
    Some((Listed { product, price }, rest))
}

/// Whether a product is greater than the last one of the plan, in byte order.
fn is_next(plan: &Plan, product: &[u8]) -> bool
    ensures { result ≡ is_next plan.now.prices product.now }
{
    match plan.product(plan.products().saturating_sub(1)) {
        Some((last, _)) => last.cmp(product).is_lt(),
        None => true,
    }
}

/// Sets the price of the product of the record at a place.
fn set_price(place: usize, plan: &mut Plan, listed: &Listed<'_>) -> Result<(), RecordFault>
    ensures ok { OnOk result (repriced plan.old listed.now.product.now listed.now.price ≡ Ok plan.new) }
    ensures fault { RefusesAt place
        (result_ok (repriced plan.old listed.now.product.now listed.now.price) ≡ None) result }
{
    match plan.set(listed.product, listed.price) {
        Ok(()) => Ok(()),
        Err(PlanFault::OutOfMemory) => Err(RecordFault::OutOfMemory),
        Err(_) => Err(RecordFault::BadRecord(place)),
    }
}

/// Lists the product that stands at the front of the bytes, at a place of all bytes, and gives what follows it.
#[tactic(auto, unfolding(crate::specs::Plans::listed))]
fn list_next<'a>(place: usize, plan: &mut Plan, bytes: &'a [u8]) -> Result<&'a [u8], RecordFault>
    ensures ok { IfOk result (λ rest. listed place plan.old bytes.now ≡ Ok (plan.new, rest.now)) }
    ensures fault { RefusesAs (listed place plan.old bytes.now) result }
{
    let Some((listed, rest)) = take_product(bytes) else {
        return Err(RecordFault::BadRecord(place));
    };
    if !is_next(plan, listed.product) {
        return Err(RecordFault::BadRecord(place));
    }
    set_price(place, plan, &listed)?;
    Ok(rest)
}

/// The plan with `count` products more, which stand at the front of these last bytes of `total`, and what follows them.
pub(crate) fn read_products(
    total: usize,
    count: u32,
    mut plan: Plan,
    bytes: &[u8],
) -> Result<(Plan, &[u8]), RecordFault>
    ensures ok { IfOk result (λ read. each_in listed total count plan bytes.now ≡ Ok (read.0, read.1.now)) }
    ensures fault { RefusesAs (each_in listed total count plan bytes.now) result }
{
    let mut rest = bytes;
    for _ in 0..count {
        let place = total.saturating_sub(rest.len());
        rest = list_next(place, &mut plan, rest)?;
    }
    Ok((plan, rest))
}

/// Puts the products of a plan, in byte order.
pub(crate) fn put_products(out: &mut Vec<u8>, plan: &Plan) -> Result<(), AllocError>
    ensures { OnOk result (out.new.items ≡ out.old.items ++ products_text plan.now.prices) }
{
    for place in 0..plan.products() {
        put_product_of(out, plan, place)?;
    }
    Ok(())
}

/// Puts the product at a place of a plan, if there is one.
fn put_product_of(out: &mut Vec<u8>, plan: &Plan, place: usize) -> Result<(), AllocError>
    ensures { OnOk result (out.new.items ≡ out.old.items ++ text_there (slice_get plan.now.prices place)) }
{
    let _count = plan.products();
    match plan.product(place) {
        Some((product, price)) => put_product(out, product, price),
        None => Ok(()),
    }
}

/// Puts a product of at most 255 bytes after its length, and its price.
#[tactic(auto, unfolding(crate::specs::Products::product_codec))]
fn put_product(out: &mut Vec<u8>, product: &[u8], price: u32) -> Result<(), AllocError>
    requires { length product.now ≤ 255 }
    ensures { OnOk result (out.new.items ≡ out.old.items ++ product_codec.text (product.now, price)) }
{
    put_u8(out, product.len() as u8)?;
    out.extend_from_slice(product)?;
    put_u32(out, price)
}

//! Reading what a transaction asks for.

ghost use Rattle.std.specs.Prelude.{◌≡◌, ◌<◌, ◌≤◌, List, [], ◌∷◌, length, Err};
ghost use Rattle.d0_segments.specs.Parts.{SegmentParts};
ghost use Rattle.d0_segments.specs.Pieces.{groups_of};
ghost use Rattle.d0_segments.specs.Views.{segments_parts};
ghost use Rattle.d0_segments.specs.Transmissions.{transmission_parts};
ghost use Rattle.d0_segments.specs.FramedParts.{framed_parts, shared_in, group_in};
ghost use Rattle.claim_profile.specs.Order.{claim_codes, claim_order, reversal_order, order_of, placed_order};
ghost use Rattle.claim_profile.specs.OrderSeen.{claim_seen};
ghost use Rattle.claim_profile.specs.OrderTally.{order_seen, claim_counted};
ghost use Rattle.claim_profile.specs.declared.reject.Code.TheVariants.{NotCovered};
ghost use Rattle.claim_profile.specs.declared.order_reading.OrderFault.TheVariants.{Rejected};

use crate::order::Order;
use crate::order_fields::{ClaimFields, ReversalFields, claim_spelled};
use crate::order_values::OrderValues;
use crate::reject::{Code, Rejects};
use crate::transaction::TransactionCode;
use d0_header::RequestHeader;
use d0_segments::{Framed, Segment, Transmission};
use thiserror::Error;

/// Why a transaction has no order.
#[derive(Clone, Copy, Debug, PartialEq, Eq, Error)]
pub enum OrderFault {
    /// Fields are missing or invalid: their reject codes, in order, the first five. Under a code of no
    /// transaction that is carried: 70 alone.
    #[error("rejected {0}")]
    Rejected(Rejects),
}

/// Reads the order of the transaction at `place`, from 0. A billing asks for a claim, a reversal for
/// one; under any other code, which no readable request has, it asks for a service that is not covered.
///
/// Of each field the values count that are not empty, wherever they stand in segments of the field's
/// identification at its level; texts lose trailing spaces first. A required field has exactly one
/// value, an optional one at most one, and each passes its test. Takes no memory.
pub fn read_order(
    transmission: &Transmission<'_, RequestHeader>,
    place: usize,
) -> Result<Order, OrderFault>
    requires { place < length transmission.now.groups.items }
    ensures { result ≡ placed_order (transmission_parts transmission.now) place }
{
    read_group_order(
        transmission.header(),
        transmission.shared(),
        transmission.group(place),
    )
}

/// Reads the order in the shared segments and those of a group.
#[tactic(auto, unfolding(crate::specs::Order::order_of))]
fn read_group_order(
    header: &RequestHeader,
    shared: &[Segment<'_>],
    group: &[Segment<'_>],
) -> Result<Order, OrderFault>
    ensures { result ≡ order_of header.now (segments_parts shared.now) (segments_parts group.now) }
{
    match TransactionCode::read(header.code()) {
        Some(TransactionCode::Billing) => claim(header, shared, group),
        Some(TransactionCode::Reversal) => reversal(header, group),
        None => not_covered(),
    }
}

fn claim(
    header: &RequestHeader,
    shared: &[Segment<'_>],
    group: &[Segment<'_>],
) -> Result<Order, OrderFault>
    ensures { result ≡ claim_order header.now (segments_parts shared.now) (segments_parts group.now) }
{
    claim_of(header, &OrderValues::of(shared, group))
}

fn reversal(header: &RequestHeader, group: &[Segment<'_>]) -> Result<Order, OrderFault>
    ensures { result ≡ reversal_order header.now (segments_parts group.now) }
{
    reversal_of(header, &OrderValues::of(&[], group))
}

/// Reads the order of the transaction at `place` in place, as [`read_order`] reads it in a transmission.
/// Takes no memory.
#[tactic(auto, unfolding(crate::specs::Order::order_of))]
pub fn order_at(framed: &Framed<'_, RequestHeader>, place: usize) -> Result<Order, OrderFault>
    requires { place < length (groups_of framed.now.body.bytes.now) }
    ensures { result ≡ placed_order (framed_parts framed.now) place }
{
    match TransactionCode::read(framed.header().code()) {
        Some(TransactionCode::Billing) => claim_at(framed, place),
        Some(TransactionCode::Reversal) => reversal_at(framed, place),
        None => not_covered(),
    }
}

fn claim_at(framed: &Framed<'_, RequestHeader>, place: usize) -> Result<Order, OrderFault>
    requires { place < length (groups_of framed.now.body.bytes.now) }
    ensures { result ≡ claim_order framed.now.header (shared_in framed.now) (group_in framed.now place) }
{
    claim_of(framed.header(), &OrderValues::in_claim(framed, place))
}

fn reversal_at(framed: &Framed<'_, RequestHeader>, place: usize) -> Result<Order, OrderFault>
    requires { place < length (groups_of framed.now.body.bytes.now) }
    ensures { result ≡ reversal_order framed.now.header (group_in framed.now place) }
{
    reversal_of(framed.header(), &OrderValues::in_reversal(framed, place))
}

/// What a transaction of no kind that is carried asks for.
#[inline(never)]
fn not_covered() -> Result<Order, OrderFault>
    ensures { result ≡ Err (Rejected (NotCovered ∷ [])) }
{
    Err(OrderFault::Rejected(Rejects::one(Code::NotCovered)))
}

/// The claim of these values.
#[inline(always)]
#[tactic(auto, using(crate::proofs::OrderLemmas::claim_fields_are, crate::proofs::OrderLemmas::claim_order_ok, crate::proofs::OrderLemmas::claim_order_rejected, crate::proofs::OrderLemmas::claim_code))]
fn claim_of(header: &RequestHeader, values: &OrderValues<'_>) -> Result<Order, OrderFault>
    ensures { (shared group : List SegmentParts) → order_seen values.now ≡ claim_counted shared group
        → result ≡ claim_order header.now shared group }
{
    match claim_spelled(header, values) {
        Some(order) => Ok(order),
        None => Err(OrderFault::Rejected(claim_rejects(header, values))),
    }
}

/// The reject codes of a claim that has fields that are not valid. They are read once more for it.
#[inline(never)]
fn claim_rejects(header: &RequestHeader, values: &OrderValues<'_>) -> Rejects
    requires { 1 ≤ length (claim_codes (claim_seen header.now (order_seen values.now))) }
    ensures { result ≡ claim_codes (claim_seen header.now (order_seen values.now)) }
{
    ClaimFields::of(header, values).rejects()
}

/// The reversal of these values.
#[tactic(auto, using(crate::proofs::OrderLemmas::reversal_code))]
fn reversal_of(header: &RequestHeader, values: &OrderValues<'_>) -> Result<Order, OrderFault>
    ensures { (shared group : List SegmentParts) → order_seen values.now ≡ claim_counted shared group
        → result ≡ reversal_order header.now group }
{
    let fields = ReversalFields::of(header, values);
    match fields.whole(header) {
        Some(reversal) => Ok(Order::Reversal(reversal)),
        None => Err(OrderFault::Rejected(fields.rejects())),
    }
}

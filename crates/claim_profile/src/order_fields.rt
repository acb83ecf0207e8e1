//! The fields of an order that passed their tests.

ghost use Rattle.std.specs.Prelude.{◌≡◌, ◌≤◌, length, is_some, option_map};
ghost use Rattle.claim_profile.specs.Order.{day_of_service, claim_of};
ghost use Rattle.claim_profile.specs.declared.order.Order.TheVariants as orders;
ghost use Rattle.claim_profile.specs.OrderTally.{order_seen};
ghost use Rattle.claim_profile.specs.Tally.{seen};
ghost use Rattle.claim_profile.specs.OrderSeen.{claim_seen, prescription_seen, product_seen, fill_seen};

use crate::found::Found;
use crate::order::{Claim, Fill, Order, Reversal};
use crate::order_values::OrderValues;
use crate::reject::{Code, Rejects, first_five};
use crate::texts::Text;
use crate::values::{cents, cents_if_given, fill_number, is_exactly, number, text};
use d0_header::{RequestHeader, is_date};

/// The fields of a claim that are valid, None where one is not.
#[derive(Clone, Copy)]
pub struct ClaimFields {
    pub cardholder: Option<Text<20>>,
    pub date: Option<[u8; 8]>,
    pub prescription: Option<u64>,
    pub fill: Option<u8>,
    pub product: Option<Text<19>>,
    pub quantity: Option<u64>,
    pub cost: Option<u32>,
    pub fee: Option<u32>,
}

/// The fields of a reversal that are valid, None where one is not. Its fill number may be left out.
#[derive(Clone, Copy)]
pub struct ReversalFields {
    pub date: Option<[u8; 8]>,
    pub prescription: Option<u64>,
    pub fill: Option<Option<u8>>,
}

impl ClaimFields {
    ghost use Rattle.claim_profile.specs.Order.{claim_codes};
    ghost use Rattle.claim_profile.specs.OrderSeen.{claim_seen};

    /// The fields that these values spell.
    pub fn of(header: &RequestHeader, values: &OrderValues<'_>) -> ClaimFields
        ensures { result ≡ claim_seen header.now (order_seen values.now) }
    {
        ClaimFields {
            cardholder: text(values.cardholder),
            date: date_of_service(header),
            prescription: prescription(values),
            fill: fill_number(values.fill),
            product: product(values),
            quantity: number(values.quantity, 10),
            cost: cents(values.cost),
            fee: cents_if_given(values.fee),
        }
    }

    /// The codes of the fields that are not valid, the first five.
    #[tactic(auto, unfolding(crate::specs::Order::claim_codes))]
    pub fn rejects(&self) -> Rejects
        requires { 1 ≤ length (claim_codes self.now) }
        ensures { result ≡ claim_codes self.now }
    {
        first_five(&[
            (self.cardholder.is_none(), Code::Cardholder),
            (self.date.is_none(), Code::DateOfService),
            (self.prescription.is_none(), Code::Prescription),
            (self.fill.is_none(), Code::FillNumber),
            (self.product.is_none(), Code::Product),
            (self.quantity.is_none(), Code::Quantity),
            (self.cost.is_none(), Code::IngredientCost),
            (self.fee.is_none(), Code::DispensingFee),
        ])
        .unwrap()
    }
}

/// The claim that these values spell, where each of its fields is valid. It is built where it is returned, with no
/// record of its fields.
#[inline(always)]
#[tactic(auto, unfolding(crate::specs::Order::claim_of))]
pub fn claim_spelled(header: &RequestHeader, values: &OrderValues<'_>) -> Option<Order>
    ensures { result ≡ option_map orders.Claim (claim_of header.now (claim_seen header.now (order_seen values.now))) }
{
    let cardholder = text(values.cardholder)?;
    let date = date_of_service(header)?;
    let prescription = prescription(values)?;
    let fill = fill_number(values.fill)?;
    let product = product(values)?;
    let quantity = number(values.quantity, 10)?;
    let cost = cents(values.cost)?;
    let fee = cents_if_given(values.fee)?;
    Some(Order::Claim(Claim {
        fill: Fill {
            bin: header.bin(),
            pcn: header.pcn(),
            qualifier: header.qualifier(),
            provider: header.provider(),
            prescription,
            fill,
        },
        date,
        cardholder,
        product,
        quantity,
        cost,
        fee,
    }))
}

impl ReversalFields {
    ghost use Rattle.claim_profile.specs.Order.{reversal_of, reversal_codes};
    ghost use Rattle.claim_profile.specs.OrderSeen.{reversal_seen};

    /// The fields that these values spell.
    pub fn of(header: &RequestHeader, values: &OrderValues<'_>) -> ReversalFields
        ensures { result ≡ reversal_seen header.now (order_seen values.now) }
    {
        ReversalFields {
            date: date_of_service(header),
            prescription: prescription(values),
            fill: fill_if_given(values.fill),
        }
    }

    /// The reversal, where each field is valid.
    #[tactic(auto, unfolding(crate::specs::Order::reversal_of))]
    pub fn whole(&self, header: &RequestHeader) -> Option<Reversal>
        ensures { result ≡ reversal_of header.now self.now }
    {
        let date = self.date?;
        let prescription = self.prescription?;
        let fill = self.fill?;
        Some(Reversal {
            bin: header.bin(),
            pcn: header.pcn(),
            qualifier: header.qualifier(),
            provider: header.provider(),
            prescription,
            fill,
            date,
        })
    }

    /// The codes of the fields that are not valid.
    #[tactic(auto, unfolding(crate::specs::Order::reversal_codes))]
    pub fn rejects(&self) -> Rejects
        requires { 1 ≤ length (reversal_codes self.now) }
        ensures { result ≡ reversal_codes self.now }
    {
        first_five(&[
            (self.date.is_none(), Code::DateOfService),
            (self.prescription.is_none(), Code::Prescription),
            (self.fill.is_none(), Code::FillNumber),
        ])
        .unwrap()
    }
}

/// The date of service (401-D1), where it is a day.
fn date_of_service(header: &RequestHeader) -> Option<[u8; 8]>
    ensures { result ≡ day_of_service header.now }
{
    let date = header.date();
    if is_date(&date) { Some(date) } else { None }
}

/// The prescription number (402-D2), where its qualifier (455-EM) says prescription billing.
fn prescription(values: &OrderValues<'_>) -> Option<u64>
    ensures { result ≡ prescription_seen (order_seen values.now) }
{
    if is_exactly(values.prescription_qualifier, b"1") {
        number(values.prescription, 12)
    } else {
        None
    }
}

/// The product (407-D7), where its qualifier (436-E1) says national drug code.
fn product(values: &OrderValues<'_>) -> Option<Text<19>>
    ensures { result ≡ product_seen (order_seen values.now) }
{
    if is_exactly(values.product_qualifier, b"03") {
        text(values.product)
    } else {
        None
    }
}

/// The fill number (403-D3) of a reversal, which may leave it out.
fn fill_if_given(found: Found<'_>) -> Option<Option<u8>>
    ensures { result ≡ fill_seen (seen found.entry) }
{
    match found {
        Found::Nothing => Some(None),
        Found::One(_) | Found::Several => Some(Some(fill_number(found)?)),
    }
}
